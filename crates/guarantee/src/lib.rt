// Theorems alone: demand 3 of document 01, over all lists of calls, and its table of boards.

#![tactic(auto)]
