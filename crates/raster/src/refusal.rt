// Why a call is refused: document 01, its two tables of numbers, and document 02.
ghost use Rattle.std.specs.Prelude.{◌≡◌};
ghost use Rattle.raster.specs.Refusal.{number_of, answer_of};

// The reasons, each with its number.
#[derive(Clone, Copy, Debug, PartialEq, Eq)]
pub enum Refusal {
    Side = 11,
    Length = 12,
    Rectangle = 13,
    Engine = 14,
    TooWide = 15,
    OffSheet = 16,
    Run = 17,
    Measure = 18,
    NotAJob = 19,
    NotOpen = 30,
    NotCurrent = 31,
    CutterUp = 32,
    LeavesSheet = 33,
    TooNear = 34,
    NotExact = 36,
    NoCopper = 37,
    FallingRows = 43,
    NotStorable = 45,
}

impl Refusal {
    // Its number in the documents.
    pub fn number(self) -> u32
        ensures { result ≡ number_of self }
    {
        self as u32
    }
}

// What a call answers: 0 if it was done.
pub fn answer<T: Drop>(done: &Result<T, Refusal>) -> u32
    ensures { result ≡ answer_of done.now }
{
    match done {
        Ok(_) => 0,
        Err(refusal) => refusal.number(),
    }
}
