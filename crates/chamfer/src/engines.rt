// The engines of draft maps: their weights and their gates.
ghost use Rattle.std.specs.Prelude.{◌≡◌, ◌≤◌};
ghost use Rattle.chamfer.specs.Engines.{side_weight, corner_weight, gate};
ghost use Rattle.chamfer.specs.Drafts.{engine_of, Decodes};

use crate::StepWeights;
use raster::Refusal;

// The weights of a side step and of a corner step: city block, chessboard, chamfer.
const WEIGHTS: [[u16; 2]; 3] = [[1, 2], [1, 1], [3, 4]];

// The engines, each with its number.
#[derive(Clone, Copy, Debug, PartialEq, Eq)]
pub enum Draft {
    CityBlock = 4,
    Chessboard = 5,
    Chamfer = 6,
}

impl Draft {
    pub fn number(self) -> u16
        ensures { result ≡ engine_of self }
    {
        self as u16
    }

    // Its row of the table.
    pub fn weights(self) -> StepWeights
        ensures side { result.side ≡ side_weight (engine_of self) }
        ensures corner { result.corner ≡ corner_weight (engine_of self) }
    {
        let row = WEIGHTS[usize::from(self.number()) - 4];
        StepWeights::new(row[0], row[1])
    }

    // What its gate multiplies q by.
    pub fn factor(self) -> usize
        ensures { (result ≡ (gate (engine_of self)).num) × (result ≤ 10) }
    {
        match self {
            Draft::CityBlock => 2,
            Draft::Chessboard => 1,
            Draft::Chamfer => 10,
        }
    }
}

impl TryFrom<u16> for Draft {
    type Error = Refusal;

    ghost try_from_gives = { Decodes };

    fn try_from(engine: u16) -> Result<Self, Refusal> {
        match engine {
            4 => Ok(Draft::CityBlock),
            5 => Ok(Draft::Chessboard),
            6 => Ok(Draft::Chamfer),
            _ => Err(Refusal::Engine),
        }
    }
}

// What the gate of the engine of a number multiplies q by.
pub fn factor(engine: u16) -> usize
    ensures { (result ≡ (gate engine).num) × (result ≤ 10) }
{
    match Draft::try_from(engine) {
        Ok(draft) => draft.factor(),
        Err(_) => 10,
    }
}
