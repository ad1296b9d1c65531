// The engines that build maps: document 01, "Engines", and document 02, C-12.
ghost use Rattle.std.specs.Prelude.{◌≡◌};
ghost use Rattle.cutter.specs.Numbers.{engine_number, IsEngine};

use chamfer::Draft;
use raster::Refusal;

// Those of true or nearly true distances, whose maps are of pairs, and those of drafts, whose maps are of values.
#[derive(Clone, Copy, Debug, PartialEq, Eq)]
pub enum Engine {
    Exact,
    EightSed,
    FourSed,
    Draft(Draft),
}

impl Engine {
    // Its number in the documents.
    pub fn number(self) -> u16
        ensures { result ≡ engine_number self }
    {
        match self {
            Engine::Exact => 1,
            Engine::EightSed => 2,
            Engine::FourSed => 3,
            Engine::Draft(draft) => draft.number(),
        }
    }
}

impl TryFrom<u16> for Engine {
    type Error = Refusal;

    ghost try_from_gives = { IsEngine };

    fn try_from(number: u16) -> Result<Engine, Refusal> {
        match number {
            1 => Ok(Engine::Exact),
            2 => Ok(Engine::EightSed),
            3 => Ok(Engine::FourSed),
            _ => Ok(Engine::Draft(Draft::try_from(number)?)),
        }
    }
}
