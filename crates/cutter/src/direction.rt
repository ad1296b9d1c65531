// The eight directions of a run: document 01, "Calls", run.
ghost use Rattle.std.specs.Prelude.{◌≡◌, ◌≤◌};
ghost use Rattle.cutter.specs.Directions.{direction_number, step_right, step_down, place_after, leaves_side};
ghost use Rattle.cutter.specs.Numbers.{IsDirection};

use raster::Refusal;

// Clockwise from east, with their numbers.
#[derive(Clone, Copy, Debug, PartialEq, Eq)]
pub enum Direction {
    East = 0,
    SouthEast = 1,
    South = 2,
    SouthWest = 3,
    West = 4,
    NorthWest = 5,
    North = 6,
    NorthEast = 7,
}

impl TryFrom<u16> for Direction {
    type Error = Refusal;

    ghost try_from_gives = { IsDirection };

    fn try_from(number: u16) -> Result<Direction, Refusal> {
        match number {
            0 => Ok(Direction::East),
            1 => Ok(Direction::SouthEast),
            2 => Ok(Direction::South),
            3 => Ok(Direction::SouthWest),
            4 => Ok(Direction::West),
            5 => Ok(Direction::NorthWest),
            6 => Ok(Direction::North),
            7 => Ok(Direction::NorthEast),
            _ => Err(Refusal::Run),
        }
    }
}

// One step of each, to the right and down.
const STEPS: [[i16; 2]; 8] = [
    [1, 0],
    [1, 1],
    [0, 1],
    [-1, 1],
    [-1, 0],
    [-1, -1],
    [0, -1],
    [1, -1],
];

impl Direction {
    // Its number in the documents.
    fn number(self) -> usize
        ensures { (result ≡ direction_number self) × (result ≤ 7) }
    {
        self as usize
    }

    // One step of it to the right.
    pub(crate) fn step_right(self) -> i16
        ensures { result ≡ step_right (direction_number self) }
    {
        STEPS[self.number()][0]
    }

    // One step of it down.
    pub(crate) fn step_down(self) -> i16
        ensures { result ≡ step_down (direction_number self) }
    {
        STEPS[self.number()][1]
    }
}

// The place t after n steps, or 0 where they lead below it.
pub(crate) fn place_after(step: i16, n: u16, t: u16) -> usize
    ensures { result ≡ place_after step n t }
{
    if 0 < step {
        usize::from(t) + usize::from(n)
    } else if step < 0 {
        usize::from(t.saturating_sub(n))
    } else {
        usize::from(t)
    }
}

// They leave a line of `side` places.
pub(crate) fn leaves_side(step: i16, side: u16, n: u16, t: u16) -> bool
    ensures { result ≡ leaves_side step side n t }
{
    if 0 < step {
        usize::from(side) <= usize::from(t) + usize::from(n)
    } else {
        step < 0 && t < n
    }
}
