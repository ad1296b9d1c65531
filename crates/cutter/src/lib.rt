// The cutter (document 01, "Calls", place and run; document 02, C-11 and C-12): whether it may stand at a pixel of a map of either kind, where a run takes
// it, and how near it comes to copper.

#![tactic(auto)]

ghost use Rattle.std.specs.Prelude.{◌≡◌, true, false, not, ◌*◌, ◌<◌, ◌≤◌, ltb, length};
ghost use Rattle.raster.specs.Map.{Inside};
ghost use Rattle.cutter.specs.Kinds.{by_values, seen_by};
ghost use Rattle.cutter.specs.Lent.{held_by};
ghost use Rattle.cutter.specs.Directions.{direction_number, column_after, row_after};
ghost use Rattle.cutter.specs.Gates.{known_engine, gate_of, IsSight, On, may_stand, OnSheet, cutter_after, leaves_sheet, blocked};
ghost use Rattle.cutter.specs.Closest.{nearer, closest_at, closest_along};

mod direction; // the eight ways of a run
mod engine; // what builds a map

pub use direction::Direction;
pub use engine::Engine;

// A cutter of q at the pixel (x, y), over a map of width × height pixels that an engine built.
#[derive(Clone, Copy)]
pub struct Cutter {
    pub width: u16,
    pub height: u16,
    pub engine: u16,
    pub x: u16,
    pub y: u16,
    pub q: u32,
}

// The maps that a call is lent, of both kinds.
#[derive(Clone, Copy)]
pub struct LentMaps<'a> {
    pub pairs: &'a [i16],
    pub values: &'a [u16],
}

// The closest approach: the least size of the labelled pixels that a cutter has met. Where it has met none the size is 0.
#[repr(C)]
#[derive(Clone, Copy)]
pub struct Closest {
    pub met: bool,
    pub size: u32,
}

// What a look at pixels says: one of them does not pass the cutter; the closest approach with them.
#[derive(Clone, Copy)]
pub struct Look {
    pub blocked: bool,
    pub closest: Closest,
}

impl Closest {
    // It has met none.
    pub const NONE: Closest = Closest {
        met: false,
        size: 0,
    };

    // It with one more labelled pixel, of size a.
    #[tactic(auto, unfolding(crate::specs::Closest::nearer))]
    fn nearer(self, a: u32) -> Closest
        ensures { result ≡ nearer a self }
    {
        if self.met & (self.size <= a) {
            return self;
        }
        Closest { met: true, size: a }
    }
}

// ---- the engines and their gates

// There is an engine of that number.
pub fn is_engine(number: u16) -> bool
    ensures { result ≡ known_engine number }
{
    Engine::try_from(number).is_ok()
}

// The kind of its map is values.
pub fn by_values(number: u16) -> bool
    ensures { result ≡ by_values number }
{
    matches!(Engine::try_from(number), Ok(Engine::Draft(_)))
}

// What its gate multiplies a size by, and q. A number that names no engine has the gate of 4SED.
fn gate_of(number: u16) -> (usize, usize)
    ensures times { (result.0 ≡ (gate_of number).den) × (result.0 ≤ 144) }
    ensures factor { (result.1 ≡ (gate_of number).num) × (result.1 ≤ 169) }
{
    match Engine::try_from(number) {
        Ok(Engine::Exact) => (1, 1),
        Ok(Engine::EightSed) => (144, 169),
        Ok(Engine::Draft(draft)) => (1, draft.factor()),
        Ok(Engine::FourSed) | Err(_) => (1, 2),
    }
}

// What a look at pixels has to know of an engine and of q, worked out once for all pixels of a run: the kind of map, and its gate, which a labelled pixel of
// size a passes if `limit` is below `times` × a.
#[derive(Clone, Copy)]
struct Sight {
    values: bool,
    times: usize,
    limit: usize,
}

impl Sight {
    fn of(engine: u16, q: u32) -> Sight
        ensures { IsSight result engine q }
    {
        let (times, factor) = gate_of(engine);
        Sight {
            values: by_values(engine),
            times,
            limit: factor * (q as usize),
        }
    }

    // A labelled pixel of size a passes.
    fn passes(self, a: u32) -> bool
        requires { self.times ≤ 144 }
        ensures { result ≡ ltb self.limit (self.times * a) }
    {
        self.limit < self.times * (a as usize)
    }
}

// ---- what is met

// The size of pixel p of the values, or of the pairs, if it is labelled.
fn see(valued: bool, maps: LentMaps, p: usize) -> Option<u32>
    requires { (valued ≡ true → p < length maps.values.now) × (valued ≡ false → Inside p maps.pairs.now) }
    ensures { result ≡ seen_by valued (held_by maps.entry) p }
{
    if valued {
        if chamfer::no_value_at(maps.values, p) {
            return None;
        }
        return Some(chamfer::square_at(maps.values, p));
    }
    if raster::unlabelled_at(maps.pairs, p) {
        return None;
    }
    Some(raster::size_at(maps.pairs, p))
}

// ---- the cutter

impl Cutter {
    // A look at the pixel under it, with the sight of its engine and q. An unlabelled pixel passes, and is no approach.
    fn look_with(self, sight: Sight, maps: LentMaps, closest: Closest) -> Look
        requires { On self (held_by maps) × IsSight sight self.engine self.q }
        ensures stopped { result.blocked ≡ not (may_stand self (held_by maps.entry)) }
        ensures met { result.closest ≡ closest_at self (held_by maps.entry) closest }
    {
        let p = (self.y as usize) * (self.width as usize) + (self.x as usize);
        match see(sight.values, maps, p) {
            None => Look {
                blocked: false,
                closest,
            },
            Some(size) => Look {
                blocked: !sight.passes(size),
                closest: closest.nearer(size),
            },
        }
    }

    // A look at that pixel alone.
    pub fn look_at(self, maps: LentMaps, closest: Closest) -> Look
        requires { On self (held_by maps) }
        ensures stopped { result.blocked ≡ not (may_stand self (held_by maps.entry)) }
        ensures met { result.closest ≡ closest_at self (held_by maps.entry) closest }
    {
        self.look_with(Sight::of(self.engine, self.q), maps, closest)
    }

    // A step of a run of n steps ends at no pixel.
    pub fn leaves_sheet(self, direction: Direction, n: u16) -> bool
        requires { (self.x < self.width) × (self.y < self.height) }
        ensures { result ≡ leaves_sheet self (direction_number direction) n }
    {
        let across = direction::leaves_side(direction.step_right(), self.width, n, self.x);
        let down = direction::leaves_side(direction.step_down(), self.height, n, self.y);
        across | down
    }

    // It after n steps, which end on the sheet.
    pub fn after(self, direction: Direction, n: u16) -> Cutter
        requires { (column_after (direction_number direction) n self.x < self.width)
            × (row_after (direction_number direction) n self.y < self.height) }
        ensures { result ≡ cutter_after (direction_number direction) n self }
    {
        let x = direction::place_after(direction.step_right(), n, self.x);
        let y = direction::place_after(direction.step_down(), n, self.y);
        Cutter {
            x: x as u16,
            y: y as u16,
            ..self
        }
    }

    // A look at each pixel of a run after its start.
    pub fn look_along(
        self,
        maps: LentMaps,
        direction: Direction,
        count: u16,
        mut closest: Closest,
    ) -> Look
        requires { OnSheet self (held_by maps) (direction_number direction) count }
        ensures stopped { result.blocked ≡ blocked self (held_by maps.entry) (direction_number direction) count }
        ensures met { result.closest ≡ closest_along self (held_by maps.entry) (direction_number direction) count closest }
    {
        let sight = Sight::of(self.engine, self.q);
        let mut blocked = false;
        for i in 0..count {
            let look = self.after(direction, i + 1).look_with(sight, maps, closest);
            blocked = look.blocked | blocked;
            closest = look.closest;
        }
        Look { blocked, closest }
    }
}
