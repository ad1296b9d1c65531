// Why a call is refused, if it is: each check reads the table of its name in specs/Refusals. What a check works out on the way, as the engine of a number, it
// hands on.
ghost use Rattle.std.specs.Prelude.{◌≡◌, cond, ◌*◌, IfOk};
ghost use Rattle.raster.specs.Refusal.{first_of, answer_of};
ghost use Rattle.cutter.specs.Kinds.{has_pixels};
ghost use Rattle.cutter.specs.Lent.{held_by};
ghost use Rattle.cutter.specs.Directions.{direction_number};
ghost use Rattle.cutter.specs.Numbers.{engine_number};
ghost use Rattle.cutter.specs.Closest.{unmet, closest_at, closest_along};
ghost use Rattle.session.specs.State.{cutter_of, own_cutter};
ghost use Rattle.session.specs.Refusals.{
  is_map,
  open_table,
  fill_table,
  resize_table,
  read_table,
  probe_table,
  build_table,
  place_table,
  run_table,
};

use crate::Session;
use cutter::{Closest, Direction, Engine, LentMaps, Look};
use raster::Refusal;

#[tactic(auto, unfolding(crate::specs::Refusals::open_table, raster::specs::Refusal::first_of))]
pub fn check_open(sheet: &[u8], w: u16, h: u16) -> Result<(), Refusal>
    ensures { answer_of result ≡ first_of (open_table sheet.now w h) }
{
    if !(raster::is_side(w) & raster::is_side(h)) {
        return Err(Refusal::Side);
    }
    if sheet.len() != raster::area(w, h) {
        return Err(Refusal::Length);
    }
    Ok(())
}

// The last row of place and run: what the look at their pixels says. The closest approach, if none is too near.
pub fn check_gate(look: Look) -> Result<Closest, Refusal>
    ensures answered { answer_of result ≡ cond look.blocked 34 0 }
    ensures passed { IfOk result (λ closest. closest ≡ look.closest) }
{
    if look.blocked {
        return Err(Refusal::TooNear);
    }
    Ok(look.closest)
}

impl Session {
    // The pixels of its sheet.
    pub(crate) fn pixels(self) -> usize
        ensures { result ≡ self.height * self.width }
    {
        raster::area(self.width, self.height)
    }

    // A slice of two numbers a pixel.
    pub(crate) fn is_map(self, map: &[i16]) -> bool
        ensures { result ≡ is_map self map.now }
    {
        map.len() == 2 * self.pixels()
    }

    // A map of its pixels, of the kind that the engine writes.
    fn is_map_by(self, engine: u16, maps: LentMaps) -> bool
        ensures { result ≡ has_pixels engine (self.height * self.width) (held_by maps.entry) }
    {
        if cutter::by_values(engine) {
            return maps.values.len() == self.pixels();
        }
        self.is_map(maps.pairs)
    }

    #[tactic(auto, unfolding(crate::specs::Refusals::fill_table, raster::specs::Refusal::first_of))]
    pub(crate) fn check_fill(
        self,
        sheet: &[u8],
        x: u16,
        y: u16,
        cols: u16,
        rows: u16,
    ) -> Result<(), Refusal>
        ensures { answer_of result ≡ first_of (fill_table self sheet.now x y cols rows) }
    {
        if !self.is_active() {
            return Err(Refusal::NotOpen);
        }
        if sheet.len() != self.pixels() {
            return Err(Refusal::Length);
        }
        let empty = (cols == 0) | (rows == 0);
        let across = usize::from(self.width) < usize::from(x) + usize::from(cols);
        let down = usize::from(self.height) < usize::from(y) + usize::from(rows);
        if empty | (across | down) {
            return Err(Refusal::Rectangle);
        }
        Ok(())
    }

    #[tactic(auto, unfolding(crate::specs::Refusals::resize_table, crate::specs::Refusals::resize_table_by, raster::specs::Refusal::first_of))]
    pub(crate) fn check_resize(
        self,
        sheet: &[u8],
        map: &[i16],
        scratch: &[i16],
        q: u32,
    ) -> Result<(), Refusal>
        ensures { answer_of result ≡ first_of (resize_table self sheet.now map.now scratch.now q) }
    {
        if !self.is_active() {
            return Err(Refusal::NotOpen);
        }
        let need = exact::scratch_need(self.width);
        if (sheet.len() != self.pixels()) | (!self.is_map(map) | (scratch.len() < need)) {
            return Err(Refusal::Length);
        }
        if Session::MAX_Q < q {
            return Err(Refusal::TooWide);
        }
        Ok(())
    }

    // Skeleton and rebuild; `wrong` says that another slice that is lent is not one byte a pixel.
    #[tactic(auto, unfolding(crate::specs::Refusals::read_table, raster::specs::Refusal::first_of))]
    pub(crate) fn check_read(self, map: &[i16], wrong: bool) -> Result<(), Refusal>
        ensures { answer_of result ≡ first_of (read_table self map.now wrong) }
    {
        if !self.is_active() {
            return Err(Refusal::NotOpen);
        }
        if !self.is_map(map) | wrong {
            return Err(Refusal::Length);
        }
        if !self.current {
            return Err(Refusal::NotCurrent);
        }
        if self.engine != Engine::Exact.number() {
            return Err(Refusal::NotExact);
        }
        if !raster::has_copper(map, self.pixels()) {
            return Err(Refusal::NoCopper);
        }
        Ok(())
    }

    #[tactic(auto, unfolding(crate::specs::Refusals::probe_table, raster::specs::Refusal::first_of))]
    pub(crate) fn check_probe(
        self,
        sheet: &[u8],
        points: &[u16],
        scratch: &[i16],
        out: &[u32],
    ) -> Result<(), Refusal>
        ensures { answer_of result ≡ first_of (probe_table self sheet.now points.now scratch.now out.now) }
    {
        if !self.is_active() {
            return Err(Refusal::NotOpen);
        }
        let need = exact::scratch_need(self.width);
        let n = out.len();
        let odd = points.len() != 2 * n;
        if (sheet.len() != self.pixels()) | ((scratch.len() < need) | odd) {
            return Err(Refusal::Length);
        }
        if probe::has_point_off(points, n, self.width as usize, self.height as usize) {
            return Err(Refusal::OffSheet);
        }
        if probe::has_falling_row(points, n) {
            return Err(Refusal::FallingRows);
        }
        Ok(())
    }

    // Only the exact engine asks for scratch.
    #[tactic(auto, unfolding(crate::specs::Refusals::build_table, crate::specs::Refusals::build_table_by, raster::specs::Refusal::first_of))]
    pub(crate) fn check_build(
        self,
        sheet: &[u8],
        maps: LentMaps,
        scratch: &[i16],
        engine: u16,
    ) -> Result<Engine, Refusal>
        ensures answered { answer_of result
            ≡ first_of (build_table self sheet.now (held_by maps.entry) scratch.now engine) }
        ensures named { IfOk result (λ e. engine_number e ≡ engine) }
    {
        if !self.is_active() {
            return Err(Refusal::NotOpen);
        }
        let need = exact::scratch_need(self.width);
        let short = (engine == Engine::Exact.number()) & (scratch.len() < need);
        if (sheet.len() != self.pixels()) | (!self.is_map_by(engine, maps) | short) {
            return Err(Refusal::Length);
        }
        Engine::try_from(engine)
    }

    // The closest approach at the pixel.
    #[tactic(auto, unfolding(crate::specs::Refusals::place_table, crate::specs::Refusals::place_rows, raster::specs::Refusal::first_of))]
    pub(crate) fn check_place(
        self,
        maps: LentMaps,
        x: u16,
        y: u16,
        q: u32,
    ) -> Result<Closest, Refusal>
        ensures answered { answer_of result ≡ first_of (place_table self (held_by maps.entry) x y q) }
        ensures met { IfOk result (λ k. k ≡ closest_at (cutter_of self x y q) (held_by maps.entry) unmet) }
    {
        if !self.is_active() {
            return Err(Refusal::NotOpen);
        }
        if !self.is_map_by(self.engine, maps) {
            return Err(Refusal::Length);
        }
        if Session::MAX_Q < q {
            return Err(Refusal::TooWide);
        }
        if (self.width <= x) | (self.height <= y) {
            return Err(Refusal::OffSheet);
        }
        if !self.current {
            return Err(Refusal::NotCurrent);
        }
        check_gate(self.cutter_at(x, y, q).look_at(maps, Closest::NONE))
    }

    // The direction of that number, and the closest approach with the pixels of the run.
    #[tactic(auto, unfolding(crate::specs::Refusals::run_table, crate::specs::Refusals::run_rows, raster::specs::Refusal::first_of))]
    pub(crate) fn check_run(
        self,
        maps: LentMaps,
        direction: u16,
        count: u16,
    ) -> Result<(Direction, Closest), Refusal>
        ensures answered { answer_of result ≡ first_of (run_table self (held_by maps.entry) direction count) }
        ensures named { IfOk result (λ r. direction_number r.0 ≡ direction) }
        ensures met { IfOk result (λ r.
            r.1 ≡ closest_along (own_cutter self) (held_by maps.entry) direction count self.closest) }
    {
        if !self.is_active() {
            return Err(Refusal::NotOpen);
        }
        if !self.is_map_by(self.engine, maps) {
            return Err(Refusal::Length);
        }
        let way = Direction::try_from(direction)?;
        if (count < 1) | (Session::MAX_COUNT < count) {
            return Err(Refusal::Run);
        }
        if !self.lowered {
            return Err(Refusal::CutterUp);
        }
        let own = self.own_cutter();
        if own.leaves_sheet(way, count) {
            return Err(Refusal::LeavesSheet);
        }
        let closest = check_gate(own.look_along(maps, way, count, self.closest))?;
        Ok((way, closest))
    }
}
