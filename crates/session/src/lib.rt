// The session (document 01, and document 02, C-11, C-12 and C-19): every call takes it by value and hands it back with an answer number, 0 if it was done. No
// call asks anything of its caller: bad input gets its number, and a refusal changes nothing. Behind each call stands a function that says the same by a
// `Result`: the session that the call leaves, or why it is refused.

#![tactic(auto)]

ghost use Rattle.std.specs.Prelude.{◌≡◌, cond, ◌&&◌, eqb};
ghost use Rattle.std.specs.Result.{result_unwrap_or};
ghost use Rattle.raster.specs.Map.{unmapped};
ghost use Rattle.raster.specs.Refusal.{first_of, on_done, answer_of};
ghost use Rattle.raster.specs.Sheet.{bare};
ghost use Rattle.morphology.specs.Resize.{expanded, shrunk};
ghost use Rattle.rebuild.specs.Rebuild.{rebuilt};
ghost use Rattle.skeleton.specs.Skeleton.{skeleton_of};
ghost use Rattle.cutter.specs.Kinds.{maps};
ghost use Rattle.session.specs.State.{fresh, opened_as, stale, built_by};
ghost use Rattle.session.specs.Maps.{pairs_built, values_built};
ghost use Rattle.session.specs.Refusals.{
  open_table,
  fill_table,
  resize_table,
  skeleton_table,
  rebuild_table,
  probe_table,
  build_table,
  place_table,
  run_table,
};
ghost use Rattle.session.specs.Calls.{
  filled_by,
  scratch_by,
  place_session,
  run_session,
  lift_session,
  distances_by,
  rows_by,
  map_row,
};

mod state; // which sessions are sound, and how one changes
mod refusals; // why a call is refused
mod calls; // what a call does, by a result

use cutter::{Closest, LentMaps};
use raster::Refusal;

// What a session records.
#[repr(C)]
#[derive(Clone, Copy)]
pub struct Session {
    pub opened: bool,
    pub width: u16,
    pub height: u16,
    pub current: bool,
    pub engine: u16,
    pub lowered: bool,
    pub x: u16,
    pub y: u16,
    pub q: u32,
    pub closest: Closest,
}

// What a call hands back.
#[repr(C)]
#[derive(Clone, Copy)]
pub struct Reply {
    pub answer: u32,
    pub session: Session,
}

// What probe hands back: the number of different rows among its points, too.
#[repr(C)]
#[derive(Clone, Copy)]
pub struct Probed {
    pub answer: u32,
    pub rows: u32,
    pub session: Session,
}

impl Session {
    // Nothing open, map not current, cutter up.
    pub const FRESH: Session = Session {
        opened: false,
        width: 0,
        height: 0,
        current: false,
        engine: 0,
        lowered: false,
        x: 0,
        y: 0,
        q: 0,
        closest: Closest::NONE,
    };

    // The longest side of a sheet.
    pub const MAX_SIDE: u16 = raster::MAX_SIDE;

    // The largest q.
    pub const MAX_Q: u32 = 4194304;

    // The most steps of a run.
    pub const MAX_COUNT: u16 = 2047;

    // The constant, tied to its definition.
    pub fn fresh() -> Session
        ensures { result ≡ fresh }
    {
        Session::FRESH
    }

    // What a call hands back: the session that it leaves, or this one if it is refused.
    fn reply(self, done: Result<Session, Refusal>) -> Reply
        ensures answered { result.answer ≡ answer_of done }
        ensures handed_back { result.session ≡ result_unwrap_or done self }
    {
        Reply {
            answer: raster::answer(&done),
            session: done.unwrap_or(self),
        }
    }

    // Opens a sheet of w × h pixels: it is cleared, the map not current, the cutter up.
    pub fn open_sheet(mut self, sheet: &mut [u8], w: u16, h: u16) -> Reply
        ensures answered { result.answer ≡ first_of (open_table sheet.old w h) }
        ensures handed_back { result.session ≡ on_done result.answer (opened_as w h) self }
        ensures sheet_left { sheet.new ≡ on_done result.answer (bare sheet.old) sheet.old }
    {
        let done = Session::try_open(sheet, w, h);
        self.reply(done)
    }

    // Writes 1 in the rectangle of cols × rows pixels at (x, y); the map is not current then, the cutter up.
    pub fn paint(mut self, sheet: &mut [u8], x: u16, y: u16, cols: u16, rows: u16) -> Reply
        ensures answered { result.answer ≡ first_of (fill_table self sheet.old x y cols rows) }
        ensures handed_back { result.session ≡ on_done result.answer (stale self) self }
        ensures sheet_left { sheet.new ≡ on_done result.answer (filled_by self x y cols rows 1 sheet.old) sheet.old }
    {
        let done = self.try_fill(sheet, x, y, cols, rows, 1);
        self.reply(done)
    }

    // Writes 0 there; otherwise as paint.
    pub fn erase(mut self, sheet: &mut [u8], x: u16, y: u16, cols: u16, rows: u16) -> Reply
        ensures answered { result.answer ≡ first_of (fill_table self sheet.old x y cols rows) }
        ensures handed_back { result.session ≡ on_done result.answer (stale self) self }
        ensures sheet_left { sheet.new ≡ on_done result.answer (filled_by self x y cols rows 0 sheet.old) sheet.old }
    {
        let done = self.try_fill(sheet, x, y, cols, rows, 0);
        self.reply(done)
    }

    // Builds the map of pairs with engine 1 exact, 2 8SED or 3 4SED, or the map of values with 4 city block, 5 chessboard or 6 chamfer; it is current then,
    // the cutter up.
    pub fn build(
        mut self,
        sheet: &[u8],
        map: &mut [i16],
        values: &mut [u16],
        scratch: &mut [i16],
        engine: u16,
    ) -> Reply
        ensures answered { result.answer
            ≡ first_of (build_table self sheet.now (maps map.old values.old) scratch.old engine) }
        ensures handed_back { result.session ≡ on_done result.answer (built_by engine self) self }
        ensures map_left { map.new ≡ on_done result.answer (pairs_built self sheet.now engine map.old) map.old }
        ensures values_left { values.new
            ≡ on_done result.answer (values_built self sheet.now engine values.old) values.old }
        ensures scratch_left { scratch.new
            ≡ cond (eqb result.answer 0 && eqb engine 1) (scratch_by self scratch.old) scratch.old }
    {
        let done = self.try_build(sheet, map, values, scratch, engine);
        self.reply(done)
    }

    // Brings the cutter down at (x, y) with squared radius q, also where it was down before; the closest approach is then that pixel's size. It reads the kind
    // of map that was built last.
    pub fn place(mut self, map: &[i16], values: &[u16], x: u16, y: u16, q: u32) -> Reply
        ensures answered { result.answer ≡ first_of (place_table self (maps map.now values.now) x y q) }
        ensures handed_back { result.session
            ≡ on_done result.answer (place_session self (maps map.now values.now) x y q) self }
    {
        let maps = LentMaps { pairs: map, values };
        self.reply(self.try_place(maps, x, y, q))
    }

    // Moves the lowered cutter by `count` steps, whole or not at all; its pixels count for the closest approach. It reads the kind of map that was built last.
    pub fn run(mut self, map: &[i16], values: &[u16], direction: u16, count: u16) -> Reply
        ensures answered { result.answer ≡ first_of (run_table self (maps map.now values.now) direction count) }
        ensures handed_back { result.session
            ≡ on_done result.answer (run_session self (maps map.now values.now) direction count) self }
    {
        let maps = LentMaps { pairs: map, values };
        self.reply(self.try_run(maps, direction, count))
    }

    // Lifts the cutter, and keeps the closest approach; a session that is not sound becomes a fresh one.
    pub fn lift(mut self) -> Reply
        ensures answered { result.answer ≡ 0 }
        ensures handed_back { result.session ≡ lift_session self }
    {
        Reply {
            answer: 0,
            session: if self.is_sound() {
                self.up()
            } else {
                Session::FRESH
            },
        }
    }

    // A pixel is copper afterwards if its true squared distance is at most q.
    pub fn expand(mut self, sheet: &mut [u8], map: &mut [i16], scratch: &mut [i16], q: u32) -> Reply
        ensures answered { result.answer ≡ first_of (resize_table self sheet.old map.old scratch.old q) }
        ensures handed_back { result.session ≡ on_done result.answer (stale self) self }
        ensures sheet_left { sheet.new
            ≡ on_done result.answer (expanded self.width self.height q sheet.old) sheet.old }
        ensures map_left { map.new ≡ on_done result.answer (unmapped map.old) map.old }
        ensures scratch_left { scratch.new ≡ on_done result.answer (scratch_by self scratch.old) scratch.old }
    {
        let done = self.try_expand(sheet, map, scratch, q);
        self.reply(done)
    }

    // Copper stays where no bare pixel of the sheet and no place off it is within squared distance q.
    pub fn shrink(mut self, sheet: &mut [u8], map: &mut [i16], scratch: &mut [i16], q: u32) -> Reply
        ensures answered { result.answer ≡ first_of (resize_table self sheet.old map.old scratch.old q) }
        ensures handed_back { result.session ≡ on_done result.answer (stale self) self }
        ensures sheet_left { sheet.new
            ≡ on_done result.answer (shrunk self.width self.height q sheet.old) sheet.old }
        ensures map_left { map.new ≡ on_done result.answer (unmapped map.old) map.old }
        ensures scratch_left { scratch.new ≡ on_done result.answer (scratch_by self scratch.old) scratch.old }
    {
        let done = self.try_shrink(sheet, map, scratch, q);
        self.reply(done)
    }

    // Writes 1 in `out` at each pixel of the exact map that its skeleton keeps, 0 elsewhere.
    pub fn skeleton(mut self, map: &[i16], out: &mut [u8]) -> Reply
        ensures answered { result.answer ≡ first_of (skeleton_table self map.now out.old) }
        ensures handed_back { result.session ≡ self }
        ensures out_left { out.new ≡ on_done result.answer (skeleton_of map.now self.width self.height) out.old }
    {
        let done = self.try_skeleton(map, out);
        self.reply(done)
    }

    // Writes 1 in `out` at each pixel that the disk of a marked pixel of the exact map covers, 0 elsewhere.
    pub fn rebuild(mut self, map: &[i16], marks: &[u8], out: &mut [u8]) -> Reply
        ensures answered { result.answer ≡ first_of (rebuild_table self map.now marks.now out.old) }
        ensures handed_back { result.session ≡ self }
        ensures out_left { out.new
            ≡ on_done result.answer (rebuilt map.now self.width self.height marks.now) out.old }
    {
        let done = self.try_rebuild(map, marks, out);
        self.reply(done)
    }

    // Writes the true squared distance of each point in `out`, 4,294,967,295 without copper. Points are pairs, x then y, sorted by row. No map is needed.
    pub fn probe(
        mut self,
        sheet: &[u8],
        points: &[u16],
        scratch: &mut [i16],
        out: &mut [u32],
    ) -> Probed
        ensures answered { result.answer
            ≡ first_of (probe_table self sheet.now points.now scratch.old out.old) }
        ensures counted { result.rows ≡ on_done result.answer (rows_by self points.now out.old) 0 }
        ensures handed_back { result.session ≡ self }
        ensures out_left { out.new
            ≡ on_done result.answer (distances_by self sheet.now points.now out.old) out.old }
        ensures scratch_left { scratch.new ≡ on_done result.answer (scratch_by self scratch.old) scratch.old }
    {
        let done = self.try_probe(sheet, points, scratch, out);
        Probed {
            answer: raster::answer(&done),
            rows: done.unwrap_or(0),
            session: self,
        }
    }

    // Row y of the map of pairs, two numbers a pixel: the part of the map that holds it, or an empty part.
    pub fn map_row(self, map: &[i16], y: u16) -> &[i16]
        ensures { result.now ≡ map_row self map.now y }
    {
        let w = self.width as usize;
        if !self.has_row(map, y) {
            return &map[..0];
        }
        let from = 2 * (usize::from(y) * w);
        &map[from..from + 2 * w]
    }
}
