// What a call does, by a result: the session that it leaves, or why it is refused. On `Err` what is lent stays as it came.
ghost use Rattle.std.specs.Prelude.{◌≡◌, cond, ◌&&◌, eqb, IfOk};
ghost use Rattle.raster.specs.Map.{unmapped};
ghost use Rattle.raster.specs.Refusal.{first_of, on_done, answer_of};
ghost use Rattle.raster.specs.Sheet.{bare};
ghost use Rattle.morphology.specs.Resize.{expanded, shrunk};
ghost use Rattle.rebuild.specs.Rebuild.{rebuilt};
ghost use Rattle.skeleton.specs.Skeleton.{skeleton_of};
ghost use Rattle.cutter.specs.Kinds.{maps};
ghost use Rattle.cutter.specs.Lent.{held_by};
ghost use Rattle.cutter.specs.Numbers.{engine_number};
ghost use Rattle.session.specs.State.{opened_as, stale, built_by};
ghost use Rattle.session.specs.Maps.{pairs_built, values_built};
ghost use Rattle.session.specs.Refusals.{
  open_table,
  fill_table,
  resize_table,
  skeleton_table,
  rebuild_table,
  probe_table,
  build_table,
  place_table,
  run_table,
};
ghost use Rattle.session.specs.Calls.{
  filled_by,
  scratch_by,
  place_session,
  run_session,
  distances_by,
  rows_by,
  has_row,
};

use crate::{Session, refusals};
use cutter::{Engine, LentMaps};
use raster::Refusal;

impl Session {
    pub(crate) fn try_open(sheet: &mut [u8], w: u16, h: u16) -> Result<Session, Refusal>
        ensures answered { answer_of result ≡ first_of (open_table sheet.old w h) }
        ensures opened { IfOk result (λ s. s ≡ opened_as w h) }
        ensures sheet_left { sheet.new ≡ on_done (answer_of result) (bare sheet.old) sheet.old }
    {
        refusals::check_open(sheet, w, h)?;
        raster::clear_sheet(sheet);
        Ok(Session::opened_as(w, h))
    }

    // Writes v in the rectangle. It is inlined, so that paint and erase have one frame each.
    #[inline(always)]
    pub(crate) fn try_fill(
        self,
        sheet: &mut [u8],
        x: u16,
        y: u16,
        cols: u16,
        rows: u16,
        v: u8,
    ) -> Result<Session, Refusal>
        ensures answered { answer_of result ≡ first_of (fill_table self sheet.old x y cols rows) }
        ensures changed { IfOk result (λ s. s ≡ stale self) }
        ensures sheet_left { sheet.new
            ≡ on_done (answer_of result) (filled_by self x y cols rows v sheet.old) sheet.old }
    {
        self.check_fill(sheet, x, y, cols, rows)?;
        raster::fill_rectangle(
            sheet,
            self.width as usize,
            self.height as usize,
            x as usize,
            y as usize,
            cols as usize,
            rows as usize,
            v,
        );
        Ok(self.stale())
    }

    pub(crate) fn try_build(
        self,
        sheet: &[u8],
        map: &mut [i16],
        values: &mut [u16],
        scratch: &mut [i16],
        number: u16,
    ) -> Result<Session, Refusal>
        ensures answered { answer_of result
            ≡ first_of (build_table self sheet.now (maps map.old values.old) scratch.old number) }
        ensures built { IfOk result (λ s. s ≡ built_by number self) }
        ensures map_left { map.new ≡ on_done (answer_of result) (pairs_built self sheet.now number map.old) map.old }
        ensures values_left { values.new
            ≡ on_done (answer_of result) (values_built self sheet.now number values.old) values.old }
        ensures scratch_left { scratch.new
            ≡ cond (eqb (answer_of result) 0 && eqb number 1) (scratch_by self scratch.old) scratch.old }
    {
        let engine = self.check_build(sheet, LentMaps { pairs: map, values }, scratch, number)?;
        self.write_map(sheet, map, values, scratch, engine);
        Ok(self.built_by(engine))
    }

    // Writes the engine's map. A scan that is called from two places is not compiled into this function, whose frame would then hold the scan's working row
    // while exact runs.
    #[tactic(auto, using(cutter::proofs::Lengths::draft_values, cutter::proofs::Lengths::draft_inexact))]
    fn write_map(
        self,
        sheet: &[u8],
        map: &mut [i16],
        values: &mut [u16],
        scratch: &mut [i16],
        engine: Engine,
    )
        requires { first_of (build_table self sheet.now (maps map.old values.old) scratch.old (engine_number engine)) ≡ 0 }
        ensures map_left { map.new ≡ pairs_built self sheet.now (engine_number engine) map.old }
        ensures values_left { values.new ≡ values_built self sheet.now (engine_number engine) values.old }
        ensures scratch_left { scratch.new
            ≡ cond (eqb (engine_number engine) 1) (scratch_by self scratch.old) scratch.old }
    {
        let w = self.width as usize;
        let h = self.height as usize;
        match engine {
            Engine::Exact => exact::exact(sheet, map, scratch, w, h),
            Engine::EightSed => scan::scan(sheet, map, w, h, true),
            Engine::FourSed => scan::scan(sheet, map, w, h, false),
            Engine::Draft(draft) => chamfer::chamfer(sheet, values, w, h, draft.weights()),
        }
    }

    pub(crate) fn try_place(
        self,
        maps: LentMaps,
        x: u16,
        y: u16,
        q: u32,
    ) -> Result<Session, Refusal>
        ensures answered { answer_of result ≡ first_of (place_table self (held_by maps.entry) x y q) }
        ensures placed { IfOk result (λ s. s ≡ place_session self (held_by maps.entry) x y q) }
    {
        let closest = self.check_place(maps, x, y, q)?;
        Ok(self.down_at(x, y, q, closest))
    }

    pub(crate) fn try_run(
        self,
        maps: LentMaps,
        direction: u16,
        count: u16,
    ) -> Result<Session, Refusal>
        ensures answered { answer_of result ≡ first_of (run_table self (held_by maps.entry) direction count) }
        ensures moved { IfOk result (λ s. s ≡ run_session self (held_by maps.entry) direction count) }
    {
        let (way, closest) = self.check_run(maps, direction, count)?;
        let end = self.own_cutter().after(way, count);
        Ok(self.down_at(end.x, end.y, end.q, closest))
    }

    pub(crate) fn try_expand(
        self,
        sheet: &mut [u8],
        map: &mut [i16],
        scratch: &mut [i16],
        q: u32,
    ) -> Result<Session, Refusal>
        ensures answered { answer_of result ≡ first_of (resize_table self sheet.old map.old scratch.old q) }
        ensures changed { IfOk result (λ s. s ≡ stale self) }
        ensures sheet_left { sheet.new
            ≡ on_done (answer_of result) (expanded self.width self.height q sheet.old) sheet.old }
        ensures map_left { map.new ≡ on_done (answer_of result) (unmapped map.old) map.old }
        ensures scratch_left { scratch.new ≡ on_done (answer_of result) (scratch_by self scratch.old) scratch.old }
    {
        self.check_resize(sheet, map, scratch, q)?;
        morphology::expand(
            sheet,
            map,
            scratch,
            self.width as usize,
            self.height as usize,
            q,
        );
        Ok(self.stale())
    }

    pub(crate) fn try_shrink(
        self,
        sheet: &mut [u8],
        map: &mut [i16],
        scratch: &mut [i16],
        q: u32,
    ) -> Result<Session, Refusal>
        ensures answered { answer_of result ≡ first_of (resize_table self sheet.old map.old scratch.old q) }
        ensures changed { IfOk result (λ s. s ≡ stale self) }
        ensures sheet_left { sheet.new
            ≡ on_done (answer_of result) (shrunk self.width self.height q sheet.old) sheet.old }
        ensures map_left { map.new ≡ on_done (answer_of result) (unmapped map.old) map.old }
        ensures scratch_left { scratch.new ≡ on_done (answer_of result) (scratch_by self scratch.old) scratch.old }
    {
        self.check_resize(sheet, map, scratch, q)?;
        morphology::shrink(
            sheet,
            map,
            scratch,
            self.width as usize,
            self.height as usize,
            q,
        );
        Ok(self.stale())
    }

    pub(crate) fn try_skeleton(self, map: &[i16], out: &mut [u8]) -> Result<Session, Refusal>
        ensures answered { answer_of result ≡ first_of (skeleton_table self map.now out.old) }
        ensures same { IfOk result (λ s. s ≡ self) }
        ensures out_left { out.new
            ≡ on_done (answer_of result) (skeleton_of map.now self.width self.height) out.old }
    {
        self.check_read(map, out.len() != self.pixels())?;
        skeleton::skeleton(map, out, self.width as usize, self.height as usize);
        Ok(self)
    }

    pub(crate) fn try_rebuild(
        self,
        map: &[i16],
        marks: &[u8],
        out: &mut [u8],
    ) -> Result<Session, Refusal>
        ensures answered { answer_of result ≡ first_of (rebuild_table self map.now marks.now out.old) }
        ensures same { IfOk result (λ s. s ≡ self) }
        ensures out_left { out.new
            ≡ on_done (answer_of result) (rebuilt map.now self.width self.height marks.now) out.old }
    {
        let n = self.pixels();
        self.check_read(map, (marks.len() != n) | (out.len() != n))?;
        rebuild::rebuild(map, marks, out, self.width as usize, self.height as usize);
        Ok(self)
    }

    // The number of different rows among the points.
    pub(crate) fn try_probe(
        self,
        sheet: &[u8],
        points: &[u16],
        scratch: &mut [i16],
        out: &mut [u32],
    ) -> Result<u32, Refusal>
        ensures answered { answer_of result
            ≡ first_of (probe_table self sheet.now points.now scratch.old out.old) }
        ensures counted { IfOk result (λ rows. rows ≡ rows_by self points.now out.old) }
        ensures out_left { out.new
            ≡ on_done (answer_of result) (distances_by self sheet.now points.now out.old) out.old }
        ensures scratch_left { scratch.new ≡ on_done (answer_of result) (scratch_by self scratch.old) scratch.old }
    {
        self.check_probe(sheet, points, scratch, out)?;
        let w = self.width as usize;
        let h = self.height as usize;
        Ok(probe::probe(sheet, points, scratch, out, w, h))
    }

    // The map has a row y.
    pub(crate) fn has_row(self, map: &[i16], y: u16) -> bool
        ensures { result ≡ has_row self map.now y }
    {
        self.is_active() & ((y < self.height) & self.is_map(map))
    }
}
