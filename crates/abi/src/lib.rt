// The calls of the session, of `storage` and of `join`, exported for Rust: the comparison, the benchmark and the pictures of jobs. They ask nothing of
// their caller.

#![tactic(auto)]

ghost use Rattle.std.specs.Prelude.{◌≡◌, cond, ◌&&◌, eqb, take, drop};
ghost use Rattle.raster.specs.Map.{unmapped};
ghost use Rattle.raster.specs.Refusal.{first_of, on_done};
ghost use Rattle.raster.specs.Sheet.{bare, copper_of};
ghost use Rattle.morphology.specs.Resize.{expanded, shrunk};
ghost use Rattle.rebuild.specs.Rebuild.{rebuilt};
ghost use Rattle.skeleton.specs.Skeleton.{skeleton_of};
ghost use Rattle.chamfer.specs.Chamfer.{chamfer_map};
ghost use Rattle.storage.specs.Stored.{stored, read_back, store_table, read_back_table};
ghost use Rattle.join.specs.Joined.{joined, join_table};
ghost use Rattle.cutter.specs.Kinds.{maps};
ghost use Rattle.session.specs.State.{fresh, opened_as, stale, built_by};
ghost use Rattle.session.specs.Maps.{pairs_built, values_built};
ghost use Rattle.session.specs.Refusals.{
  open_table,
  fill_table,
  build_table,
  place_table,
  run_table,
  resize_table,
  skeleton_table,
  rebuild_table,
  probe_table,
};
ghost use Rattle.session.specs.Calls.{
  filled_by,
  scratch_by,
  place_session,
  run_session,
  lift_session,
  distances_by,
  rows_by,
  map_row,
};
ghost use Rattle.abi.specs.Span.{row_span};
ghost use Rattle.abi.specs.Weighted.{can_map};

use session::{Probed, Reply, Session};

#[unsafe(no_mangle)]
pub extern "C" fn abi_session_fresh() -> Session
    ensures { result ≡ fresh }
{
    Session::fresh()
}

#[unsafe(no_mangle)]
pub extern "C" fn abi_session_open(s: Session, sheet: &mut [u8], w: u16, h: u16) -> Reply
    ensures answered { result.answer ≡ first_of (open_table sheet.old w h) }
    ensures handed_back { result.session ≡ on_done result.answer (opened_as w h) s }
    ensures sheet_left { sheet.new ≡ on_done result.answer (bare sheet.old) sheet.old }
{
    s.open_sheet(sheet, w, h)
}

#[unsafe(no_mangle)]
pub extern "C" fn abi_session_paint(
    s: Session,
    sheet: &mut [u8],
    x: u16,
    y: u16,
    cols: u16,
    rows: u16,
) -> Reply
    ensures answered { result.answer ≡ first_of (fill_table s sheet.old x y cols rows) }
    ensures handed_back { result.session ≡ on_done result.answer (stale s) s }
    ensures sheet_left { sheet.new ≡ on_done result.answer (filled_by s x y cols rows 1 sheet.old) sheet.old }
{
    s.paint(sheet, x, y, cols, rows)
}

#[unsafe(no_mangle)]
pub extern "C" fn abi_session_erase(
    s: Session,
    sheet: &mut [u8],
    x: u16,
    y: u16,
    cols: u16,
    rows: u16,
) -> Reply
    ensures answered { result.answer ≡ first_of (fill_table s sheet.old x y cols rows) }
    ensures handed_back { result.session ≡ on_done result.answer (stale s) s }
    ensures sheet_left { sheet.new ≡ on_done result.answer (filled_by s x y cols rows 0 sheet.old) sheet.old }
{
    s.erase(sheet, x, y, cols, rows)
}

#[unsafe(no_mangle)]
pub extern "C" fn abi_session_build(
    s: Session,
    sheet: &[u8],
    map: &mut [i16],
    values: &mut [u16],
    scratch: &mut [i16],
    engine: u16,
) -> Reply
    ensures answered { result.answer
        ≡ first_of (build_table s sheet.now (maps map.old values.old) scratch.old engine) }
    ensures handed_back { result.session ≡ on_done result.answer (built_by engine s) s }
    ensures map_left { map.new ≡ on_done result.answer (pairs_built s sheet.now engine map.old) map.old }
    ensures values_left { values.new
        ≡ on_done result.answer (values_built s sheet.now engine values.old) values.old }
    ensures scratch_left { scratch.new
        ≡ cond (eqb result.answer 0 && eqb engine 1) (scratch_by s scratch.old) scratch.old }
{
    s.build(sheet, map, values, scratch, engine)
}

#[unsafe(no_mangle)]
pub extern "C" fn abi_session_place(
    s: Session,
    map: &[i16],
    values: &[u16],
    x: u16,
    y: u16,
    q: u32,
) -> Reply
    ensures answered { result.answer ≡ first_of (place_table s (maps map.now values.now) x y q) }
    ensures handed_back { result.session ≡ on_done result.answer (place_session s (maps map.now values.now) x y q) s }
{
    s.place(map, values, x, y, q)
}

#[unsafe(no_mangle)]
pub extern "C" fn abi_session_run(
    s: Session,
    map: &[i16],
    values: &[u16],
    direction: u16,
    count: u16,
) -> Reply
    ensures answered { result.answer ≡ first_of (run_table s (maps map.now values.now) direction count) }
    ensures handed_back { result.session ≡ on_done result.answer (run_session s (maps map.now values.now) direction count) s }
{
    s.run(map, values, direction, count)
}

#[unsafe(no_mangle)]
pub extern "C" fn abi_session_lift(s: Session) -> Reply
    ensures answered { result.answer ≡ 0 }
    ensures handed_back { result.session ≡ lift_session s }
{
    s.lift()
}

#[unsafe(no_mangle)]
pub extern "C" fn abi_session_expand(
    s: Session,
    sheet: &mut [u8],
    map: &mut [i16],
    scratch: &mut [i16],
    q: u32,
) -> Reply
    ensures answered { result.answer ≡ first_of (resize_table s sheet.old map.old scratch.old q) }
    ensures handed_back { result.session ≡ on_done result.answer (stale s) s }
    ensures sheet_left { sheet.new ≡ on_done result.answer (expanded s.width s.height q sheet.old) sheet.old }
    ensures map_left { map.new ≡ on_done result.answer (unmapped map.old) map.old }
    ensures scratch_left { scratch.new ≡ on_done result.answer (scratch_by s scratch.old) scratch.old }
{
    s.expand(sheet, map, scratch, q)
}

#[unsafe(no_mangle)]
pub extern "C" fn abi_session_shrink(
    s: Session,
    sheet: &mut [u8],
    map: &mut [i16],
    scratch: &mut [i16],
    q: u32,
) -> Reply
    ensures answered { result.answer ≡ first_of (resize_table s sheet.old map.old scratch.old q) }
    ensures handed_back { result.session ≡ on_done result.answer (stale s) s }
    ensures sheet_left { sheet.new ≡ on_done result.answer (shrunk s.width s.height q sheet.old) sheet.old }
    ensures map_left { map.new ≡ on_done result.answer (unmapped map.old) map.old }
    ensures scratch_left { scratch.new ≡ on_done result.answer (scratch_by s scratch.old) scratch.old }
{
    s.shrink(sheet, map, scratch, q)
}

#[unsafe(no_mangle)]
pub extern "C" fn abi_session_skeleton(s: Session, map: &[i16], out: &mut [u8]) -> Reply
    ensures answered { result.answer ≡ first_of (skeleton_table s map.now out.old) }
    ensures handed_back { result.session ≡ s }
    ensures out_left { out.new ≡ on_done result.answer (skeleton_of map.now s.width s.height) out.old }
{
    s.skeleton(map, out)
}

#[unsafe(no_mangle)]
pub extern "C" fn abi_session_rebuild(
    s: Session,
    map: &[i16],
    marks: &[u8],
    out: &mut [u8],
) -> Reply
    ensures answered { result.answer ≡ first_of (rebuild_table s map.now marks.now out.old) }
    ensures handed_back { result.session ≡ s }
    ensures out_left { out.new
        ≡ on_done result.answer (rebuilt map.now s.width s.height marks.now) out.old }
{
    s.rebuild(map, marks, out)
}

#[unsafe(no_mangle)]
pub extern "C" fn abi_session_probe(
    s: Session,
    sheet: &[u8],
    points: &[u16],
    scratch: &mut [i16],
    out: &mut [u32],
) -> Probed
    ensures answered { result.answer ≡ first_of (probe_table s sheet.now points.now scratch.old out.old) }
    ensures counted { result.rows ≡ on_done result.answer (rows_by s points.now out.old) 0 }
    ensures handed_back { result.session ≡ s }
    ensures out_left { out.new
        ≡ on_done result.answer (distances_by s sheet.now points.now out.old) out.old }
    ensures scratch_left { scratch.new ≡ on_done result.answer (scratch_by s scratch.old) scratch.old }
{
    s.probe(sheet, points, scratch, out)
}

// Where a part of a slice stands.
#[repr(C)]
#[derive(Clone, Copy)]
pub struct Span {
    pub from: usize,
    pub len: usize,
}

// The bounds of the part that map row y hands out; an empty part is from 0.
#[unsafe(no_mangle)]
pub extern "C" fn abi_session_row(s: Session, map: &[i16], y: u16) -> Span
    ensures spanned { result ≡ row_span s map.now y }
    ensures row_there { take result.len (drop result.from map.now) ≡ map_row s map.now y }
{
    let len = s.map_row(map, y).len();
    if len == 0 {
        return Span { from: 0, len: 0 };
    }
    Span {
        from: len * (y as usize),
        len,
    }
}

// A map of 16-bit pairs into signed bytes, and back.
#[unsafe(no_mangle)]
pub extern "C" fn abi_store(w: u16, h: u16, map: &[i16], bytes: &mut [i8]) -> u32
    ensures answered { result ≡ first_of (store_table w h map.now bytes.old) }
    ensures bytes_left { bytes.new ≡ on_done result (stored map.now) bytes.old }
{
    raster::answer(&storage::store(w, h, map, bytes))
}

#[unsafe(no_mangle)]
pub extern "C" fn abi_read_back(w: u16, h: u16, bytes: &[i8], map: &mut [i16]) -> u32
    ensures answered { result ≡ first_of (read_back_table w h bytes.now map.old) }
    ensures map_left { map.new ≡ on_done result (read_back bytes.now) map.old }
{
    raster::answer(&storage::read_back(w, h, bytes, map))
}

// Two maps into a third.
#[unsafe(no_mangle)]
pub extern "C" fn abi_join(w: u16, h: u16, first: &[i16], second: &[i16], target: &mut [i16]) -> u32
    ensures answered { result ≡ first_of (join_table w h first.now second.now target.old) }
    ensures target_left { target.new ≡ on_done result (joined first.now second.now) target.old }
{
    raster::answer(&join::join(w, h, first, second, target))
}

// The map of chamfer distances for any two weights, for the comparison: written, and true, if the weights are allowed, the sides within their limits and both
// slices of one entry a pixel. Otherwise nothing is written.
#[unsafe(no_mangle)]
pub extern "C" fn abi_chamfer_map(
    sheet: &[u8],
    values: &mut [u16],
    w: u16,
    h: u16,
    a: u16,
    b: u16,
) -> bool
    ensures allowed { result ≡ can_map sheet.now values.old w h a b }
    ensures values_left { values.new
        ≡ cond result (chamfer_map a b (copper_of sheet.now w) w h) values.old }
{
    let fine = can_map(sheet, values, w, h, a, b);
    if fine {
        let weights = chamfer::StepWeights::new(a, b);
        chamfer::chamfer(sheet, values, usize::from(w), usize::from(h), weights);
    }
    fine
}

fn can_map(sheet: &[u8], values: &[u16], w: u16, h: u16, a: u16, b: u16) -> bool
    ensures { result ≡ can_map sheet.now values.now w h a b }
{
    let n = raster::area(w, h);
    let weights = (a <= b) & ((usize::from(b) <= 2 * usize::from(a)) & (b <= 32));
    let sides = raster::is_side(w) & raster::is_side(h);
    weights & (sides & ((sheet.len() == n) & (values.len() == n)))
}
