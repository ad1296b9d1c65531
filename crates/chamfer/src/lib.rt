// The map of chamfer distances (document 02, C-12), for any two weights, and the weights and gates of the three engines that use it (`engines`).
//
// Two scans over the rows. Scan one goes down: a pixel takes the least candidate of the three beside it in the row above, then of its left neighbour. Scan
// two goes up: of the three in the row below, then of its right neighbour. What a row takes from the row before is worked out for all its pixels first. No
// pixel waits for another there, so the compiler works on eight at once. Only the sweep along the row goes pixel by pixel, and only where it changes
// something: a test of all pixels, again eight at once, tells that first.

#![tactic(auto)]

ghost use Rattle.std.specs.Prelude.{◌≡◌, ◌+◌, ◌*◌, ◌-◌, ◌≤◌, ◌<◌, min, length, get_or};
ghost use Rattle.raster.specs.Limits.{max_side};
ghost use Rattle.raster.specs.Pixels.{Mask};
ghost use Rattle.raster.specs.Rows.{RowWritten};
ghost use Rattle.raster.specs.Sheet.{copper_of};
ghost use Rattle.chamfer.specs.Chamfer.{Weights, chamfer_map};
ghost use Rattle.chamfer.specs.Engines.{no_value_at, square_at};
ghost use Rattle.chamfer.specs.Rows.{candidate, from_three, or_copper, turn, swept, steep, Swept, Halfway, Blank};

mod engines; // the engines that write such maps

pub use engines::{Draft, factor};

// The weights of a side step and of a corner step.
#[derive(Clone, Copy, Debug, PartialEq, Eq)]
pub struct StepWeights {
    pub side: u16,
    pub corner: u16,
    ghost allowed: { Weights side corner },
}

impl StepWeights {
    pub fn new(side: u16, corner: u16) -> StepWeights
        requires { Weights side corner }
        ensures { (result.side ≡ side) × (result.corner ≡ corner) }
    {
        StepWeights { side, corner }
    }
}

// ---- candidates

// The candidate of a neighbour of value v by a step of weight s. An unlabelled neighbour gives none.
fn candidate(v: u16, s: u16) -> u16
    ensures { result ≡ candidate v s }
{
    v.saturating_add(s)
}

// The least candidate of the three pixels beside pixel x in the row before.
fn from_three(row: &[u16; 2050], x: usize, weights: StepWeights) -> u16
    requires { x < max_side }
    ensures { result ≡ from_three weights.side weights.corner row.now x }
{
    let corner = row[x].min(row[2 + x]);
    candidate(row[1 + x], weights.side).min(candidate(corner, weights.corner))
}

// 0 on copper, otherwise v.
fn or_copper(byte: u8, v: u16) -> u16
    ensures { result ≡ or_copper byte v }
{
    if byte == 0 { v } else { 0 }
}

// ---- one row, which starts at `base`

// Scan one: the pixels of the row from the row above and from copper, whatever the slice held.
fn from_above(
    sheet: &[u8],
    values: &mut [u16],
    row: &[u16; 2050],
    base: usize,
    w: usize,
    weights: StepWeights,
)
    requires { (w ≤ max_side) × ((base + w ≤ length sheet.now) × (base + w ≤ length values.old)) }
    ensures { RowWritten base w
        (λ x. or_copper (get_or sheet.now (base + x) 0) (from_three weights.side weights.corner row.now x))
        values.old values.new }
{
    for x in 0..w {
        values[base + x] = or_copper(sheet[base + x], from_three(row, x, weights));
    }
}

// Scan two: the pixels of the row from the row below and from what they have.
fn from_below(values: &mut [u16], row: &[u16; 2050], base: usize, w: usize, weights: StepWeights)
    requires { (w ≤ max_side) × (base + w ≤ length values.old) }
    ensures { RowWritten base w
        (λ x. min (get_or values.old (base + x) 0) (from_three weights.side weights.corner row.now x))
        values.old values.new }
{
    for x in 0..w {
        values[base + x] = values[base + x].min(from_three(row, x, weights));
    }
}

// Some pixel of a row of w is above what its neighbour gives it. The pixels that take start at `to`, and their neighbours at `from`, side by side: there is
// one less of either than the row has.
#[tactic(auto, using(raster::specs::LoopLaws::any_next), unfolding(raster::specs::Loop::any_below, crate::specs::Rows::steep))]
fn is_steep(values: &[u16], from: usize, to: usize, w: usize, side: u16) -> bool
    requires { (from + w ≤ length values.now + 1) × (to + w ≤ length values.now + 1) }
    ensures { result ≡ steep side (λ x. get_or values.now (from + x) 0) (λ x. get_or values.now (to + x) 0) w }
{
    let mut steep = false;
    for x in 0..w.saturating_sub(1) {
        steep |= candidate(values[from + x], side) < values[to + x];
    }
    steep
}

// The row goes to the working row as it is.
fn keep_row(values: &[u16], row: &mut [u16; 2050], base: usize, w: usize)
    requires { (w ≤ max_side) × (base + w ≤ length values.now) }
    ensures { RowWritten 1 w (λ x. get_or values.now (base + x) 0) row.old row.new }
{
    row[1..1 + w].copy_from_slice(&values[base..base + w]);
}

// The place of the t-th pixel of a sweep over a row of w.
fn turn<const RIGHT: bool>(w: usize, t: usize) -> usize
    requires { t < w }
    ensures { result ≡ turn RIGHT w t }
{
    if RIGHT { t } else { w - 1 - t }
}

// To the right each pixel from its left neighbour, to the left each from its right one, one after another; the row goes to the working row too.
fn carry<const RIGHT: bool>(
    values: &mut [u16],
    row: &mut [u16; 2050],
    base: usize,
    w: usize,
    side: u16,
)
    requires { (w ≤ max_side) × (base + w ≤ length values.old) }
    ensures { Swept base w (swept RIGHT side base w values.old) values.old row.old values.new row.new }
{
    let mut last: usize = 65535;
    for t in 0..w {
        let x = turn::<RIGHT>(w, t);
        last = usize::from(values[base + x]).min(last + usize::from(side));
        values[base + x] = last as u16;
        row[1 + x] = last as u16;
    }
}

// The sweep. It changes nothing in a row that is not steep.
fn sweep<const RIGHT: bool>(
    values: &mut [u16],
    row: &mut [u16; 2050],
    base: usize,
    w: usize,
    side: u16,
)
    requires { (w ≤ max_side) × (base + w ≤ length values.old) }
    ensures { Swept base w (swept RIGHT side base w values.old) values.old row.old values.new row.new }
{
    let steep = if RIGHT {
        is_steep(values, base, base + 1, w, side)
    } else {
        is_steep(values, base + 1, base, w, side)
    };
    if steep {
        carry::<RIGHT>(values, row, base, w, side);
    } else {
        keep_row(values, row, base, w);
    }
}

// ---- the scans: the working row has the row before, and nothing at first

// Scan one, rows top to bottom.
fn scan_down(
    sheet: &[u8],
    values: &mut [u16],
    row: &mut [u16; 2050],
    w: usize,
    h: usize,
    weights: StepWeights,
)
    requires blank { (w ≤ max_side) × Blank w row.old }
    requires sheet_len { (length sheet.now ≡ h * w) × (length values.old ≡ h * w) }
    ensures { Halfway weights.side weights.corner (copper_of sheet.now w) w h values.new }
{
    for y in 0..h {
        from_above(sheet, values, row, y * w, w, weights);
        sweep::<true>(values, row, y * w, w, weights.side);
    }
}

// Scan two, rows bottom to top: of a map that scan one left, of whatever sheet.
fn scan_up(values: &mut [u16], row: &mut [u16; 2050], w: usize, h: usize, weights: StepWeights)
    requires blank { (w ≤ max_side) × Blank w row.old }
    requires values_len { length values.old ≡ h * w }
    ensures { (copper : Mask) → Halfway weights.side weights.corner copper w h values.old
        → values.new ≡ chamfer_map weights.side weights.corner copper w h }
{
    for y in (0..h).rev() {
        from_below(values, row, y * w, w, weights);
        sweep::<false>(values, row, y * w, w, weights.side);
    }
}

// The map of a sheet of w × h pixels, for any weights.
pub fn chamfer(sheet: &[u8], values: &mut [u16], w: usize, h: usize, weights: StepWeights)
    requires w_bound { w ≤ max_side }
    requires sheet_len { (length sheet.now ≡ h * w) × (length values.old ≡ h * w) }
    ensures { values.new ≡ chamfer_map weights.side weights.corner (copper_of sheet.now w) w h }
{
    let mut above = [65535u16; 2050];
    scan_down(sheet, values, &mut above, w, h, weights);
    let mut below = [65535u16; 2050];
    scan_up(values, &mut below, w, h, weights);
}

// ---- a pixel of such a map

// Whether pixel p is unlabelled.
pub fn no_value_at(values: &[u16], p: usize) -> bool
    requires { p < length values.now }
    ensures { result ≡ no_value_at values.now p }
{
    values[p] == 65535
}

// The size at pixel p, the square of its value.
pub fn square_at(values: &[u16], p: usize) -> u32
    requires { p < length values.now }
    ensures { result ≡ square_at values.now p }
{
    let c = u32::from(values[p]);
    c * c
}
