// How far the nearest copper of each pixel's column is, up or down, whichever is shorter: two passes over the rows, in row order of memory.
//
// The pass down leaves the ways upwards, the pass up turns them into the shorter ones. A pass holds the ways of the row before in a local row of 2,048 numbers.
// A way is a number a pixel, and numbers that lie side by side let the compiler work on eight at once.

#![tactic(auto)]

ghost use Rattle.std.specs.Prelude.{◌≡◌, not, ℕ, ◌+◌, ◌*◌, ◌≤◌, ◌<◌, eqb, pos, negsuc, length, get_or};
ghost use Rattle.raster.specs.Sheet.{copper_of};
ghost use Rattle.columns.specs.Column.{farther, up, shorter, way_of, is_zero, EveryPixel};
ghost use Rattle.columns.specs.Passes.{Room, Spread, shortened};

use raster::MARK;

// One step farther than v, or 0 on copper; −1 stays.
fn step(copper: bool, v: i16) -> i16
    requires { Room v }
    ensures { result ≡ farther copper v }
{
    if copper {
        0
    } else if v < 0 {
        -1
    } else {
        v + 1
    }
}

// The row that starts at `base`, downwards: `near` has the ways upwards of the row above, then those of this row, which are written to `ways` too.
fn row_down(sheet: &[u8], ways: &mut [i16], near: &mut [i16; 2048], base: usize, w: usize)
    requires w_in_bounds { (w ≤ 2048) × ((base + w ≤ length sheet.now) × (base + w ≤ length ways.old)) }
    requires by_index { (x : ℕ) → x < w → Room (get_or near.old x (pos 0)) }
    ensures { Spread base w (λ x. not (eqb (get_or sheet.now (base + x) 0) 0)) (λ x v. v)
        ways.old near.old ways.new near.new }
{
    for x in 0..w {
        let v = step(sheet[base + x] != 0, near[x]);
        near[x] = v;
        ways[base + x] = v;
    }
}

// The ways upwards of all pixels. There is no copper above the first row.
fn pass_down(sheet: &[u8], ways: &mut [i16], w: usize, h: usize)
    requires { (w ≤ 2048) × ((h ≤ 2048) × ((length sheet.now ≡ h * w) × (h * w ≤ length ways.old))) }
    ensures { EveryPixel w h (up (copper_of sheet.now w)) ways.old ways.new }
{
    let mut above = [-1i16; 2048];
    for y in 0..h {
        row_down(sheet, ways, &mut above, y * w, w);
    }
}

// The shorter of two ways as a component, among equals upwards; −1 says that there is none.
pub fn shorter_of(u: i16, d: i16) -> i16
    ensures { result ≡ shorter u d }
{
    if u < 0 {
        if d < 0 { MARK } else { d }
    } else if 0 <= d && d < u {
        d
    } else {
        -u
    }
}

// The row that starts at `base`, upwards: `near` has the ways downwards of the row below, then those of this row, and `ways` goes from the ways upwards
// to the shorter ones. Copper is where the way upwards is 0.
fn row_up(ways: &mut [i16], near: &mut [i16; 2048], base: usize, w: usize)
    requires w_in_bounds { (w ≤ 2048) × (base + w ≤ length ways.old) }
    requires by_index { (x : ℕ) → x < w → Room (get_or near.old x (pos 0)) }
    ensures { Spread base w (λ x. is_zero (get_or ways.old (base + x) (pos 0)))
        (λ x v. shorter (get_or ways.old (base + x) (pos 0)) v)
        ways.old near.old ways.new near.new }
{
    for x in 0..w {
        let u = ways[base + x];
        let d = step(u == 0, near[x]);
        near[x] = d;
        ways[base + x] = shorter_of(u, d);
    }
}

// The shorter ways of all pixels, from the ways upwards. There is no copper below the last row.
fn pass_up(ways: &mut [i16], w: usize, h: usize)
    requires { (w ≤ 2048) × ((h ≤ 2048) × (h * w ≤ length ways.old)) }
    ensures { EveryPixel w h (shortened ways.old w h) ways.old ways.new }
{
    let mut below = [-1i16; 2048];
    for y in (0..h).rev() {
        row_up(ways, &mut below, y * w, w);
    }
}

// The way of every pixel to the nearest copper of its column: −32,768 where the column has none.
pub fn ways(sheet: &[u8], ways: &mut [i16], w: usize, h: usize)
    requires { (w ≤ 2048) × ((h ≤ 2048) × ((length sheet.now ≡ h * w) × (h * w ≤ length ways.old))) }
    ensures { EveryPixel w h (way_of (copper_of sheet.now w) h) ways.old ways.new }
{
    pass_down(sheet, ways, w, h);
    pass_up(ways, w, h);
}
