// The exact map (document 01, "Engines"), in time linear in the pixels and in row order of memory.
//
// `columns::ways` leaves in the first half of the map, a number a pixel, how far the nearest copper of each pixel's column is. Then each row is worked out
// by itself: a column costs the square of its way, and the lower envelope of the columns' parabolas gives the nearest column of each pixel. Long runs of
// copper split a row into parts with an envelope each. The rows are worked out from the last to the first, since the vectors of row y stand behind the
// ways of the rows above it. The ways of the row at hand stand in scratch; the other working rows are local ones of 2,048 numbers.

#![tactic(auto)]

ghost use Rattle.std.specs.Prelude.{◌≡◌, ◌&&◌, ◌++◌, ℕ, ◌+◌, ◌-◌, ◌*◌, ◌≤◌, ◌<◌, pos, ◌-ℤ◌, length, get_or, drop};
ghost use Rattle.raster.specs.Pixels.{tabulate};
ghost use Rattle.raster.specs.Sheet.{copper_of};
ghost use Rattle.raster.specs.Vector.{Short};
ghost use Rattle.envelope.specs.Best.{no_site, best_site, Line};
ghost use Rattle.envelope.specs.Stack.{holder};
ghost use Rattle.columns.specs.Column.{is_zero};
ghost use Rattle.exact.specs.Nearest.{exact_map, scratch_need, cleared, scratch_left};
ghost use Rattle.exact.specs.Rows.{way_cost, way_at, row_costs, costs_of, Written, copper_from, CopperRun, CopperEnd, Next, Solved};

use envelope::WorkingRows;

// ---- one row

// What a column with that way costs.
fn cost_of(v: i16) -> u32
    ensures { result ≡ way_cost v }
{
    if v == raster::MARK {
        return u32::MAX;
    }
    let m = raster::magnitude(i32::from(v));
    m * m
}

// Copies the ways of the row that starts at `base`.
fn copy_row(map: &[i16], base: usize, w: usize, ways: &mut [i16])
    requires { (base + w ≤ length map.now) × (w ≤ length ways.old) }
    ensures { ways.new ≡ tabulate w (way_at map.now base) ++ drop w ways.old }
{
    for k in 0..w {
        ways[k] = map[base + k];
    }
}

// The costs of the first n columns.
fn price_row(ways: &[i16], n: usize, cost: &mut [u32])
    requires { (n ≤ length ways.now) × (n ≤ length cost.old) }
    ensures { cost.new ≡ costs_of ways.now n ++ drop n cost.old }
{
    for k in 0..n {
        cost[k] = cost_of(ways[k]);
    }
}

// From column x to column s.
fn column_way(s: usize, x: usize) -> i32
    requires { (s < 2048) × (x < 2048) }
    ensures { (result ≡ pos s -ℤ pos x) × Short result }
{
    (s as i32) - (x as i32)
}

// The pixels from `from` to `to` − 1 of the row go to column s, whose way is v.
fn write_run(map: &mut [i16], base: usize, from: usize, to: usize, s: usize, v: i32)
    requires { (2 * (base + to) ≤ length map.old) × ((from ≤ to) × ((to ≤ 2048) × ((s < 2048) × Short v))) }
    ensures { Written base from to (λ b. v) (λ x. s) map.old map.new }
{
    for x in from..to {
        raster::put_at(map, base + x, column_way(s, x), v);
    }
}

// Each pixel of the row goes to the column that holds it on the stack: runs, from the last entry to the first. The pixels that none holds are unlabelled.
fn write_row(
    map: &mut [i16],
    base: usize,
    n: usize,
    ways: &[i16],
    site: &[u16],
    start: &[u16],
    count: usize,
)
    requires n_in_bounds { (2 * (base + n) ≤ length map.old) × ((n ≤ 2048) × (n ≤ length ways.now)) }
    requires count_in_bounds { (count ≤ length site.now) × (count ≤ length start.now) }
    requires by_index { (j : ℕ) → j < count → get_or site.now j 0 < n }
    ensures { Written base 0 n (λ b. get_or ways.now b (pos 0))
        (holder site.now start.now count) map.old map.new }
{
    let mut to = n;
    for c in (0..count).rev() {
        let from = usize::from(start[c]);
        if from < to {
            let s = usize::from(site[c]);
            write_run(map, base, from, to, s, i32::from(ways[s]));
            to = from;
        }
    }
    map[2 * base..2 * (base + to)].fill(raster::MARK);
}

// Whether the eight columns from x on are copper. No jump out of the loop, so that they are looked at all at once.
fn is_copper(ways: &[i16], x: usize) -> bool
    requires { x + 8 ≤ length ways.now }
    ensures { result ≡ copper_from ways.now x 8 }
{
    let mut copper = true;
    for v in &ways[x..x + 8] {
        copper &= *v == 0;
    }
    copper
}

// Where a run of at least eight copper pixels starts or goes on, which splits the row. Looked for at every 32nd place only; w if none is found.
fn copper_run(ways: &[i16], from: usize, w: usize) -> usize
    requires { (from ≤ w) × ((w ≤ 2048) × (w ≤ length ways.now)) }
    ensures { CopperRun ways.now from w result }
{
    for x in (from..w).step_by(32) {
        if x + 8 <= w && is_copper(ways, x) {
            return x;
        }
    }
    w
}

// How far the run goes on from `from`, in steps of eight.
fn copper_end(ways: &[i16], from: usize, w: usize) -> usize
    requires { (from ≤ w) × ((w ≤ 2048) × (w ≤ length ways.now)) }
    ensures { CopperEnd ways.now from w result }
{
    for x in (from..w).step_by(8) {
        if x + 8 > w || !is_copper(ways, x) {
            return x;
        }
    }
    w
}

// The n pixels from `base` on, as a row of their own: each goes to the best of their columns.
fn solve_part(
    map: &mut [i16],
    base: usize,
    n: usize,
    ways: &[i16],
    cost: &mut [u32],
    site: &mut [u16],
    start: &mut [u16],
)
    requires n_in_bounds { (2 * (base + n) ≤ length map.old) × (n ≤ length ways.now) }
    requires line { Line cost.old n site.old start.old }
    ensures { Written base 0 n (λ b. get_or ways.now b (pos 0))
        (best_site (costs_of ways.now n) n) map.old map.new }
{
    price_row(ways, n, cost);
    let count = envelope::build(cost, n, site, start);
    write_row(map, base, n, ways, site, start, count);
}

// The next part of the row, of which `done` pixels are written, and the long run of copper behind it. The part starts with the last pixel that is written, and
// ends with the first of that run; copper goes to itself. The result is how many pixels are written then.
fn solve_next(
    map: &mut [i16],
    base: usize,
    w: usize,
    done: usize,
    ways: &[i16],
    cost: &mut [u32],
    site: &mut [u16],
    start: &mut [u16],
) -> usize
    requires w_in_bounds { (2 * (base + w) ≤ length map.old) × (w ≤ length ways.now) }
    requires line { Line cost.old w site.old start.old }
    requires done_lt_w { (done < w) × (0 < done - 1 → get_or ways.now (done - 1) (pos 0) ≡ pos 0) }
    ensures { Next base w (done - 1) done ways.now map.old result map.new }
{
    let lo = done.saturating_sub(1);
    let x = copper_run(ways, done, w);
    let hi = (x + 1).min(w);
    solve_part(map, base + lo, hi - lo, &ways[lo..hi], cost, site, start);
    let e = copper_end(ways, x, w);
    map[2 * (base + x)..2 * (base + e)].fill(0);
    e
}

// The row by its parts, from the first to the last. A part starts with the last copper of the run before it, and ends with the first of the next: beyond
// these no column is better.
pub fn solve_parts(
    map: &mut [i16],
    base: usize,
    w: usize,
    ways: &[i16],
    cost: &mut [u32],
    site: &mut [u16],
    start: &mut [u16],
)
    requires w_in_bounds { (2 * (base + w) ≤ length map.old) × (w ≤ length ways.now) }
    requires line { Line cost.old w site.old start.old }
    ensures { Written base 0 w (λ b. get_or ways.now b (pos 0))
        (best_site (costs_of ways.now w) w) map.old map.new }
{
    let mut done = 0;
    while done < w {
        done = solve_next(map, base, w, done, ways, cost, site, start);
    }
}

// The row that starts at `base`: each pixel goes to its best column.
fn solve_row(map: &mut [i16], base: usize, w: usize, ways: &mut [i16], rows: &mut WorkingRows)
    requires { (2 * (base + w) ≤ length map.old) × ((w ≤ 2048) × (w ≤ length ways.old)) }
    ensures { Written base 0 w (way_at map.old base) (best_site (row_costs map.old base w) w) map.old map.new }
{
    copy_row(map, base, w, ways);
    solve_parts(
        map,
        base,
        w,
        ways,
        &mut rows.cost,
        &mut rows.site,
        &mut rows.start,
    );
}

// All rows, from the last. The working row `ways` is lent, the others are local.
fn solve(map: &mut [i16], w: usize, h: usize, ways: &mut [i16])
    requires { (2 * (h * w) ≤ length map.old) × ((w ≤ 2048) × (w ≤ length ways.old)) }
    ensures { Solved w h map.old map.new }
{
    let mut rows = WorkingRows::new();
    for y in (0..h).rev() {
        solve_row(map, y * w, w, ways, &mut rows);
    }
}

// ---- the map

// Sets the first n numbers to 0.
pub fn zero(scratch: &mut [i16], n: usize)
    requires { n ≤ length scratch.old }
    ensures { scratch.new ≡ cleared n scratch.old }
{
    scratch[..n].fill(0);
}

// How many scratch numbers `exact` needs.
pub fn scratch_need(w: u16) -> usize
    ensures { result ≡ scratch_need w }
{
    4 * usize::from(w)
}

// The exact map of a sheet of w × h pixels. Scratch holds the ways of the row at hand; as much of it as is asked for is left at 0.
pub fn exact(sheet: &[u8], map: &mut [i16], scratch: &mut [i16], w: usize, h: usize)
    requires w_bound { (w ≤ 2048) × (h ≤ 2048) }
    requires sheet_len { (length sheet.now ≡ h * w) × ((length map.old ≡ 2 * (h * w)) × (scratch_need w ≤ length scratch.old)) }
    ensures map_left { map.new ≡ exact_map (copper_of sheet.now w) w h }
    ensures scratch_left { scratch.new ≡ scratch_left w scratch.old }
{
    columns::ways(sheet, map, w, h);
    solve(map, w, h, &mut scratch[..w]);
    zero(scratch, 4 * w);
}
