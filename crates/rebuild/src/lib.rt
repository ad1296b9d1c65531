// The sheet rebuilt from marks on a map (document 01, "Skeleton").
//
// One pass over the rows from the top and one from the bottom. A pass keeps for each column the row up to which the rows so far cover it. The best site
// of a row's envelope, in which a marked pixel costs 2^31 less its size, covers a pixel exactly if its price there and the square of the rows between
// stay below 2^31; and a column's number only grows, so that a pass takes time linear in the pixels.

#![tactic(auto)]

ghost use Rattle.std.specs.Prelude.{◌≡◌, cond, ◌+◌, ◌-◌, ◌*◌, ◌≤◌, ◌<◌, ltb, length, get_or};
ghost use Rattle.raster.specs.Map.{size_at};
ghost use Rattle.raster.specs.Rows.{RowWritten};
ghost use Rattle.envelope.specs.Best.{no_cost, price_of};
ghost use Rattle.envelope.specs.Stack.{Entries, holder};
ghost use Rattle.rebuild.specs.Rebuild.{rebuilt};
ghost use Rattle.rebuild.specs.Passes.{pass_row, row_covers, mark_cost, Priced, Costs, hits, hit_by, Raised, RowRaised, Passed};

use envelope::WorkingRows;

// A map of w × h pixels with its marks, a byte a pixel, which is 0 where there is no mark.
#[derive(Clone, Copy)]
struct Marked<'a> {
    map: &'a [i16],
    marks: &'a [u8],
    w: usize,
    h: usize,
    ghost sides: { (w ≤ 2048) × (h ≤ 2048) },
    ghost pixels: { (length map.now ≡ 2 * (h * w)) × (length marks.now ≡ h * w) },
}

impl Marked<'_> {
    // What pixel p costs: an unmarked or unlabelled one is no site.
    fn cost_of(&self, p: usize) -> u32
        requires { p < self.now.h * self.now.w }
        ensures { (result ≡ mark_cost self.now.map.now self.now.marks.now p)
            × (result < no_cost → size_at self.now.map.now p ≤ 2147483648) }
    {
        if self.marks[p] == 0 || raster::unlabelled_at(self.map, p) {
            return u32::MAX;
        }
        2147483648 - raster::size_at(self.map, p)
    }

    // Writes the costs of row y.
    fn price_row(&self, y: usize, cost: &mut [u32; 2048])
        requires { y < self.now.h }
        ensures { Priced self.now.map.now self.now.marks.now (y * self.now.w) self.now.w cost.new }
    {
        let base = y * self.w;
        for k in 0..self.w {
            cost[k] = self.cost_of(base + k);
        }
    }

    // One row of a pass: its marked pixels raise the columns, then its covered pixels are written.
    fn pass_row<const UP: bool>(
        &self,
        out: &mut [u8],
        t: usize,
        reach: &mut [u16; 2048],
        rows: &mut WorkingRows,
    )
        requires { (t < self.now.h) × (length out.old ≡ self.now.h * self.now.w) }
        ensures raised { RowRaised t self.now.h 0 self.now.w
            (λ x k. row_covers self.now.map.now self.now.w self.now.h self.now.marks.now x (pass_row UP self.now.h k) (pass_row UP self.now.h t))
            reach.old reach.new }
        ensures marked { RowWritten (pass_row UP self.now.h t * self.now.w) self.now.w
            (λ x. cond (ltb t (get_or reach.new x 0)) 1 (get_or out.old (pass_row UP self.now.h t * self.now.w + x) 0))
            out.old out.new }
    {
        let y = if UP { self.h - 1 - t } else { t };
        self.price_row(y, &mut rows.cost);
        let count = rows.build(self.w);
        raise_row(reach, self.w, t, self.h, rows, count);
        mark_row(out, y * self.w, self.w, t, reach);
    }

    // A pass over all rows, from the bottom up or from the top down, which begins with no column covered.
    fn pass<const UP: bool>(&self, out: &mut [u8])
        requires { length out.old ≡ self.now.h * self.now.w }
        ensures { Passed self.now.map.now self.now.w self.now.h self.now.marks.now UP out.old out.new }
    {
        let mut reach = [0; 2048];
        let mut rows = WorkingRows::new();
        for t in 0..self.h {
            self.pass_row::<UP>(out, t, &mut reach, &mut rows);
        }
    }
}

// What a site at s of cost g costs at x.
fn price_at(x: usize, s: usize, g: usize) -> usize
    requires { (x < 2048) × ((s < 2048) × (g ≤ 2147483648)) }
    ensures { (result ≡ price_of x s g) × (result ≤ 4294967296) }
{
    let d = x.abs_diff(s);
    d * d + g
}

// The row before which a column is covered, raised from r0 by a site of row t that costs `price` there.
fn raise(r0: u16, t: usize, h: usize, price: usize) -> u16
    requires { (h ≤ 2048) × ((t < h) × (price ≤ 4294967296)) }
    ensures { Raised t h (λ k. ltb ((k - t) * (k - t) + price) 2147483648) r0 result }
{
    for r in t.max(usize::from(r0))..h {
        if 2147483648 <= (r - t) * (r - t) + price {
            return r as u16;
        }
    }
    h as u16
}

// The columns from `from` to `to` − 1, raised by the site s of cost g.
fn raise_run(
    reach: &mut [u16; 2048],
    from: usize,
    to: usize,
    t: usize,
    h: usize,
    s: usize,
    g: usize,
)
    requires to_in_bounds { (from ≤ to) × ((to ≤ 2048) × ((h ≤ 2048) × (t < h))) }
    requires s_bound { (s < 2048) × (g ≤ 2147483648) }
    ensures { RowRaised t h from to (λ x k. hits t x s g k) reach.old reach.new }
{
    for x in from..to {
        reach[x] = raise(reach[x], t, h, price_at(x, s, g));
    }
}

// Each column raised by the site that holds it on the stack: runs, from the last entry to the first.
fn raise_row(
    reach: &mut [u16; 2048],
    n: usize,
    t: usize,
    h: usize,
    rows: &WorkingRows,
    count: usize,
)
    requires n_in_bounds { (n ≤ 2048) × ((h ≤ 2048) × (t < h)) }
    requires entries { Entries rows.now.cost n rows.now.site count }
    requires costs { Costs rows.now.cost n }
    ensures { RowRaised t h 0 n (λ x. hit_by rows.now.cost t x (holder rows.now.site rows.now.start count x))
        reach.old reach.new }
{
    let mut to = n;
    for c in (0..count).rev() {
        let from = usize::from(rows.start[c]);
        if from < to {
            let s = usize::from(rows.site[c]);
            raise_run(reach, from, to, t, h, s, rows.cost[s] as usize);
            to = from;
        }
    }
}

// Writes 1 at the covered pixels of the t-th row, which starts at `base`.
fn mark_row(out: &mut [u8], base: usize, n: usize, t: usize, reach: &[u16; 2048])
    requires { (base + n ≤ length out.old) × (n ≤ 2048) }
    ensures { RowWritten base n (λ x. cond (ltb t (get_or reach.now x 0)) 1 (get_or out.old (base + x) 0))
        out.old out.new }
{
    for x in 0..n {
        let before = out[base + x];
        out[base + x] = if t < usize::from(reach[x]) { 1 } else { before };
    }
}

// The sheet that the marks on the map of w × h pixels cover, a byte a pixel, in linear time.
pub fn rebuild(map: &[i16], marks: &[u8], out: &mut [u8], w: usize, h: usize)
    requires w_bound { (w ≤ 2048) × (h ≤ 2048) }
    requires map_len { (length map.now ≡ 2 * (h * w)) × ((length marks.now ≡ h * w) × (length out.old ≡ h * w)) }
    ensures { out.new ≡ rebuilt map.now w h marks.now }
{
    out.fill(0);
    let marked = Marked { map, marks, w, h };
    marked.pass::<false>(out);
    marked.pass::<true>(out);
}
