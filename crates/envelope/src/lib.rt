// The lower envelope of unit parabolas along a line, in linear time.
//
// A line has n places, at most 2048. The place k is a site if cost[k] is below 4294967295.
// At x the site k costs (x - k)^2 + cost[k]. `build` leaves a stack of entries in which every x is held by the site of least
// cost, among equals the least site (`best_site` of specs/Best.antt): the last entry whose start is at most x holds it.
//
// The sites that are best somewhere are corners of the lower convex hull of the points (k, k^2 + cost[k]). `hull` goes through
// the sites from the left and stacks the corners so far, passing over places without a site 32 at a time; `starts` then
// divides once for each that is left.

#![tactic(auto)]

ghost use Rattle.std.specs.Prelude.{◌≡◌, true, ◌+◌, ◌-◌, ◌*◌, ◌/◌, ◌<◌, ◌≤◌, length, get_or, replicate};
ghost use Rattle.envelope.specs.Best.{Site, Line};
ghost use Rattle.envelope.specs.Stack.{Envelope};
ghost use Rattle.envelope.specs.Hull.{height_of, above_chord, crossing, Bare, Hull, Popped, Started};

// The height of the point of the place k.
#[tactic(auto, unfolding(crate::specs::Hull::height_of))]
fn height(cost: &[u32], k: usize) -> usize
    requires { (k < 2048) × (k < length cost.now) }
    ensures { (result ≡ height_of cost.now k) × (result < 4299161600) }
{
    k * k + cost[k] as usize
}

// Whether the point of b lies on or above the line through those of a and k.
#[tactic(auto, unfolding(crate::specs::Hull::above_chord))]
fn lies_above(cost: &[u32], a: usize, b: usize, k: usize) -> bool
    requires { (a < b) × ((b < k) × ((k < 2048) × (k < length cost.now))) }
    ensures { result ≡ above_chord cost.now a b k }
{
    height(cost, k) * (b - a) + height(cost, a) * (k - b) <= height(cost, b) * (k - a)
}

// Takes off the corners that are none once the site k has come; the number of those left. `top` is the site of the last.
fn popped(cost: &[u32], n: usize, k: usize, site: &[u16], count: usize, top: usize) -> usize
    requires n_bound { (n ≤ 2048) × ((n ≤ length cost.now) × (n ≤ length site.now)) }
    requires hull { Hull cost.now k site.now count }
    requires k_lt_n { (k < n) × (Site cost.now k × (0 < count → top ≡ get_or site.now (count - 1) 0)) }
    ensures { Popped cost.now k site.now count result }
{
    let mut b = top;
    for c in (1..count).rev() {
        let a = usize::from(site[c - 1]);
        if !lies_above(cost, a, b, k) {
            return c + 1;
        }
        b = a;
    }
    if count == 0 {
        return 0;
    }
    if height(cost, k) < height(cost, b) {
        return 0;
    }
    1
}

// Adds the site k to the hull of the sites below it; the number of corners.
fn push(cost: &[u32], n: usize, k: usize, site: &mut [u16], count: usize, top: usize) -> usize
    requires n_bound { (n ≤ 2048) × ((n ≤ length cost.now) × (n ≤ length site.old)) }
    requires hull { Hull cost.now k site.old count }
    requires k_lt_n { (k < n) × (Site cost.now k × (0 < count → top ≡ get_or site.old (count - 1) 0)) }
    ensures hulled { Hull cost.now (k + 1) site.new result }
    ensures on_top { get_or site.new (result - 1) 0 ≡ k }
{
    let c = popped(cost, n, k, site, count, top);
    site[c] = k as u16;
    c + 1
}

// Whether none of the 32 places from k on is a site. No jump out of the loop, so that they are looked at all at once.
fn is_bare(cost: &[u32], k: usize) -> bool
    requires { k + 32 ≤ length cost.now }
    ensures { result ≡ true → Bare cost.now k (k + 32) }
{
    let mut bare = true;
    for g in &cost[k..k + 32] {
        bare &= *g == u32::MAX;
    }
    bare
}

// The place behind as many times 32 places from k on as have no site. Tried at every 32nd place only, so that single places without a site cost little.
fn skipped(cost: &[u32], n: usize, k: usize) -> usize
    requires { (k ≤ n) × ((n ≤ 2048) × (n ≤ length cost.now)) }
    ensures { (k ≤ result) × ((result ≤ n) × Bare cost.now k result) }
{
    if k % 32 != 0 {
        return k;
    }
    for x in (k..n).step_by(32) {
        if x + 32 > n || !is_bare(cost, x) {
            return x;
        }
    }
    n
}

// The hull of all sites; the number of corners.
fn hull(cost: &[u32], n: usize, site: &mut [u16]) -> usize
    requires { (n ≤ 2048) × ((n ≤ length cost.now) × (n ≤ length site.old)) }
    ensures { Hull cost.now n site.new result }
{
    let mut count = 0;
    let mut top = 0;
    let mut k = 0;
    while k < n {
        if cost[k] < u32::MAX {
            count = push(cost, n, k, site, count, top);
            top = k;
            k += 1;
        } else {
            k = skipped(cost, n, k + 1);
        }
    }
    count
}

// The first place where the site k, of height v, costs less than the site s before it, of height u.
fn cross(s: usize, u: usize, k: usize, v: usize) -> usize
    requires { (s < k) × ((k < 2048) × ((u ≤ v) × (v < 4299161600))) }
    ensures { result ≡ (v - u) / (2 * (k - s)) + 1 }
{
    (v - u) / (2 * (k - s)) + 1
}

// The first place that entry j + 1 holds before entry j.
#[tactic(auto, unfolding(crate::specs::Hull::crossing))]
fn start_of(cost: &[u32], n: usize, site: &[u16], count: usize, j: usize) -> usize
    requires n_bound { (n ≤ 2048) × ((n ≤ length cost.now) × (n ≤ length site.now)) }
    requires hull { Hull cost.now n site.now count × (j + 1 < count) }
    ensures { result ≡ crossing cost.now (get_or site.now j 0) (get_or site.now (j + 1) 0) }
{
    let s = usize::from(site[j]);
    let k = usize::from(site[j + 1]);
    cross(s, height(cost, s), k, height(cost, k))
}

// The starts of the corners that hold a place of the line; their number.
fn starts(cost: &[u32], n: usize, site: &[u16], start: &mut [u16], count: usize) -> usize
    requires line { Line cost.now n site.now start.old }
    requires hull { Hull cost.now n site.now count }
    ensures { Started cost.now n site.now count start.new result }
{
    if count == 0 {
        return 0;
    }
    start[0] = 0;
    for j in 1..count {
        let f = start_of(cost, n, site, count, j - 1);
        if f >= n {
            return j;
        }
        start[j] = f as u16;
    }
    count
}

// The envelope of all sites; the number of entries.
//
// The contract fixes who holds each place: its best site. It leaves free which other sites stand on the stack as entries that hold no place, and what `site`
// and `start` have from the number of entries on. Of these it asks only that every entry is a site of the line (`Envelope` of specs/Stack.antt).
pub fn build(cost: &[u32], n: usize, site: &mut [u16], start: &mut [u16]) -> usize
    requires { Line cost.now n site.old start.old }
    ensures { Envelope cost.now n site.new start.new result }
{
    let count = hull(cost, n, site);
    starts(cost, n, site, start, count)
}

// What a line is worked out in: what its places cost, and the stack of entries.
#[derive(Drop)]
pub struct WorkingRows {
    pub cost: [u32; 2048],
    pub site: [u16; 2048],
    pub start: [u16; 2048],
}

impl WorkingRows {
    // All numbers 0.
    pub fn new() -> WorkingRows
        ensures cost { result.cost ≡ replicate 2048 0 }
        ensures stack { (result.site ≡ replicate 2048 0) × (result.start ≡ replicate 2048 0) }
    {
        WorkingRows {
            cost: [0; 2048],
            site: [0; 2048],
            start: [0; 2048],
        }
    }

    // The envelope of all sites among the first n places, whose costs stay; the number of entries.
    pub fn build(&mut self, n: usize) -> usize
        requires { n ≤ 2048 }
        ensures costs_kept { self.new.cost ≡ self.old.cost }
        ensures built { Envelope self.new.cost n self.new.site self.new.start result }
    {
        build(&self.cost, n, &mut self.site, &mut self.start)
    }
}
