// True squared distances at points (document 02, C-19), with no map: a row is worked out once, however many points lie in it.
//
// Rows are asked for from the top. For each column the last copper above the row and the first copper below it are kept. All rows down to the one asked for are
// passed once. A column looks for copper below only when its last one is passed, and at no pixel twice. While more than one column in sixteen does, a row is
// looked at for all of them at once; then each goes on by itself. So the time is linear in the pixels down to the last row asked for, and from there on to
// the next copper of each column. The shorter of both ways is priced as for the exact map, and the row is worked out as one of its rows. All working rows are
// local, but for the ways, which stand in scratch; none grows with the number of rows.

#![tactic(auto)]

ghost use Rattle.std.specs.Prelude.{◌≡◌, false, ℕ, ◌+◌, ◌*◌, ◌≤◌, ◌<◌, leb, length, get_or, replicate, IfSome, IfNone};
ghost use Rattle.raster.specs.Loop.{count_below};
ghost use Rattle.raster.specs.Map.{dx_at, dy_at};
ghost use Rattle.raster.specs.Pixels.{tabulate};
ghost use Rattle.raster.specs.Rows.{RowWritten};
ghost use Rattle.raster.specs.Sheet.{copper_of};
ghost use Rattle.exact.specs.Nearest.{distance_of, scratch_need, scratch_left};
ghost use Rattle.probe.specs.Points.{point_column, point_row, point_off, rows_fall, distances_at, rows_among};
ghost use Rattle.probe.specs.Rows.{
  LastAboves,
  last_with,
  Upcomings,
  Upcoming,
  outdated,
  next_with,
  LookedTo,
  LookedTos,
  FirstBelow,
  FirstBelows,
  way_up,
  way_down,
  way_between,
  Worked,
};

use envelope::WorkingRows;

// ---- one column

// The number of the last copper, once the row numbered n is passed.
fn last_row(byte: u8, n: u16, a: u16) -> u16
    ensures { result ≡ last_with byte n a }
{
    if byte == 0 { a } else { n }
}

// The number of the upcoming copper, once the row numbered n is looked at.
fn next_row(y: u16, byte: u8, n: u16, b: u16) -> u16
    ensures { result ≡ next_with y byte n b }
{
    if (y < b) | (byte == 0) { b } else { n }
}

// How many of the columns look for another copper in row y.
fn outdated_columns(below: &[u16], y: u16) -> u16
    requires { length below.now ≤ 2048 }
    ensures { result ≡ count_below (length below.now) (λ x. outdated y (get_or below.now x 0)) }
{
    let mut count: u16 = 0;
    for b in below {
        count += u16::from(*b <= y);
    }
    count
}

// ---- copper above and below

// A sheet of w × h pixels, a byte a pixel, which is 0 where the pixel is bare.
#[derive(Clone, Copy)]
struct Sheet<'a> {
    bytes: &'a [u8],
    w: usize,
    h: usize,
    ghost sides: { (w ≤ 2048) × (h ≤ 2048) },
    ghost pixels: { length bytes.now ≡ h * w },
}

impl Sheet<'_> {
    // Row y is passed.
    fn pass_row(&self, y: usize, above: &mut [u16; 2048])
        requires { y < self.now.h }
        ensures { RowWritten 0 self.now.w (λ x. last_with (get_or self.now.bytes.now (y * self.now.w + x) 0) (y + 1) (get_or above.old x 0))
            above.old above.new }
    {
        let base = y * self.w;
        let n = (y + 1) as u16;
        for x in 0..self.w {
            above[x] = last_row(self.bytes[base + x], n, above[x]);
        }
    }

    // The rows from `from` to `to` − 1 are passed.
    fn pass_rows(&self, from: usize, to: usize, above: &mut [u16; 2048])
        requires { (from ≤ to) × ((to ≤ self.now.h) × LastAboves (copper_of self.now.bytes.now self.now.w) self.now.w from above.old) }
        ensures { LastAboves (copper_of self.now.bytes.now self.now.w) self.now.w to above.new }
    {
        for y in from..to {
            self.pass_row(y, above);
        }
    }

    // Row r is looked at for all columns that look for another copper from row y on. No jumps, so that many are done at once.
    fn look_row(&self, y: u16, r: usize, below: &mut [u16; 2048])
        requires { r < self.now.h }
        ensures { RowWritten 0 self.now.w (λ x. next_with y (get_or self.now.bytes.now (r * self.now.w + x) 0) (r + 1) (get_or below.old x 0))
            below.old below.new }
    {
        let base = r * self.w;
        let n = (r + 1) as u16;
        for x in 0..self.w {
            below[x] = next_row(y, self.bytes[base + x], n, below[x]);
        }
    }

    // Row by row from row y on, while more than one column in sixteen looks for another copper: the row from which those that are left have to look, or none if
    // every column has its copper.
    fn look_rows(&self, y: usize, below: &mut [u16; 2048]) -> Option<usize>
        requires { (y < self.now.h) × Upcomings (copper_of self.now.bytes.now self.now.w) self.now.w self.now.h y below.old }
        ensures left { IfSome result (λ r. (y ≤ r) × ((r ≤ self.now.h)
            × LookedTos (copper_of self.now.bytes.now self.now.w) self.now.w self.now.h y r below.new)) }
        ensures found { IfNone result (FirstBelows (copper_of self.now.bytes.now self.now.w) self.now.w self.now.h y below.new) }
    {
        let mut r = y;
        let mut left = outdated_columns(&below[..self.w], y as u16);
        while (r < self.h) & (self.w < usize::from(left) * 16) {
            self.look_row(y as u16, r, below);
            left = outdated_columns(&below[..self.w], y as u16);
            r += 1;
        }
        if left == 0 { None } else { Some(r) }
    }

    // The number of the first copper of column x in row r or below it; h + 1 if there is none.
    fn look_column(&self, x: usize, r: usize) -> u16
        requires { (x < self.now.w) × (r ≤ self.now.h) }
        ensures { Upcoming (copper_of self.now.bytes.now self.now.w) self.now.h x r result × (r < result) }
    {
        for j in r..self.h {
            if self.bytes[j * self.w + x] != 0 {
                return (j + 1) as u16;
            }
        }
        (self.h + 1) as u16
    }

    // The number of the first copper of column x at or below row y: b, unless row y is past it. Then it lies at or below row r, since there is none from row y
    // to row r − 1.
    fn settled(&self, x: usize, y: usize, r: usize, b: u16) -> u16
        requires { (x < self.now.w) × ((y ≤ r) × ((r ≤ self.now.h) × LookedTo (copper_of self.now.bytes.now self.now.w) self.now.h x y r b)) }
        ensures { FirstBelow (copper_of self.now.bytes.now self.now.w) self.now.h x y result }
    {
        if y < usize::from(b) {
            return b;
        }
        self.look_column(x, r)
    }

    // The columns that still look for another copper, one by one; from row y to row r − 1 they have none. The fields of the sheet are copied, not its
    // bytes, so that the compiler tests once for all columns whether a row is left to look at.
    fn look_columns(&self, y: usize, r: usize, below: &mut [u16; 2048])
        requires { (y ≤ r) × ((r ≤ self.now.h) × LookedTos (copper_of self.now.bytes.now self.now.w) self.now.w self.now.h y r below.old) }
        ensures { FirstBelows (copper_of self.now.bytes.now self.now.w) self.now.w self.now.h y below.new }
    {
        let sheet = *self;
        for x in 0..sheet.w {
            below[x] = sheet.settled(x, y, r, below[x]);
        }
    }

    // The first copper at or below row y, of every column.
    fn look_down(&self, y: usize, below: &mut [u16; 2048])
        requires { (y < self.now.h) × Upcomings (copper_of self.now.bytes.now self.now.w) self.now.w self.now.h y below.old }
        ensures { FirstBelows (copper_of self.now.bytes.now self.now.w) self.now.w self.now.h y below.new }
    {
        if let Some(r) = self.look_rows(y, below) {
            self.look_columns(y, r, below);
        }
    }
}

// ---- a row

// The way upwards of row y.
fn way_up(y: u16, a: u16) -> i16
    requires { (y < 2048) × (a ≤ y + 1) }
    ensures { result ≡ way_up y a }
{
    if a == 0 {
        return -1;
    }
    (y + 1 - a) as i16
}

// The way downwards.
fn way_down(h: u16, y: u16, b: u16) -> i16
    requires { (h ≤ 2048) × (y < b) }
    ensures { result ≡ way_down h y b }
{
    if h < b {
        return -1;
    }
    (b - 1 - y) as i16
}

// The way of each column of row y.
fn write_ways(above: &[u16; 2048], below: &[u16; 2048], h: u16, y: u16, ways: &mut [i16])
    requires h_bound { (h ≤ 2048) × ((y < h) × (length ways.old ≤ 2048)) }
    requires by_index { (x : ℕ) → x < length ways.old → (get_or above.now x 0 ≤ y + 1) × (y < get_or below.now x 0) }
    ensures { ways.new ≡ tabulate (length ways.old) (λ x. way_between h y (get_or above.now x 0) (get_or below.now x 0)) }
{
    for x in 0..ways.len() {
        ways[x] = columns::shorter_of(way_up(y, above[x]), way_down(h, y, below[x]));
    }
}

// How far a sheet is read: the copper above and below the last row that was worked out, the exact vectors of that row, and what they are worked out in.
#[derive(Drop)]
struct Reading {
    above: [u16; 2048],
    below: [u16; 2048],
    row: [i16; 4096],
    rows: WorkingRows,
    read: usize,
}

impl Reading {
    // No row is read.
    fn new() -> Reading
        ensures none_read { result.read ≡ 0 }
        ensures none_found { (result.above ≡ replicate 2048 0) × (result.below ≡ replicate 2048 0) }
    {
        Reading {
            above: [0; 2048],
            below: [0; 2048],
            row: [0; 4096],
            rows: WorkingRows::new(),
            read: 0,
        }
    }

    // Turns to row y, which is worked out unless it is the last that was; whether it was worked out now.
    fn turn_to(&mut self, sheet: &Sheet, y: usize, ways: &mut [i16]) -> bool
        requires y_on_sheet { (self.old.read ≤ y + 1) × ((y < sheet.now.h) × (length ways.old ≡ sheet.now.w)) }
        requires worked { Worked (copper_of sheet.now.bytes.now sheet.now.w) sheet.now.w sheet.now.h self.old.read self.old.above self.old.below self.old.row }
        ensures is_new { (result ≡ leb self.old.read y) × (self.new.read ≡ y + 1) }
        ensures worked { Worked (copper_of sheet.now.bytes.now sheet.now.w) sheet.now.w sheet.now.h (y + 1) self.new.above self.new.below self.new.row }
    {
        if y < self.read {
            return false;
        }
        sheet.pass_rows(self.read, y + 1, &mut self.above);
        sheet.look_down(y, &mut self.below);
        write_ways(&self.above, &self.below, sheet.h as u16, y as u16, ways);
        exact::solve_parts(
            &mut self.row,
            0,
            sheet.w,
            ways,
            &mut self.rows.cost,
            &mut self.rows.site,
            &mut self.rows.start,
        );
        self.read = y + 1;
        true
    }

    // The true squared distance that the vector of pixel x of the row says.
    fn distance_at(&self, x: usize) -> u32
        requires { x < 2048 }
        ensures { result ≡ distance_of (dx_at self.now.row x) (dy_at self.now.row x) }
    {
        if raster::unlabelled_at(&self.row, x) {
            return u32::MAX;
        }
        raster::size_at(&self.row, x)
    }
}

// ---- points

// The column and the row of the k-th point.
fn point_column(points: &[u16], k: usize) -> usize
    requires { 2 * k + 1 < length points.now }
    ensures { result ≡ point_column points.now k }
{
    usize::from(points[2 * k])
}

fn point_row(points: &[u16], k: usize) -> usize
    requires { 2 * k + 1 < length points.now }
    ensures { result ≡ point_row points.now k }
{
    usize::from(points[2 * k + 1])
}

// Whether one of the n points is off the sheet.
#[tactic(auto, unfolding(crate::specs::Points::point_off))]
pub fn has_point_off(points: &[u16], n: usize, w: usize, h: usize) -> bool
    requires { 2 * n ≤ length points.now }
    ensures { result ≡ point_off w h n points.now }
{
    raster::any_below(
        n,
        |k| (w <= point_column(points, k)) | (h <= point_row(points, k)),
    )
}

// Whether the row of one of the n points is less than that of the point before it.
#[tactic(auto, unfolding(crate::specs::Points::rows_fall))]
pub fn has_falling_row(points: &[u16], n: usize) -> bool
    requires { 2 * n ≤ length points.now }
    ensures { result ≡ rows_fall n points.now }
{
    raster::any_below(
        n.saturating_sub(1),
        |k| point_row(points, k + 1) < point_row(points, k),
    )
}

// The points from the first to the last; the number of different rows.
fn probe_points(sheet: &Sheet, points: &[u16], out: &mut [u32], ways: &mut [i16]) -> u32
    requires lengths { (length points.now ≡ 2 * length out.old) × (length ways.old ≡ sheet.now.w) }
    requires sorted { (point_off sheet.now.w sheet.now.h (length out.old) points.now ≡ false) × (rows_fall (length out.old) points.now ≡ false) }
    ensures counted { result ≡ rows_among sheet.now.h (length out.old) points.now }
    ensures out_left { out.new ≡ distances_at (copper_of sheet.now.bytes.now sheet.now.w) sheet.now.w sheet.now.h (length out.old) points.now }
{
    let mut reading = Reading::new();
    let mut rows: u32 = 0;
    for k in 0..out.len() {
        rows += u32::from(reading.turn_to(sheet, point_row(points, k), ways));
        out[k] = reading.distance_at(point_column(points, k));
    }
    rows
}

// The true squared distances of points on a sheet of w × h pixels, whose rows do not fall; the number of different rows among them.
pub fn probe(
    sheet: &[u8],
    points: &[u16],
    scratch: &mut [i16],
    out: &mut [u32],
    w: usize,
    h: usize,
) -> u32
    requires w_bound { (w ≤ 2048) × (h ≤ 2048) }
    requires sheet_len { (length sheet.now ≡ h * w) × ((scratch_need w ≤ length scratch.old) × (length points.now ≡ 2 * length out.old)) }
    requires sorted { (point_off w h (length out.old) points.now ≡ false) × (rows_fall (length out.old) points.now ≡ false) }
    ensures counted { result ≡ rows_among h (length out.old) points.now }
    ensures out_left { out.new ≡ distances_at (copper_of sheet.now w) w h (length out.old) points.now }
    ensures scratch_left { scratch.new ≡ scratch_left w scratch.old }
{
    let lent = Sheet { bytes: sheet, w, h };
    let rows = probe_points(&lent, points, out, &mut scratch[..w]);
    exact::zero(scratch, 4 * w);
    rows
}
