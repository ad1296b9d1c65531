// The skeleton of a map (document 01, "Skeleton").
//
// A band holds a row of the map in three parts: the sizes that its pixels take off at their sides, those that they take off at their corners, and their own
// sizes. Column x stands at x + 1 of each part. 0 stands for a place off the sheet and for a pixel that takes nothing off, since no pixel of size 0 is kept
// anyway. So each pixel is looked up in the tables once, and compared with its neighbours' entries with no test of the sheet's edges.
//
// A row is measured first and looked up after, since a processor measures several pixels at a time and looks up one. The sizes stand last: were they first,
// each would be read soon after a place 8 KiB on had been written, and a processor that compares the low bits of addresses first would wait. The tables are
// lent from above, since a constant that is indexed is laid out anew at each look.

#![tactic(auto)]

ghost use Rattle.std.specs.Prelude.{◌≡◌, true, false, cond, ◌||◌, ◌+◌, ◌*◌, ◌≤◌, ◌<◌, eqb, length};
ghost use Rattle.raster.specs.Rows.{RowWritten};
ghost use Rattle.skeleton.specs.Skeleton.{skeleton_of};
ghost use Rattle.skeleton.specs.Table.{g};
ghost use Rattle.skeleton.specs.Bands.{Listed, counted, Framed, Blank, Measured, LookedUp, BandOf, kept_in, Turning};

// The tables (document 02, C-13): n − g4(n) for n from 1 to 400, a byte each, twenty to a line, in hexadecimal. As bytes of a string they keep their lines.
const SIDES: [u8; 400] = *b"\
    \x01\x01\x02\x03\x03\x02\x03\x04\x05\x05\x03\x04\x05\x05\x06\x07\x07\x05\x06\x07\
    \x05\x06\x07\x08\x09\x09\x07\x08\x09\x05\x06\x07\x08\x09\x0a\x0b\x0b\x09\x0a\x0b\
    \x09\x08\x09\x0a\x0b\x0a\x0b\x0c\x0d\x0d\x0b\x0c\x0d\x09\x0a\x0b\x0c\x0d\x0a\x0b\
    \x0c\x0d\x0e\x0f\x0f\x0d\x0e\x0f\x0b\x0c\x0d\x0e\x0f\x0d\x0b\x0c\x0d\x0e\x0f\x10\
    \x11\x11\x0f\x10\x11\x0d\x0e\x0f\x10\x11\x0b\x0c\x0d\x0e\x0f\x10\x11\x11\x12\x13\
    \x13\x11\x12\x13\x10\x11\x11\x12\x13\x0d\x0e\x0f\x10\x11\x12\x13\x11\x12\x13\x14\
    \x15\x15\x13\x14\x15\x11\x12\x13\x14\x15\x0f\x10\x11\x12\x13\x14\x15\x11\x12\x13\
    \x14\x15\x16\x17\x17\x15\x16\x17\x13\x14\x15\x16\x17\x12\x13\x14\x15\x15\x16\x17\
    \x11\x12\x13\x14\x15\x16\x17\x18\x19\x19\x17\x18\x19\x15\x16\x17\x18\x19\x16\x17\
    \x15\x16\x17\x18\x19\x11\x12\x13\x14\x15\x16\x17\x18\x19\x1a\x1b\x1b\x19\x1a\x1b\
    \x17\x18\x19\x1a\x1b\x15\x16\x17\x18\x19\x1a\x1b\x14\x15\x16\x17\x18\x19\x19\x1a\
    \x1b\x1a\x1b\x1c\x1d\x1d\x1b\x1c\x1d\x19\x1a\x1b\x1c\x1d\x17\x18\x19\x1a\x1b\x1c\
    \x1d\x18\x19\x1a\x1b\x19\x1a\x1b\x1c\x1d\x1a\x1b\x1c\x1d\x1e\x1f\x1f\x1d\x1e\x1f\
    \x1d\x1c\x1d\x1e\x1f\x19\x1a\x1b\x1c\x1d\x1e\x1f\x1c\x1d\x19\x1a\x1b\x1c\x1d\x1e\
    \x1f\x1a\x1b\x1c\x1d\x1e\x1f\x20\x21\x21\x1f\x20\x21\x1d\x1e\x1f\x20\x21\x1b\x1c\
    \x1d\x1e\x1f\x20\x21\x1d\x1a\x1b\x1c\x1d\x1e\x1f\x20\x21\x1a\x1b\x1c\x1d\x1e\x1f\
    \x20\x21\x22\x23\x23\x21\x22\x23\x1f\x20\x21\x22\x23\x1d\x1e\x1f\x20\x21\x22\x23\
    \x1b\x1c\x1d\x1e\x1f\x20\x21\x22\x23\x1e\x1f\x20\x21\x1e\x1f\x20\x21\x22\x23\x24\
    \x25\x25\x23\x24\x25\x21\x22\x23\x24\x25\x21\x22\x23\x22\x23\x24\x25\x1d\x1e\x1f\
    \x20\x21\x22\x23\x24\x25\x22\x23\x21\x1e\x1f\x20\x21\x22\x23\x24\x25\x25\x26\x27\
";

// n − g8(n).
const CORNERS: [u8; 400] = *b"\
    \x01\x02\x02\x03\x04\x04\x05\x06\x05\x06\x06\x07\x08\x06\x07\x08\x09\x0a\x09\x0a\
    \x08\x09\x0a\x0b\x0c\x0a\x0a\x0b\x0c\x0c\x0d\x0e\x0d\x0e\x0a\x0b\x0c\x0d\x0e\x0f\
    \x10\x0d\x0e\x0f\x10\x0e\x0f\x10\x11\x12\x11\x12\x10\x0e\x0f\x10\x11\x12\x12\x13\
    \x14\x11\x12\x13\x14\x10\x11\x12\x13\x14\x15\x16\x15\x16\x11\x12\x13\x14\x15\x16\
    \x14\x15\x16\x17\x18\x15\x16\x17\x18\x16\x13\x14\x15\x16\x17\x18\x19\x1a\x19\x1a\
    \x15\x16\x17\x18\x19\x1a\x16\x17\x18\x19\x1a\x1b\x1c\x19\x1a\x1b\x1c\x15\x16\x17\
    \x18\x19\x1a\x1b\x1c\x1c\x1d\x1e\x1d\x1e\x19\x1a\x1b\x1c\x1d\x1e\x1c\x19\x1a\x1b\
    \x1c\x1d\x1e\x1f\x20\x1e\x1e\x1f\x20\x19\x1a\x1b\x1c\x1d\x1e\x1f\x20\x1e\x1f\x20\
    \x21\x22\x21\x22\x1d\x1e\x1f\x20\x21\x22\x1a\x1b\x1c\x1d\x1e\x1f\x20\x21\x22\x23\
    \x24\x21\x22\x23\x24\x1d\x1e\x1f\x20\x21\x22\x23\x24\x22\x21\x22\x23\x24\x25\x26\
    \x25\x26\x22\x23\x24\x24\x25\x26\x1f\x20\x21\x22\x21\x22\x23\x24\x25\x26\x26\x27\
    \x28\x25\x26\x27\x28\x21\x22\x23\x24\x25\x26\x27\x28\x22\x23\x24\x25\x26\x27\x28\
    \x29\x2a\x29\x2a\x28\x26\x27\x28\x29\x2a\x21\x22\x23\x24\x25\x26\x27\x28\x29\x2a\
    \x28\x29\x2a\x2b\x2c\x29\x2a\x2b\x2c\x26\x27\x28\x29\x2a\x2a\x2b\x2c\x25\x26\x27\
    \x28\x28\x29\x2a\x2b\x2c\x2d\x2e\x2d\x2e\x29\x2a\x2b\x2c\x2d\x2e\x25\x26\x27\x28\
    \x29\x2a\x2b\x2c\x2d\x2e\x2a\x2b\x2c\x2d\x2e\x2f\x30\x2d\x2e\x2f\x30\x2c\x2d\x2e\
    \x2c\x2d\x2e\x2f\x30\x26\x27\x28\x29\x2a\x2b\x2c\x2d\x2e\x2f\x30\x31\x32\x31\x32\
    \x2d\x2e\x2f\x30\x31\x32\x2a\x2b\x2c\x2d\x2e\x2f\x30\x30\x31\x32\x2c\x2d\x2e\x2f\
    \x30\x31\x32\x33\x34\x31\x32\x33\x34\x32\x2e\x2f\x30\x31\x32\x33\x34\x29\x2a\x2b\
    \x2c\x2d\x2e\x2f\x30\x31\x32\x33\x34\x34\x35\x36\x35\x36\x31\x32\x33\x34\x35\x36\
";

// Both tables, with what is known of their entries.
#[derive(Drop)]
struct Differences {
    sides: [u8; 400],
    corners: [u8; 400],
    ghost sides_listed: { Listed false sides },
    ghost corners_listed: { Listed true corners },
}

impl Differences {
    fn new() -> Self {
        Differences {
            sides: SIDES,
            corners: CORNERS,
        }
    }

    // What a pixel of size n takes off at its corners, or at its sides.
    fn taken_off<const CORNER: bool>(&self, n: u32) -> u32
        ensures { result ≡ g CORNER (counted n) }
    {
        let p = place_of(n);
        let difference = if CORNER {
            self.corners[p]
        } else {
            self.sides[p]
        };
        (p as u32 + 1) - u32::from(difference)
    }
}

// Where a pixel of size n is looked up; for one that takes nothing off, the first place, since size 1 takes off what has size 0.
fn place_of(n: u32) -> usize
    ensures { (result < 400) × (result + 1 ≡ counted n) }
{
    match n {
        1..=400 => (n - 1) as usize,
        _ => 0,
    }
}

// What a band has for a pixel of size n: n, but 0 for 2^31, since an unlabelled pixel is not kept either.
fn own_size(n: u32) -> u32
    ensures { result ≡ cond (eqb n 2147483648) 0 n }
{
    if n == 2147483648 { 0 } else { n }
}

// A row of the map: what its pixels take off at their sides and at their corners, and their sizes. The fields lie in this order.
#[derive(Drop)]
#[repr(C)]
struct Band {
    sides: [u32; 2050],
    corners: [u32; 2050],
    sizes: [u32; 2050],
}

impl Band {
    // All numbers 0.
    fn new() -> Self
        ensures { Blank result }
    {
        Band {
            sides: [0; 2050],
            corners: [0; 2050],
            sizes: [0; 2050],
        }
    }

    // The sizes of the row that starts at `base`.
    fn measure(&mut self, map: &[i16], base: usize, w: usize)
        requires w_in_bounds { (2 * (base + w) ≤ length map.now) × (w ≤ 2048) }
        requires framed { Framed w self.old }
        ensures { Measured map.now base w w self.new }
    {
        for x in 0..w {
            self.sizes[x + 1] = own_size(raster::size_at(map, base + x));
        }
    }

    // What each pixel of a measured row takes off.
    fn look_up(&mut self, w: usize, tables: &Differences)
        requires w_bound { w ≤ 2048 }
        requires framed { Framed w self.old }
        ensures { LookedUp w w self.old self.new }
    {
        for x in 0..w {
            let n = self.sizes[x + 1];
            self.sides[x + 1] = tables.taken_off::<false>(n);
            self.corners[x + 1] = tables.taken_off::<true>(n);
        }
    }
}

// Whether one of three neighbours takes off a pixel of size s; a, b and c are their entries.
fn taken(s: u32, a: u32, b: u32, c: u32) -> bool
    ensures { result ≡ eqb a s || (eqb b s || eqb c s) }
{
    (a == s) | ((b == s) | (c == s))
}

// 1 where the pixel of column x is kept, 0 elsewhere, by the bands of its row and of those beside it.
fn keep(above: &Band, row: &Band, below: &Band, x: usize) -> u8
    requires { x < 2048 }
    ensures { result ≡ kept_in above.now row.now below.now x }
{
    let s = row.sizes[x + 1];
    let right = taken(
        s,
        below.corners[x + 2],
        row.sides[x + 2],
        above.corners[x + 2],
    );
    let here = (below.sides[x + 1] == s) | (above.sides[x + 1] == s);
    let left = taken(s, below.corners[x], row.sides[x], above.corners[x]);
    u8::from(!((s == 0) | (right | (here | left))))
}

// The row of the skeleton that starts at `base`.
fn keep_row(out: &mut [u8], base: usize, w: usize, above: &Band, row: &Band, below: &Band)
    requires { (w ≤ 2048) × (base + w ≤ length out.old) }
    ensures { RowWritten base w (kept_in above.now row.now below.now) out.old out.new }
{
    for x in 0..w {
        out[base + x] = keep(above, row, below, x);
    }
}

// What a skeleton is made of: a map of w × h pixels, and the tables.
#[derive(Drop)]
struct Source<'a> {
    map: &'a [i16],
    w: usize,
    h: usize,
    tables: Differences,
    ghost sides: { (w ≤ 2048) × (h ≤ 2048) },
    ghost whole: { length map.now ≡ 2 * (h * w) },
}

impl Source<'_> {
    // Makes `band` that of row y, which may be the one below the last.
    fn fill(&self, y: usize, band: &mut Band)
        requires { Framed self.now.w band.old }
        ensures { BandOf self.now.map.now self.now.w self.now.h (y + 1) band.new }
    {
        if y < self.h {
            band.measure(self.map, y * self.w, self.w);
            band.look_up(self.w, &self.tables);
        } else {
            *band = Band::new();
        }
    }

    // Row y of the skeleton, if there is one, by the bands of that row and of the one above; `below` becomes the band of the one below.
    fn turn(&self, out: &mut [u8], y: usize, above: &Band, row: &Band, below: &mut Band)
        requires { Turning self.now.map.now self.now.w self.now.h y out.old above.now row.now below.old }
        ensures { Turning self.now.map.now self.now.w self.now.h (y + 1) out.new row.now below.new above.now }
    {
        if y < self.h {
            self.fill(y + 1, below);
            keep_row(out, y * self.w, self.w, above, row, below);
        }
    }

    // All rows, three at a time: each of a, b and c is by turns the band above, that of the row and the one below, so that none is copied.
    // At first a is the band above the first row.
    fn keep_rows(&self, out: &mut [u8])
        requires { length out.old ≡ self.now.h * self.now.w }
        ensures { out.new ≡ skeleton_of self.now.map.now self.now.w self.now.h }
    {
        let mut a = Band::new();
        let mut b = Band::new();
        let mut c = Band::new();
        self.fill(0, &mut b);
        for y in (0..self.h).step_by(3) {
            self.turn(out, y, &a, &b, &mut c);
            self.turn(out, y + 1, &b, &c, &mut a);
            self.turn(out, y + 2, &c, &a, &mut b);
        }
    }
}

// The skeleton of the map of w × h pixels, a byte a pixel.
pub fn skeleton(map: &[i16], out: &mut [u8], w: usize, h: usize)
    requires w_bound { (w ≤ 2048) × (h ≤ 2048) }
    requires map_len { (length map.now ≡ 2 * (h * w)) × (length out.old ≡ h * w) }
    ensures { out.new ≡ skeleton_of map.now w h }
{
    let source = Source {
        map,
        w,
        h,
        tables: Differences::new(),
    };
    source.keep_rows(out);
}
