// What a pixel holds after the candidates of its neighbours (document 01, "Engines", and document 02, C-16): its vector, and the key of that,
// 2³² × size + dy². One test of two keys tells whether a candidate replaces what is there.
//
// A candidate's key comes from its neighbour's: a step o to the side adds 2vo + o² to the square of v and leaves dy², so that nothing is multiplied out
// twice. All candidates that a pixel is offered in a pass are looked at together, with one read and one write of the pixel.
//
// No number is tested for its range: the vector of a neighbour ends on the sheet, so its components are below 2,048 and one step more fits 16 bits.

#![tactic(auto)]

ghost use Rattle.std.specs.Prelude.{◌≡◌, true, false, cond, ◌+◌, ◌≤◌, ◌<◌, pos, negsuc, nat_abs, ◌+ℤ◌};
ghost use Rattle.raster.specs.Limits.{max_side};
ghost use Rattle.raster.specs.Vector.{Wide, UnitStep};
ghost use Rattle.raster.specs.Map.{Inside, dx_at, dy_at};
ghost use Rattle.candidate.specs.Key.{square, key, no_key};
ghost use Rattle.candidate.specs.Holding.{Keyed, AtPixel, is_given, Given, Ahead, offer_given, Offered};

// ---- one candidate

// What a size counts in a key, 2³²: more than any square of dy.
const UNIT: u64 = 4294967296;

// The key that says that there is no vector, 2⁶³ + 2³⁰: that of an unlabelled pixel's numbers.
const NO_KEY: u64 = 9223372037928517632;

// 2⁶³: every vector that ends on a sheet has a smaller key. A test by it looks at one bit.
const KEY_LIMIT: u64 = 9223372036854775808;

// A vector with its key, or none with the key that says so.
#[derive(Clone, Copy)]
pub struct KeyedVector {
    pub dx: i32,
    pub dy: i32,
    pub key: u64,
}

// The key of the vector (dx, dy).
#[tactic(auto, unfolding(crate::specs::Key::key, raster::specs::Vector::size))]
fn key_of(dx: i32, dy: i32) -> u64
    requires { Wide dx × Wide dy }
    ensures { result ≡ key dx dy }
{
    let x = raster::magnitude(dx);
    let y = raster::magnitude(dy);
    let tie = y * y;
    u64::from(x * x + tie) * UNIT + u64::from(tie)
}

// One of two values.
fn pick<T: Copy>(first: bool, a: T, b: T) -> T
    ensures { result ≡ cond first a b }
{
    if first { a } else { b }
}

// What a step o adds to the square of the component v: 2vo + o², here with 4,096 more, so that it is not negative.
fn growth(v: i32, o: i32) -> u64
    requires { (nat_abs v ≤ 2048) × UnitStep o }
    ensures { (result + square v ≡ 4096 + square (v +ℤ o)) × (result ≤ 8193) }
{
    let v = i64::from(v);
    let o = i64::from(o);
    (4096 + (2 * v + o) * o) as u64
}

impl KeyedVector {
    // The key of the candidate that it and the step o to the side give, from its own key.
    fn key_after(self, o: i32) -> u64
        requires { Given self × UnitStep o }
        ensures candidate { is_given self ≡ true → result ≡ key (self.dx +ℤ o) self.dy }
        ensures none { is_given self ≡ false → no_key ≤ result }
    {
        self.key + growth(self.dx, o) * UNIT - 4096 * UNIT
    }

    // What a pixel that holds it holds after the candidate that c and the step o to the side give.
    fn better(self, c: KeyedVector, o: i32) -> KeyedVector
        requires { (Keyed self × Given c) × UnitStep o }
        ensures { Offered self c o result }
    {
        let key = c.key_after(o);
        let takes = key < self.key;
        KeyedVector {
            dx: pick(takes, c.dx + o, self.dx),
            dy: pick(takes, c.dy, self.dy),
            key: pick(takes, key, self.key),
        }
    }
}

// What pixel p holds.
pub fn read(map: &[i16], p: usize) -> KeyedVector
    requires { Inside p map.now }
    ensures { AtPixel result map.now p }
{
    let dx = raster::dx_at(map, p);
    let dy = raster::dy_at(map, p);
    KeyedVector {
        dx,
        dy,
        key: key_of(dx, dy),
    }
}

// What pixel p holds, if its key is known.
pub fn recall(map: &[i16], p: usize, known: u64) -> KeyedVector
    requires { Inside p map.now × (known ≡ key (dx_at map.now p) (dy_at map.now p)) }
    ensures { AtPixel result map.now p }
{
    KeyedVector {
        dx: raster::dx_at(map, p),
        dy: raster::dy_at(map, p),
        key: known,
    }
}

// Pixel `at`, the key of which is known, is offered the candidate of a neighbour in its row that holds n and stands at (o, 0). Along a row most candidates go
// one way for long, so that here a branch is faster than a choice of numbers.
pub fn relax(map: &mut [i16], at: usize, known: u64, n: KeyedVector, o: i32) -> KeyedVector
    requires inside { Inside at map.old × (known ≡ key (dx_at map.old at) (dy_at map.old at)) }
    requires given { (is_given n ≡ true → Given n) × UnitStep o }
    ensures written { map.new ≡ offer_given n o at map.old }
    ensures handed_on { AtPixel result map.new at }
{
    let d = recall(map, at, known);
    if KEY_LIMIT <= n.key {
        return d;
    }
    let key = n.key_after(o);
    if key < d.key {
        let dx = n.dx + o;
        raster::put_at(map, at, dx, n.dy);
        return KeyedVector { dx, dy: n.dy, key };
    }
    d
}

// ---- from row to row: o is −1 from the row above and 1 from the row below

// The vector of the labelled pixel p with the step (0, o).
pub fn ahead(map: &[i16], p: usize, o: i32) -> KeyedVector
    requires inside { Inside p map.now × UnitStep o }
    requires near { (nat_abs (dx_at map.now p) < max_side) × (nat_abs (dy_at map.now p) < max_side) }
    ensures { Ahead o result map.now p }
{
    let dx = raster::dx_at(map, p);
    let dy = raster::shifted(raster::dy_at(map, p), o);
    KeyedVector {
        dx,
        dy,
        key: key_of(dx, dy),
    }
}

// No vector: what a neighbour gives that is not there.
pub fn nothing() -> KeyedVector
    ensures { Given result × (is_given result ≡ false) }
{
    KeyedVector {
        dx: 0,
        dy: 0,
        key: NO_KEY,
    }
}

// Pixel `at` is offered two candidates: that of its neighbour in the row before, which is `mid` after the step to this row, then that of the left neighbour
// in its own row, which holds `last`.
pub fn straight(map: &mut [i16], at: usize, mid: KeyedVector, last: KeyedVector) -> KeyedVector
    requires inside { Inside at map.old }
    requires given { Given mid × Given last }
    ensures written { map.new ≡ offer_given last (negsuc 0) at (offer_given mid (pos 0) at map.old) }
    ensures handed_on { AtPixel result map.new at }
{
    let d = read(map, at);
    let a = d.better(mid, 0);
    let b = a.better(last, -1);
    raster::put_at(map, at, b.dx, b.dy);
    b
}

// Pixel `at` is offered four candidates: those of its left, middle and right neighbour in the row before, after the step to this row, then that of the left
// neighbour in its own row, which holds `last`.
pub fn three(
    map: &mut [i16],
    at: usize,
    left: KeyedVector,
    mid: KeyedVector,
    right: KeyedVector,
    last: KeyedVector,
) -> KeyedVector
    requires inside { Inside at map.old }
    requires given { (Given left × Given mid) × (Given right × Given last) }
    ensures written { map.new
        ≡ offer_given last (negsuc 0) at
        (offer_given right (pos 1) at
        (offer_given mid (pos 0) at
        (offer_given left (negsuc 0) at map.old))) }
    ensures handed_on { AtPixel result map.new at }
{
    let d = read(map, at);
    let a = d.better(left, -1);
    let b = a.better(mid, 0);
    let c = b.better(right, 1);
    let e = c.better(last, -1);
    raster::put_at(map, at, e.dx, e.dy);
    e
}
