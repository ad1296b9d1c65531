// The leaves: what a vector says, reading and writing it at a pixel of a map, and filling sheets and maps. A component is 16 bits wide in the
// map and 32 bits wide in the hand, where no sum of it and a step overflows.

#![tactic(auto)]

ghost use Rattle.std.specs.Prelude.{◌≡◌, Bool, ℕ, ◌+◌, ◌*◌, ◌≤◌, ◌<◌, eqb, nat_abs, ◌+ℤ◌, length, replicate};
ghost use Rattle.raster.specs.Limits.{side};
ghost use Rattle.raster.specs.Loop.{any_below};
ghost use Rattle.raster.specs.Vector.{Short, Wide, UnitStep, size, unlabelled};
ghost use Rattle.raster.specs.Map.{Inside, dx_at, dy_at, size_at, unlabelled_at, put, unmapped, has_copper};
ghost use Rattle.raster.specs.Sheet.{bare, spanned, filled};

mod refusal; // why a call is refused

pub use refusal::{Refusal, answer};

pub const MARK: i16 = -32768;

// The longest side of a sheet.
pub const MAX_SIDE: u16 = 2048;

// Whether a sheet may have this side.
pub fn is_side(n: u16) -> bool
    ensures { result ≡ side n }
{
    (1 <= n) & (n <= MAX_SIDE)
}

// The pixels of a sheet of w × h.
pub fn area(w: u16, h: u16) -> usize
    ensures { result ≡ h * w }
{
    usize::from(h) * usize::from(w)
}

// How far a number reaches, without its sign.
pub fn magnitude(z: i32) -> u32
    requires { Wide z }
    ensures { result ≡ nat_abs z }
{
    z.unsigned_abs()
}

// The square of the vector's length.
#[tactic(auto, unfolding(crate::specs::Vector::size))]
fn size_of(dx: i32, dy: i32) -> u32
    requires { Wide dx × Wide dy }
    ensures { result ≡ size dx dy }
{
    let x = magnitude(dx);
    let y = magnitude(dy);
    x * x + y * y
}

// Whether both components hold the mark.
pub fn is_unlabelled(dx: i32, dy: i32) -> bool
    ensures { result ≡ unlabelled dx dy }
{
    let mark = i32::from(MARK);
    (dx == mark) & (dy == mark)
}

// A component of a neighbour's vector, seen from the pixel.
pub fn shifted(v: i32, o: i32) -> i32
    requires { Short v × UnitStep o }
    ensures { (result ≡ v +ℤ o) × Wide result }
{
    v + o
}

// The first component at pixel p.
pub fn dx_at(map: &[i16], p: usize) -> i32
    requires { Inside p map.now }
    ensures { (result ≡ dx_at map.now p) × Short result }
{
    i32::from(map[2 * p])
}

// The second component at pixel p.
pub fn dy_at(map: &[i16], p: usize) -> i32
    requires { Inside p map.now }
    ensures { (result ≡ dy_at map.now p) × Short result }
{
    i32::from(map[2 * p + 1])
}

// The size at pixel p: at most 2^31, which an unlabelled pixel has and no other.
pub fn size_at(map: &[i16], p: usize) -> u32
    requires { Inside p map.now }
    ensures { (result ≡ size_at map.now p) × ((result ≤ 2147483648) × (unlabelled_at map.now p ≡ eqb result 2147483648)) }
{
    size_of(dx_at(map, p), dy_at(map, p))
}

// Whether pixel p is unlabelled.
pub fn unlabelled_at(map: &[i16], p: usize) -> bool
    requires { Inside p map.now }
    ensures { result ≡ unlabelled_at map.now p }
{
    is_unlabelled(dx_at(map, p), dy_at(map, p))
}

// Writes the vector (dx, dy) at pixel p.
#[tactic(auto, unfolding(crate::specs::Map::put))]
pub fn put_at(map: &mut [i16], p: usize, dx: i32, dy: i32)
    requires inside { Inside p map.old }
    requires short { Short dx × Short dy }
    ensures { map.new ≡ put p dx dy map.old }
{
    map[2 * p] = dx as i16;
    map[2 * p + 1] = dy as i16;
}

// Sets every component to the mark, so that no pixel has a vector.
pub fn clear_map(map: &mut [i16])
    ensures { map.new ≡ unmapped map.old }
{
    map.fill(MARK);
}

// Whether a number below n passes the test. All are looked at, so that the compiler looks at several at a time.
#[tactic(auto, unfolding(crate::specs::Loop::any_below))]
pub fn any_below<F: Fn(usize) -> bool + Drop>(n: usize, test: F) -> bool
    requires { (k : ℕ) → k < n → F.pre test k }
    ensures { (f : ℕ → Bool) → ((k : ℕ) (b : Bool) → k < n → F.post test k b → b ≡ f k) → result ≡ any_below n f }
{
    let mut found = false;
    for k in 0..n {
        found = test(k) | found;
    }
    found
}

// Whether some of the first n pixels has size 0.
#[tactic(auto, unfolding(crate::specs::Map::has_copper))]
pub fn has_copper(map: &[i16], n: usize) -> bool
    requires { 2 * n ≤ length map.now }
    ensures { result ≡ has_copper n map.now }
{
    any_below(n, |p| size_at(map, p) == 0)
}

// Sets every byte to v.
pub fn fill(s: &mut [u8], v: u8)
    ensures { s.new ≡ replicate (length s.old) v }
{
    s.fill(v);
}

// Makes every pixel bare.
pub fn clear_sheet(sheet: &mut [u8])
    ensures { sheet.new ≡ bare sheet.old }
{
    fill(sheet, 0);
}

// Writes v at n places from `start` on.
#[tactic(auto, unfolding(crate::specs::Sheet::spanned))]
pub fn fill_span(sheet: &mut [u8], start: usize, n: usize, v: u8)
    requires { start + n ≤ length sheet.old }
    ensures { sheet.new ≡ spanned start n v sheet.old }
{
    fill(&mut sheet[start..start + n], v);
}

// Writes v in the rectangle of cols × rows pixels whose upper left one is (x, y), on a sheet of w × h.
#[tactic(auto, using(crate::specs::SheetLaws::filled_none, crate::specs::SheetLaws::filled_more))]
pub fn fill_rectangle(
    sheet: &mut [u8],
    w: usize,
    h: usize,
    x: usize,
    y: usize,
    cols: usize,
    rows: usize,
    v: u8,
)
    requires { (length sheet.old ≡ h * w) × ((x + cols ≤ w) × (y + rows ≤ h)) }
    ensures { sheet.new ≡ filled w h x y cols rows v sheet.old }
{
    for j in 0..rows {
        fill_span(sheet, (y + j) * w + x, cols, v);
    }
}
