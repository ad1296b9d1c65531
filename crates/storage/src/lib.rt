// Stored maps (document 02, C-24): the map of a sheet with sides of at most 128 in a signed byte a component, and back. Neither call takes a session. A
// map is looked at in full before anything is written, so that a refusal leaves the target as it was.

#![tactic(auto)]

ghost use Rattle.std.specs.Prelude.{◌≡◌, true, not, ◌||◌, ◌+◌, ◌*◌, ◌≤◌, length};
ghost use Rattle.raster.specs.Loop.{any_below};
ghost use Rattle.raster.specs.Map.{Inside};
ghost use Rattle.raster.specs.Refusal.{first_of, on_done, answer_of};
ghost use Rattle.raster.specs.Vector.{Short, is_mark};
ghost use Rattle.storage.specs.Stored.{
  small_component,
  to_byte,
  from_byte,
  stored,
  read_back,
  storable,
  EachStorable,
  half_marked,
  length_rows,
  store_table,
  read_back_table,
};

use raster::Refusal;

// The longest side of a sheet whose map can be stored.
pub const MAX_STORED_SIDE: u16 = 128;

// Stores a map of w × h pixels. Refusals: 11, a side; 12, the length of a slice; 45, a side above 128, or a pixel that is not unlabelled and has a component
// outside ±127.
pub fn store(w: u16, h: u16, map: &[i16], bytes: &mut [i8]) -> Result<(), Refusal>
    ensures answered { answer_of result ≡ first_of (store_table w h map.now bytes.old) }
    ensures bytes_left { bytes.new ≡ on_done (answer_of result) (stored map.now) bytes.old }
{
    check_lengths(w, h, map.len(), bytes.len())?;
    if has_unstorable(map, raster::area(w, h)) {
        return Err(Refusal::NotStorable);
    }
    write_bytes(map, bytes);
    Ok(())
}

// Reads a stored map of w × h pixels back. Refusals: 11, a side; 12, the length of a slice; 45, a side above 128 or a half-marked pixel.
pub fn read_back(w: u16, h: u16, bytes: &[i8], map: &mut [i16]) -> Result<(), Refusal>
    ensures answered { answer_of result ≡ first_of (read_back_table w h bytes.now map.old) }
    ensures map_left { map.new ≡ on_done (answer_of result) (read_back bytes.now) map.old }
{
    check_lengths(w, h, bytes.len(), map.len())?;
    if has_half_marked(bytes, raster::area(w, h)) {
        return Err(Refusal::NotStorable);
    }
    write_pairs(bytes, map);
    Ok(())
}

// The refusals by sides and lengths alone.
#[tactic(auto, unfolding(crate::specs::Stored::length_rows, raster::specs::Refusal::first_of))]
fn check_lengths(w: u16, h: u16, from: usize, to: usize) -> Result<(), Refusal>
    ensures { answer_of result ≡ first_of (length_rows w h from to) }
{
    if !(raster::is_side(w) & raster::is_side(h)) {
        return Err(Refusal::Side);
    }
    let n = 2 * raster::area(w, h);
    if !((from == n) & (to == n)) {
        return Err(Refusal::Length);
    }
    if (MAX_STORED_SIDE < w) | (MAX_STORED_SIDE < h) {
        return Err(Refusal::NotStorable);
    }
    Ok(())
}

// ---- store

// Whether one of the first n pixels cannot be stored.
fn has_unstorable(map: &[i16], n: usize) -> bool
    requires { 2 * n ≤ length map.now }
    ensures { result ≡ any_below n (λ p. not (storable map.now p)) }
{
    raster::any_below(n, |p| !is_storable(map, p))
}

// Whether pixel p can be stored. Two marks have the size 2^31. All tests are of squares: from them the compiler makes a look at several pixels at a time.
fn is_storable(map: &[i16], p: usize) -> bool
    requires { Inside p map.now }
    ensures { result ≡ storable map.now p }
{
    let unlabelled = raster::size_at(map, p) == 2147483648;
    unlabelled | (is_small(raster::dx_at(map, p)) & is_small(raster::dy_at(map, p)))
}

// From −127 to 127: the square is below 128².
fn is_small(z: i32) -> bool
    requires { Short z }
    ensures { result ≡ small_component z }
{
    let m = raster::magnitude(z);
    m * m < 16384
}

// Writes every component of the map into its byte.
fn write_bytes(map: &[i16], bytes: &mut [i8])
    requires { (length bytes.old ≡ length map.now) × EachStorable map.now }
    ensures { bytes.new ≡ stored map.now }
{
    for i in 0..bytes.len() {
        bytes[i] = to_byte(map[i]);
    }
}

// A component in a byte. Of those that are stored the mark alone is below −128.
fn to_byte(z: i16) -> i8
    requires { is_mark z || small_component z ≡ true }
    ensures { result ≡ to_byte z }
{
    z.max(-128) as i8
}

// ---- read back

// Whether one of the first n pixels is half-marked. Sixteen at a time are looked at as one.
fn has_half_marked(bytes: &[i8], n: usize) -> bool
    requires { 2 * n ≤ length bytes.now }
    ensures { result ≡ any_below n (half_marked bytes.now) }
{
    let blocks = n / 16;
    let found = raster::any_below(blocks, |k| has_half_marked_from(bytes, 16 * k, 16));
    has_half_marked_from(bytes, 16 * blocks, n - 16 * blocks) | found
}

// Whether one of n pixels from `first` on is half-marked.
fn has_half_marked_from(bytes: &[i8], first: usize, n: usize) -> bool
    requires { 2 * (first + n) ≤ length bytes.now }
    ensures { result ≡ any_below n (λ p. half_marked bytes.now (first + p)) }
{
    raster::any_below(n, |p| is_half_marked(bytes, first + p))
}

// Whether one byte alone of pixel p is −128.
fn is_half_marked(bytes: &[i8], p: usize) -> bool
    requires { Inside p bytes.now }
    ensures { result ≡ half_marked bytes.now p }
{
    (bytes[2 * p] == -128) ^ (bytes[2 * p + 1] == -128)
}

// Writes every byte into its component of the map.
fn write_pairs(bytes: &[i8], map: &mut [i16])
    requires { length map.old ≡ length bytes.now }
    ensures { map.new ≡ read_back bytes.now }
{
    for i in 0..map.len() {
        map[i] = from_byte(bytes[i]);
    }
}

// A byte in 16 bits.
fn from_byte(z: i8) -> i16
    ensures { result ≡ from_byte z }
{
    if z == -128 {
        return raster::MARK;
    }
    i16::from(z)
}
