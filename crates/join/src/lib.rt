// Two artworks on one sheet (document 02, C-21): two maps of one size are joined into a third, with no rebuild. The call takes no session.

#![tactic(auto)]

ghost use Rattle.std.specs.Prelude.{◌≡◌, ◌*◌, ◌<◌, ◌≤◌, length};
ghost use Rattle.raster.specs.Map.{Inside, dx_at, dy_at, put};
ghost use Rattle.raster.specs.Refusal.{first_of, on_done, answer_of};
ghost use Rattle.raster.specs.Vector.{Short};
ghost use Rattle.join.specs.Bits.{word_dx, word_dy};
ghost use Rattle.join.specs.Joined.{left_or_above, second_taken, taken_from, joined, join_table};

use raster::Refusal;

// Joins two maps of w × h pixels: at each pixel the labelled vector, of two labelled ones the smaller, among equals that of the smaller dx, then of the smaller
// dy. Refusals: 11, a side; 12, the length of a slice.
#[tactic(auto, unfolding(crate::specs::Joined::join_table, raster::specs::Refusal::first_of))]
pub fn join(
    w: u16,
    h: u16,
    first: &[i16],
    second: &[i16],
    target: &mut [i16],
) -> Result<(), Refusal>
    ensures answered { answer_of result ≡ first_of (join_table w h first.now second.now target.old) }
    ensures target_left { target.new ≡ on_done (answer_of result) (joined first.now second.now) target.old }
{
    if !(raster::is_side(w) & raster::is_side(h)) {
        return Err(Refusal::Side);
    }
    let pixels = raster::area(w, h);
    let n = 2 * pixels;
    if !((first.len() == n) & ((second.len() == n) & (target.len() == n))) {
        return Err(Refusal::Length);
    }
    join_pixels(first, second, target, pixels);
    Ok(())
}

// Joins the n pixels of two maps.
fn join_pixels(first: &[i16], second: &[i16], target: &mut [i16], n: usize)
    requires { (length first.now ≡ 2 * n) × ((length second.now ≡ 2 * n) × (length target.old ≡ 2 * n)) }
    ensures { target.new ≡ joined first.now second.now }
{
    for p in 0..n {
        put_word(target, p, joined_word(first, second, p));
    }
}

// The vector that is taken at pixel p, as a word. The compiler does several pixels at a time, since a word is chosen as a whole.
fn joined_word(first: &[i16], second: &[i16], p: usize) -> u32
    requires { Inside p first.now × Inside p second.now }
    ensures dx { word_dx result ≡ dx_at (taken_from first.now second.now p) p }
    ensures dy { word_dy result ≡ dy_at (taken_from first.now second.now p) p }
{
    if takes_second(first, second, p) {
        return word_at(second, p);
    }
    word_at(first, p)
}

// Whether the second map's vector is taken at pixel p. An unlabelled one is larger than any other, so the sizes decide.
fn takes_second(first: &[i16], second: &[i16], p: usize) -> bool
    requires { Inside p first.now × Inside p second.now }
    ensures { result ≡ second_taken (dx_at first.now p) (dy_at first.now p) (dx_at second.now p) (dy_at second.now p) }
{
    let s = raster::size_at(first, p);
    let t = raster::size_at(second, p);
    let left_or_above = is_left_or_above(
        raster::dx_at(second, p),
        raster::dy_at(second, p),
        raster::dx_at(first, p),
        raster::dy_at(first, p),
    );
    (t < s) | ((t == s) & left_or_above)
}

// Whether ax is smaller than bx, or the same and ay smaller than by. Each pair is compared as one number, since ay + 32768 and by + 32768 are below 65536 and
// not negative: two comparisons, or the order of tuples, take more time in the loop over pixels.
fn is_left_or_above(ax: i32, ay: i32, bx: i32, by: i32) -> bool
    requires { (Short ax × Short ay) × (Short bx × Short by) }
    ensures { result ≡ left_or_above ax ay bx by }
{
    65536 * ax + (ay + 32768) < 65536 * bx + (by + 32768)
}

// ---- words

// The vector at pixel p as a word.
fn word_at(map: &[i16], p: usize) -> u32
    requires { Inside p map.now }
    ensures { (word_dx result ≡ dx_at map.now p) × (word_dy result ≡ dy_at map.now p) }
{
    u32::from(map[2 * p].cast_unsigned()) + 65536 * u32::from(map[2 * p + 1].cast_unsigned())
}

// Writes the vector of a word at pixel p.
#[tactic(auto, unfolding(raster::specs::Map::put))]
fn put_word(map: &mut [i16], p: usize, word: u32)
    requires { Inside p map.old }
    ensures { map.new ≡ put p (word_dx word) (word_dy word) map.old }
{
    map[2 * p] = ((word % 65536) as u16).cast_signed();
    map[2 * p + 1] = ((word / 65536) as u16).cast_signed();
}
