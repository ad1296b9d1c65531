// The scans 4SED and 8SED (document 01, "Engines"), in the map itself.
//
// What a row takes from the row before and its sweep to the right go in one pass: the vector that the sweep carries along is then in the hand. The pass leaves
// the keys of the row in a working row, so that the sweep to the left multiplies nothing. After its two sweeps a row is labelled throughout or not at all; so a
// look at its first pixel tells whether there is anything to take from it.
//
// The engines differ in one step alone, what a row takes from a labelled row before it. So the scans are written once, for any `Neighbours`.
//
// Each function asks that the labelled vectors of the map end on the sheet. Candidates keep that, so no number grows too large, and none is tested.

#![tactic(auto)]

ghost use Rattle.std.specs.Prelude.{◌≡◌, true, false, Bool, ◌*◌, ◌≤◌, ◌<◌, length, IfSome};
ghost use Rattle.raster.specs.Limits.{max_side};
ghost use Rattle.raster.specs.Vector.{Short, UnitStep};
ghost use Rattle.raster.specs.Loop.{ascend, descend};
ghost use Rattle.candidate.specs.OnSheet.{OnSheet};
ghost use Rattle.scan.specs.Scan.{seed, seeds, rightward, leftward, from_row, down_row, up_row, scanned};
ghost use Rattle.scan.specs.Rows.{Labelled, Level, Keys, RowOf, RowsOf, Beside, entered};

// The keys of the row at hand, for as many pixels as the longest row has.
#[derive(Drop)]
struct RowKeys {
    of: [u64; 2048],
}

// ---- the two sweeps of a row

// Row y of a map of width w: left to right, each pixel from its left neighbour.
fn rightward(map: &mut [i16], keys: &mut RowKeys, w: usize, y: usize)
    requires { RowOf w y map.old }
    ensures written { map.new ≡ rightward w y map.old }
    ensures known { Keys w y w keys.new.of map.new }
{
    let base = y * w;
    let mut last = candidate::read(map, base);
    keys.of[0] = last.key;
    for x in 1..w {
        let own = candidate::read(map, base + x);
        last = candidate::relax(map, base + x, own.key, last, -1);
        keys.of[x] = last.key;
    }
}

// Row y of a map of width w, the keys of which are known: right to left, each pixel from its right neighbour.
fn leftward(map: &mut [i16], keys: &RowKeys, w: usize, y: usize)
    requires row { RowOf w y map.old }
    requires known { Keys w y w keys.now.of map.old }
    ensures { map.new ≡ leftward w y map.old }
{
    let base = y * w;
    let mut last = candidate::recall(map, base + (w - 1), keys.of[w - 1]);
    for x in (0..w - 1).rev() {
        last = candidate::relax(map, base + x, keys.of[x], last, 1);
    }
}

// ---- from row to row, and on to the right: o, or O, is −1 from the row above and 1 from the row below

// Which neighbours in the row before an engine looks at.
trait Neighbours {
    // also the two at the corners
    ghost corners: { Bool };

    // Every pixel of row y from its neighbours in the row before, which is labelled, and then from its left neighbour. It is inlined, so that o is a constant
    // in its loop.
    fn from_labelled(map: &mut [i16], keys: &mut RowKeys, w: usize, y: usize, before: usize, o: i32)
        requires row { RowOf w y map.old }
        requires rows { Beside w y before o map.old }
        requires labelled { Labelled w before map.old }
        ensures written { map.new ≡ rightward w y (from_row w corners y before o map.old) }
        ensures known { Keys w y w keys.new.of map.new };
}

struct FourSed;

struct EightSed;

// 4SED: every pixel from the one beside it in the row before.
impl Neighbours for FourSed {
    ghost corners = { false };

    #[inline(always)]
    fn from_labelled(
        map: &mut [i16],
        keys: &mut RowKeys,
        w: usize,
        y: usize,
        before: usize,
        o: i32,
    ) {
        let mut last = candidate::nothing();
        for x in 0..w {
            let mid = candidate::ahead(map, before * w + x, o);
            last = candidate::straight(map, y * w + x, mid, last);
            keys.of[x] = last.key;
        }
    }
}

// 8SED: every pixel from the three beside it in the row before, each of which is read once.
impl Neighbours for EightSed {
    ghost corners = { true };

    #[inline(always)]
    fn from_labelled(
        map: &mut [i16],
        keys: &mut RowKeys,
        w: usize,
        y: usize,
        before: usize,
        o: i32,
    ) {
        let start = before * w;
        let mut last = candidate::nothing();
        let mut left = candidate::nothing();
        let mut mid = candidate::ahead(map, start, o);
        for x in 0..w - 1 {
            let right = candidate::ahead(map, start + (x + 1), o);
            last = candidate::three(map, y * w + x, left, mid, right, last);
            keys.of[x] = last.key;
            left = mid;
            mid = right;
        }
        last = candidate::three(map, y * w + (w - 1), left, mid, candidate::nothing(), last);
        keys.of[w - 1] = last.key;
    }
}

// Row y from the row before, if there is one, and then left to right. As its first pixel, so the whole row before is labelled or not; if not, it gives nothing.
fn from_before<E: Neighbours, const O: i32>(
    map: &mut [i16],
    keys: &mut RowKeys,
    w: usize,
    y: usize,
    before: Option<usize>,
)
    requires row { RowOf w y map.old }
    requires rows { IfSome before (λ b. Beside w y b O map.old × Level w b map.old) }
    ensures written { map.new ≡ rightward w y (entered w E.corners y before O map.old) }
    ensures known { Keys w y w keys.new.of map.new }
{
    match before {
        Some(b) if !raster::unlabelled_at(map, b * w) => E::from_labelled(map, keys, w, y, b, O),
        _ => rightward(map, keys, w, y),
    }
}

// Row y from the row before, and both sweeps.
fn sweep_row<E: Neighbours, const O: i32>(
    map: &mut [i16],
    keys: &mut RowKeys,
    w: usize,
    y: usize,
    before: Option<usize>,
)
    requires row { RowOf w y map.old }
    requires rows { IfSome before (λ b. Beside w y b O map.old × Level w b map.old) }
    ensures written { map.new ≡ leftward w y (rightward w y (entered w E.corners y before O map.old)) }
    ensures on_sheet { OnSheet w map.new }
    ensures level { Level w y map.new }
{
    from_before::<E, O>(map, keys, w, y, before);
    leftward(map, keys, w, y);
}

// ---- the scans

// Scan one, rows top to bottom.
fn scan_down<E: Neighbours>(map: &mut [i16], keys: &mut RowKeys, w: usize, h: usize)
    requires { RowsOf w h map.old }
    ensures written { map.new ≡ ascend (down_row w E.corners) h map.old }
    ensures rows { RowsOf w h map.new }
{
    let mut before = None;
    for y in 0..h {
        sweep_row::<E, -1>(map, keys, w, y, before);
        before = Some(y);
    }
}

// Scan two, rows bottom to top.
fn scan_up<E: Neighbours>(map: &mut [i16], keys: &mut RowKeys, w: usize, h: usize)
    requires { RowsOf w h map.old }
    ensures { map.new ≡ descend (up_row w E.corners h) h map.old }
{
    let mut before = None;
    for y in (0..h).rev() {
        sweep_row::<E, 1>(map, keys, w, y, before);
        before = Some(y);
    }
}

// The component that a byte starts with.
fn seed_of(byte: u8) -> i32
    ensures { (result ≡ seed byte) × Short result }
{
    if byte == 0 {
        i32::from(raster::MARK)
    } else {
        0
    }
}

// Copper at (0, 0), the rest unlabelled.
fn write_seeds(sheet: &[u8], map: &mut [i16])
    requires { length map.old ≡ 2 * length sheet.now }
    ensures { map.new ≡ seeds sheet.now }
{
    for (p, byte) in sheet.iter().enumerate() {
        let v = seed_of(*byte);
        raster::put_at(map, p, v, v);
    }
}

// The map of a sheet of w × h pixels by the engine E.
fn scan_by<E: Neighbours>(sheet: &[u8], map: &mut [i16], keys: &mut RowKeys, w: usize, h: usize)
    requires w_nonzero { (0 < w) × ((w ≤ max_side) × (h ≤ max_side)) }
    requires sheet_len { (length sheet.now ≡ h * w) × (length map.old ≡ 2 * (h * w)) }
    ensures { map.new ≡ scanned w E.corners h sheet.now }
{
    write_seeds(sheet, map);
    scan_down::<E>(map, keys, w, h);
    scan_up::<E>(map, keys, w, h);
}

// The map of a sheet of w × h pixels by 8SED (`corners`) or 4SED.
pub fn scan(sheet: &[u8], map: &mut [i16], w: usize, h: usize, corners: bool)
    requires w_nonzero { (0 < w) × ((w ≤ max_side) × (h ≤ max_side)) }
    requires sheet_len { (length sheet.now ≡ h * w) × (length map.old ≡ 2 * (h * w)) }
    ensures { map.new ≡ scanned w corners h sheet.now }
{
    let mut keys = RowKeys { of: [0; 2048] };
    if corners {
        scan_by::<EightSed>(sheet, map, &mut keys, w, h);
    } else {
        scan_by::<FourSed>(sheet, map, &mut keys, w, h);
    }
}
