// Expand and shrink (document 01, "Calls", and document 02, C-14), by the exact map.
//
// Shrink turns the sheet round, builds the exact map of its bare pixels and keeps what is farther than q. A bare pixel is within q of itself, so that no test
// of what was copper is needed (`stays_is`). Off the sheet all is bare: the root of q says how many rows and columns along each side are within q of that
// (`inner_is`). Expand has no such rows and columns.

#![tactic(auto)]

ghost use Rattle.std.specs.Prelude.{◌≡◌, ◌+◌, ◌-◌, ◌*◌, ◌≤◌, ◌<◌, length};
ghost use Rattle.raster.specs.Limits.{max_q};
ghost use Rattle.raster.specs.Map.{Inside, unmapped};
ghost use Rattle.raster.specs.Rows.{RowWritten};
ghost use Rattle.raster.specs.Sheet.{copper_of};
ghost use Rattle.exact.specs.Nearest.{exact_map, scratch_need, scratch_left};
ghost use Rattle.morphology.specs.Resize.{expanded, shrunk};
ghost use Rattle.morphology.specs.Threshold.{turned, flipped, level_at, inner, thresholded_at, thresholded, RootUpTo};

// How a sheet of w × h is written by the sizes of a map: `within` where a size is at most q, the other of 0 and 1 where it is more, and `within` in the first
// and last `rim` rows and columns.
#[derive(Clone, Copy)]
struct Threshold {
    w: usize,
    h: usize,
    q: u32,
    within: u8,
    rim: usize,
    ghost sides: { (w ≤ 2048) × (h ≤ 2048) },
    ghost zero_or_one: { within ≤ 1 },
    ghost on_sheet: { rim ≤ w },
}

impl Threshold {
    // What pixel p becomes: `within` where its size is at most q, and 1 − `within` elsewhere.
    fn level(self, map: &[i16], p: usize) -> u8
        requires { Inside p map.now }
        ensures { result ≡ level_at map.now self.q self.within p }
    {
        if raster::size_at(map, p) <= self.q {
            self.within
        } else {
            inverted(self.within)
        }
    }

    // Writes the pixels from `from` to `to` − 1 by their sizes, as `level` says.
    fn write_run(self, map: &[i16], sheet: &mut [u8], from: usize, to: usize)
        requires { (to ≤ length sheet.old) × (length map.now ≡ 2 * length sheet.old) }
        ensures { RowWritten from (to - from) (λ i. level_at map.now self.q self.within (from + i)) sheet.old sheet.new }
    {
        for p in from..to {
            sheet[p] = self.level(map, p);
        }
    }

    // Whether row y is an inner one: `rim` rows or more lie on either side of it.
    fn is_inner(self, y: usize) -> bool
        requires { y ≤ 2048 }
        ensures { result ≡ inner self.rim self.h y }
    {
        (self.rim <= y) & (y + self.rim < self.h)
    }

    // Writes row y: `within` at the rim, by the sizes elsewhere.
    fn write_row(self, map: &[i16], sheet: &mut [u8], y: usize)
        requires row { y < self.h }
        requires sheet_len { (length sheet.old ≡ self.h * self.w) × (length map.now ≡ 2 * (self.h * self.w)) }
        ensures { RowWritten (y * self.w) self.w (λ x. thresholded_at map.now self.w self.h self.q self.within self.rim x y) sheet.old sheet.new }
    {
        let base = y * self.w;
        raster::fill_span(sheet, base, self.w, self.within);
        if self.is_inner(y) {
            self.write_run(map, sheet, base + self.rim, base + (self.w - self.rim));
        }
    }

    // Writes every pixel of the sheet: `within` in the first and last `rim` rows and columns, by its size elsewhere.
    fn write(self, map: &[i16], sheet: &mut [u8])
        requires { (length sheet.old ≡ self.h * self.w) × (length map.now ≡ 2 * (self.h * self.w)) }
        ensures { sheet.new ≡ thresholded map.now self.w self.h self.q self.within self.rim }
    {
        for y in 0..self.h {
            self.write_row(map, sheet, y);
        }
    }
}

// Turns every pixel of the sheet: copper becomes bare, bare copper.
fn flip(sheet: &mut [u8])
    ensures { sheet.new ≡ flipped sheet.old }
{
    for byte in sheet.iter_mut() {
        *byte = inverted(*byte);
    }
}

// One pixel turned: 1 for a bare one, 0 for copper.
fn inverted(byte: u8) -> u8
    ensures { result ≡ turned byte }
{
    u8::from(byte == 0)
}

// The integer square root of q, or n where that is less.
fn root_up_to(q: u32, n: usize) -> usize
    ensures { RootUpTo n q result }
{
    (q.isqrt() as usize).min(n)
}

// Writes the sheet by the sizes of its own exact map. The map is left unlabelled, scratch as after exact. It is inlined, since each caller knows what is
// written within q.
#[inline(always)]
fn resize(sheet: &mut [u8], map: &mut [i16], scratch: &mut [i16], by: Threshold)
    requires sheet_len { (length sheet.old ≡ by.h * by.w) × (length map.old ≡ 2 * (by.h * by.w)) }
    requires scratch_len { scratch_need by.w ≤ length scratch.old }
    ensures sheet_left { sheet.new ≡ thresholded (exact_map (copper_of sheet.old by.w) by.w by.h) by.w by.h by.q by.within by.rim }
    ensures map_left { map.new ≡ unmapped map.old }
    ensures scratch_left { scratch.new ≡ scratch_left by.w scratch.old }
{
    exact::exact(sheet, map, scratch, by.w, by.h);
    by.write(map, sheet);
    raster::clear_map(map);
}

// A pixel is copper afterwards if its true squared distance is at most q. The map is left unlabelled, scratch as after exact.
#[tactic(auto, using(crate::proofs::Resized::expands))]
pub fn expand(sheet: &mut [u8], map: &mut [i16], scratch: &mut [i16], w: usize, h: usize, q: u32)
    requires w_bound { (w ≤ 2048) × ((h ≤ 2048) × (q ≤ max_q)) }
    requires sheet_len { (length sheet.old ≡ h * w) × ((length map.old ≡ 2 * (h * w)) × (scratch_need w ≤ length scratch.old)) }
    ensures sheet_left { sheet.new ≡ expanded w h q sheet.old }
    ensures map_left { map.new ≡ unmapped map.old }
    ensures scratch_left { scratch.new ≡ scratch_left w scratch.old }
{
    let by = Threshold {
        w,
        h,
        q,
        within: 1,
        rim: 0,
    };
    resize(sheet, map, scratch, by);
}

// Copper stays where no bare pixel of the sheet and no place off it is within squared distance q: the exact map of the sheet turned round says how far the
// next bare pixel is, the root of q which pixels are too near to the rim.
#[tactic(auto, using(crate::proofs::Resized::shrinks))]
pub fn shrink(sheet: &mut [u8], map: &mut [i16], scratch: &mut [i16], w: usize, h: usize, q: u32)
    requires w_bound { (w ≤ 2048) × ((h ≤ 2048) × (q ≤ max_q)) }
    requires sheet_len { (length sheet.old ≡ h * w) × ((length map.old ≡ 2 * (h * w)) × (scratch_need w ≤ length scratch.old)) }
    ensures sheet_left { sheet.new ≡ shrunk w h q sheet.old }
    ensures map_left { map.new ≡ unmapped map.old }
    ensures scratch_left { scratch.new ≡ scratch_left w scratch.old }
{
    flip(sheet);
    let by = Threshold {
        w,
        h,
        q,
        within: 0,
        rim: root_up_to(q, w),
    };
    resize(sheet, map, scratch, by);
}
