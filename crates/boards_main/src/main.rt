// Shows what the library makes of small sheets: the maps by both scans, of document 01's 4 × 4 board, of document 02's 2 × 2 board, where at pixel (1, 1) two
// vectors have one size, and of sheets of one row and one column; the three maps of values of the 4 × 4 board; the exact maps of document 01's boards M1, M5
// and M6; both maps of a sheet of 14 × 8 whose three copper pixels stand like an arrow-head: there 8SED is wrong at pixel (0, 0), where it finds the size 170
// and the true one is 169; sheets with the skeleton of their exact maps and the sheet rebuilt from it, which is the bare pixels again: M7, and a board of 24
// × 9 with two pads, a track between them and a via; document 02's 3 × 3 board shrunk by 1, of which its middle is left, and by 0, which leaves it whole; and
// the README's example.

#![tactic(auto)]

ghost use Rattle.std.specs.Prelude.{◌≡◌, ◌*◌, ◌≤◌, ◌<◌, length};

use chamfer::Draft;
use session::Session;
use std::{fmt, io};

// ---- maps and sheets as text

// The vector of a pixel, or a dash where it is unlabelled.
#[derive(Clone, Copy)]
struct Vector {
    dx: i16,
    dy: i16,
}

impl fmt::Display for Vector {
    fn fmt<W: fmt::Write>(&self, f: &mut fmt::Formatter<W>) -> fmt::Result {
        if (self.dx == raster::MARK) & (self.dy == raster::MARK) {
            return f.write_str("-");
        }
        write!(f, "({},{})", self.dx, self.dy)
    }
}

// A map of width w, a row to a line.
fn show_map(rt: &impl Print, map: &[i16], w: usize) -> io::Result<()>
    requires { (0 < w) × (w ≤ 2048) }
{
    for row in map.chunks_exact(2 * w) {
        for pair in row.chunks_exact(2) {
            let vector = Vector {
                dx: pair[0],
                dy: pair[1],
            };
            print!(rt; " {vector}")?;
        }
        println!(rt)?;
    }
    Ok(())
}

// A sheet of width w as a picture, a row to a line: a dot for 0, a hash for any other byte.
fn show_sheet(rt: &impl Print, sheet: &[u8], w: usize) -> io::Result<()>
    requires { 0 < w }
{
    for row in sheet.chunks_exact(w) {
        for byte in row {
            print!(rt; "{}", if *byte == 0 { '.' } else { '#' })?;
        }
        println!(rt)?;
    }
    Ok(())
}

// ---- the scans

// One sheet, by one scan.
fn show_scan(rt: &impl Print, sheet: &[u8], w: usize, h: usize, corners: bool) -> io::Result<()>
    requires w_nonzero { (0 < w) × ((w ≤ 2048) × (h ≤ 2048)) }
    requires sheet_len { (length sheet.now ≡ h * w) × (length sheet.now ≤ 112) }
{
    let mut numbers = [0i16; 224];
    let map = &mut numbers[..2 * sheet.len()];
    scan::scan(sheet, map, w, h, corners);
    println!(rt; "{}", if corners { "8SED" } else { "4SED" })?;
    show_map(rt, map, w)
}

fn scanned_board(rt: &impl Print) -> io::Result<()> {
    let sheet = [0, 0, 0, 1, 0, 0, 0, 0, 0, 0, 1, 0, 1, 0, 0, 0];
    show_scan(rt, &sheet, 4, 4, false)?;
    show_scan(rt, &sheet, 4, 4, true)
}

fn scanned_corner(rt: &impl Print) -> io::Result<()> {
    let sheet = [0, 1, 1, 0];
    show_scan(rt, &sheet, 2, 2, false)?;
    show_scan(rt, &sheet, 2, 2, true)
}

fn scanned_lines(rt: &impl Print) -> io::Result<()> {
    let sheet = [1, 0, 0];
    show_scan(rt, &sheet, 3, 1, false)?;
    show_scan(rt, &sheet, 3, 1, true)?;
    show_scan(rt, &sheet, 1, 3, false)?;
    show_scan(rt, &sheet, 1, 3, true)
}

fn scanned_bare(rt: &impl Print) -> io::Result<()> {
    show_scan(rt, &[0, 0, 0], 3, 1, true)
}

// ---- maps of values

// A map of values of width w, a row to a line, with a dash for an unlabelled pixel.
fn show_values(rt: &impl Print, values: &[u16], w: usize) -> io::Result<()>
    requires { 0 < w }
{
    for row in values.chunks_exact(w) {
        for value in row {
            if *value == 65535 {
                print!(rt; " -")?;
            } else {
                print!(rt; " {value}")?;
            }
        }
        println!(rt)?;
    }
    Ok(())
}

// Document 01's 4 × 4 board by an engine of draft maps.
fn draft_board(rt: &impl Print, engine: Draft) -> io::Result<()> {
    let sheet = [0, 0, 0, 1, 0, 0, 0, 0, 0, 0, 1, 0, 1, 0, 0, 0];
    let mut values = [0u16; 16];
    chamfer::chamfer(&sheet, &mut values, 4, 4, engine.weights());
    show_values(rt, &values, 4)?;
    println!(rt)
}

// ---- the exact map

// One sheet.
fn show_exact(rt: &impl Print, sheet: &[u8], w: usize, h: usize) -> io::Result<()>
    requires w_nonzero { (0 < w) × ((w ≤ 14) × (h ≤ 2048)) }
    requires sheet_len { (length sheet.now ≡ h * w) × (length sheet.now ≤ 112) }
{
    let mut numbers = [0i16; 224];
    let map = &mut numbers[..2 * sheet.len()];
    let mut scratch = [0i16; 56];
    exact::exact(sheet, map, &mut scratch, w, h);
    show_map(rt, map, w)?;
    println!(rt)
}

fn exact_board(rt: &impl Print) -> io::Result<()> {
    let sheet = [0, 0, 0, 1, 0, 0, 0, 0, 0, 0, 1, 0, 1, 0, 0, 0];
    show_exact(rt, &sheet, 4, 4)
}

fn exact_row(rt: &impl Print, first: u8, last: u8) -> io::Result<()> {
    show_exact(rt, &[first, 0, last], 3, 1)
}

fn arrow_head(rt: &impl Print) -> io::Result<()> {
    let mut sheet = [0u8; 112];
    sheet[27] = 1;
    sheet[82] = 1;
    sheet[109] = 1;
    show_scan(rt, &sheet, 14, 8, true)?;
    show_exact(rt, &sheet, 14, 8)
}

// ---- skeleton and rebuild

fn picture(rt: &impl Print, sheet: &[u8], w: usize) -> io::Result<()>
    requires { 0 < w }
{
    show_sheet(rt, sheet, w)?;
    println!(rt)
}

// The sheet, its skeleton and what is rebuilt from that.
fn show_skeleton(rt: &impl Print, sheet: &[u8], w: usize, h: usize) -> io::Result<()>
    requires w_nonzero { (0 < w) × ((w ≤ 24) × (h ≤ 2048)) }
    requires sheet_len { (length sheet.now ≡ h * w) × (length sheet.now ≤ 216) }
{
    let n = sheet.len();
    let mut numbers = [0i16; 432];
    let map = &mut numbers[..2 * n];
    let mut scratch = [0i16; 96];
    exact::exact(sheet, map, &mut scratch, w, h);
    let mut mark_bytes = [0u8; 216];
    let marks = &mut mark_bytes[..n];
    skeleton::skeleton(map, marks, w, h);
    let mut out_bytes = [0u8; 216];
    let out = &mut out_bytes[..n];
    rebuild::rebuild(map, marks, out, w, h);
    picture(rt, sheet, w)?;
    picture(rt, marks, w)?;
    picture(rt, out, w)
}

fn five_in_a_row(rt: &impl Print) -> io::Result<()> {
    show_skeleton(rt, &[1, 0, 0, 0, 1], 5, 1)
}

fn drawn(rt: &impl Print) -> io::Result<()> {
    let mut sheet = [0u8; 216];
    raster::fill_rectangle(&mut sheet, 24, 9, 1, 1, 3, 3, 1);
    raster::fill_rectangle(&mut sheet, 24, 9, 4, 2, 14, 1, 1);
    raster::fill_rectangle(&mut sheet, 24, 9, 18, 1, 4, 3, 1);
    raster::fill_rectangle(&mut sheet, 24, 9, 9, 7, 1, 1, 1);
    show_skeleton(rt, &sheet, 24, 9)
}

// ---- a sheet of 3 × 3, copper everywhere, shrunk by q

fn shrunk_whole(rt: &impl Print, q: u32) -> io::Result<()>
    requires { q ≤ 1 }
{
    let mut sheet = [1u8; 9];
    let mut map = [0i16; 18];
    let mut scratch = [0i16; 12];
    morphology::shrink(&mut sheet, &mut map, &mut scratch, 3, 3, q);
    picture(rt, &sheet, 3)
}

// ---- the session: a sheet of 4 × 4 with one copper pixel at (3, 0), its exact map, and two cutters at (0, 0), where the size is 9

fn say(rt: &impl Print, answer: u32) -> io::Result<()> {
    println!(rt; "{}", if answer == 0 { "placed" } else { "refused" })
}

fn readme(rt: &impl Print) -> io::Result<()> {
    let mut sheet = [0u8; 16];
    let mut map = [0i16; 32];
    let mut values = [0u16; 16];
    let mut scratch = [0i16; 16];
    let opened = Session::fresh().open_sheet(&mut sheet, 4, 4);
    let painted = opened.session.paint(&mut sheet, 3, 0, 1, 1);
    let built = painted
        .session
        .build(&sheet, &mut map, &mut values, &mut scratch, 1);
    show_map(rt, &map, 4)?;
    say(rt, built.session.place(&map, &values, 0, 0, 8).answer)?;
    say(rt, built.session.place(&map, &values, 0, 0, 9).answer)
}

fn main(rt: HostRuntime) -> io::Result<()> {
    scanned_board(&rt)?;
    scanned_corner(&rt)?;
    scanned_lines(&rt)?;
    scanned_bare(&rt)?;
    draft_board(&rt, Draft::CityBlock)?;
    draft_board(&rt, Draft::Chessboard)?;
    draft_board(&rt, Draft::Chamfer)?;
    exact_board(&rt)?;
    exact_row(&rt, 1, 0)?;
    exact_row(&rt, 1, 1)?;
    arrow_head(&rt)?;
    five_in_a_row(&rt)?;
    drawn(&rt)?;
    shrunk_whole(&rt, 1)?;
    shrunk_whole(&rt, 0)?;
    readme(&rt)
}
