// The job file (document 01): splitting its bytes into records, reading a record's fields, and the text of its answers. Splitting asks nothing of its caller:
// any bytes, any lengths.

#![tactic(auto)]

ghost use Rattle.std.specs.Prelude.{◌≡◌, [], ◌∷◌, ◌+◌, ◌≤◌, ◌<◌, length};
ghost use Rattle.records.specs.Format.{word, long, length_of, length_here, some_length, Here, record_here, read_here, record_count};
ghost use Rattle.records.specs.Text.{decimal_digits, answer_line, Put};

use raster::Refusal;

// A record, with its fields in their order.
#[derive(Clone, Copy)]
pub enum Record {
    Open(u16, u16),
    Paint(u16, u16, u16, u16),
    Erase(u16, u16, u16, u16),
    Build(u16),
    Place(u16, u16, u32),
    Run(u16, u16),
    Lift,
    Expand(u32),
    Shrink(u32),
}

// ---- reading a record

// The 16-bit number at place i.
fn word_at(bytes: &[u8], i: usize) -> u16
    requires { i + 1 < length bytes.now }
    ensures { result ≡ word bytes.now i }
{
    u16::from_le_bytes([bytes[i], bytes[i + 1]])
}

// The 32-bit number there.
fn long_at(bytes: &[u8], i: usize) -> u32
    requires { i + 3 < length bytes.now }
    ensures { result ≡ long bytes.now i }
{
    u32::from_le_bytes([bytes[i], bytes[i + 1], bytes[i + 2], bytes[i + 3]])
}

// The whole length of a record of a kind, if there is that kind.
#[tactic(auto, unfolding(crate::specs::Format::length_of))]
fn length_of(kind: u16) -> Option<usize>
    ensures { result ≡ some_length (length_of kind) }
{
    match kind {
        2 | 3 | 5 => Some(12),
        4 => Some(6),
        7 => Some(4),
        1 | 6 | 8 | 9 => Some(8),
        _ => None,
    }
}

// The length of the record at the front.
#[tactic(auto, unfolding(crate::specs::Format::length_here))]
fn length_here(bytes: &[u8]) -> Option<usize>
    ensures { result ≡ some_length (length_here bytes.now) }
{
    if bytes.len() < 4 {
        return None;
    }
    let length = length_of(word_at(bytes, 2))?;
    if usize::from(word_at(bytes, 0)) == length && length <= bytes.len() {
        Some(length)
    } else {
        None
    }
}

// The record at the front, by its kind.
#[tactic(auto, unfolding(crate::specs::Format::length_of, crate::specs::Format::record_here))]
fn record_here(bytes: &[u8]) -> Record
    requires { Here bytes.now }
    ensures { result ≡ record_here bytes.now }
{
    match word_at(bytes, 2) {
        1 => Record::Open(word_at(bytes, 4), word_at(bytes, 6)),
        2 => Record::Paint(
            word_at(bytes, 4),
            word_at(bytes, 6),
            word_at(bytes, 8),
            word_at(bytes, 10),
        ),
        3 => Record::Erase(
            word_at(bytes, 4),
            word_at(bytes, 6),
            word_at(bytes, 8),
            word_at(bytes, 10),
        ),
        4 => Record::Build(word_at(bytes, 4)),
        5 => Record::Place(word_at(bytes, 4), word_at(bytes, 6), long_at(bytes, 8)),
        6 => Record::Run(word_at(bytes, 4), word_at(bytes, 6)),
        7 => Record::Lift,
        8 => Record::Expand(long_at(bytes, 4)),
        _ => Record::Shrink(long_at(bytes, 4)),
    }
}

// The record at the front with its length, if a whole one stands there.
#[tactic(auto, unfolding(crate::specs::Format::read_here), using(crate::specs::FormatLaws::some_is))]
pub fn read(bytes: &[u8]) -> Option<(Record, usize)>
    ensures { result ≡ read_here bytes.now }
{
    let length = length_here(bytes)?;
    Some((record_here(bytes), length))
}

// ---- splitting

// Splits the bytes of a job file into so many records. Refusal: 19, the bytes are no job file.
#[tactic(auto, unfolding(crate::specs::Format::record_count, crate::specs::Format::is_job))]
pub fn split(job: &[u8]) -> Result<u32, Refusal>
    ensures { result ≡ record_count job.now }
{
    if 65536 < job.len() {
        return Err(Refusal::NotAJob);
    }
    let mut rest = job;
    let mut records = 0;
    while !rest.is_empty() {
        let Some(length) = length_here(rest) else {
            return Err(Refusal::NotAJob);
        };
        rest = &rest[length..];
        records += 1;
    }
    Ok(records)
}

// ---- writing the text

// Writes one byte; returns the place behind it, as all of these do.
fn put_byte(out: &mut [u8], at: usize, byte: u8) -> usize
    requires { at < length out.old }
    ensures { Put out.old at (byte ∷ []) result out.new }
{
    out[at] = byte;
    at + 1
}

// The digit of a number below ten.
fn digit(n: u32) -> u8
    requires { n < 10 }
    ensures { result ≡ 48 + n }
{
    b'0' + (n as u8)
}

// Writes the last decimal digits of n, at most so many.
fn put_number(out: &mut [u8], at: usize, n: u32, most: usize) -> usize
    requires { at + length (decimal_digits most n) ≤ length out.old }
    ensures { Put out.old at (decimal_digits most n) result out.new }
{
    if most == 0 {
        return at;
    }
    if n < 10 {
        return put_byte(out, at, digit(n));
    }
    let end = put_number(out, at, n / 10, most - 1);
    put_byte(out, end, digit(n % 10))
}

// Writes the line of a record.
pub fn put_line(out: &mut [u8], at: usize, number: u32, answer: u32) -> usize
    requires { at + length (answer_line number answer) ≤ length out.old }
    ensures { Put out.old at (answer_line number answer) result out.new }
{
    let numbered = put_number(out, at, number, 10);
    let spaced = put_byte(out, numbered, b' ');
    let answered = put_number(out, spaced, answer, 10);
    put_byte(out, answered, b'\n')
}
