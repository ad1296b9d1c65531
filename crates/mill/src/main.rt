// The program `mill` (document 01, "Job file"): reads a job from standard input, runs it on sheets of at most 8,192 pixels, and prints its text.

#![tactic(auto)]

ghost use Rattle.std.specs.Prelude.{◌≤◌, length};

use std::io;
use std::io::Read;

// Reads once into the buffer; returns the number of bytes, 0 if the input has ended or the read has failed.
fn read_some(rt: &HostRuntime, buf: &mut [u8]) -> usize
    ensures { result ≤ length buf.new }
{
    rt.stdin().read(buf).unwrap_or(0)
}

// Reads until the buffer is full or nothing more comes; returns the number of bytes.
fn read_full(rt: &HostRuntime, buf: &mut [u8]) -> usize
    ensures { result ≤ length buf.new }
{
    let mut done = 0;
    while done < buf.len() {
        let n = read_some(rt, &mut buf[done..]);
        if n == 0 {
            break;
        }
        done += n;
    }
    done
}

// One more read finds that the input has ended.
fn has_ended(rt: &HostRuntime) -> bool {
    let mut more = [0u8; 1];
    matches!(rt.stdin().read(&mut more), Ok(0))
}

// Reads standard input to its end; returns the number of bytes. A buffer that was filled, or input that cannot be read to its end, counts as all of the
// buffer, which is longer than any job file.
fn read_job(rt: &HostRuntime, job: &mut [u8]) -> usize
    ensures { result ≤ length job.new }
{
    let n = read_full(rt, job);
    if n == job.len() || has_ended(rt) {
        return n;
    }
    job.len()
}

fn main(rt: HostRuntime) -> io::Result<()> {
    // One byte more than a job file may have; sheets of 8,192 pixels; scratch for the widest, 4 × 2,048; nine bytes of text for each of at most 16,384 records.
    let mut file = [0u8; 65537];
    let n = read_job(&rt, &mut file);
    let mut sheet = [0u8; 8192];
    let mut map = [0i16; 16384];
    let mut values = [0u16; 8192];
    let mut scratch = [0i16; 8192];
    let mut out = [0u8; 147456];
    let ran = job::run(
        &file[..n],
        &mut sheet,
        &mut map,
        &mut values,
        &mut scratch,
        &mut out,
    );
    let written = ran.written;
    if Print::write_all(&rt, &out[..written]).is_err() {
        eprintln!(rt; "mill: the text was not written in full")?;
    }
    Ok(())
}
