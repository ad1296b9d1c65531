// Running a job file (document 01, and document 02, C-12): its records, one after the other, through a session. The public call asks nothing of its caller:
// any bytes, any lengths.
//
// While a job runs, the open sheet has the first n bytes of the sheet buffer, the first 2 × n numbers of the map buffer and the first n of the values buffer;
// the scratch buffer is lent whole.

#![tactic(auto)]

ghost use Rattle.std.specs.Prelude.{◌≡◌, true, List, ◌*◌, ◌≤◌, ℤ, length, min};
ghost use Rattle.cutter.specs.Kinds.{Maps, maps};
ghost use Rattle.records.specs.declared.Record.TheVariants.{Open};
ghost use Rattle.records.specs.Format.{is_job, records_of};
ghost use Rattle.records.specs.Text.{written, Put};
ghost use Rattle.job.specs.Run.{job_state, start_state, sheet_buffer, map_buffers, report_of, state_after, ran_answer, printed, state_left};
ghost use Rattle.job.specs.Execute.{Executed, Buffers};

use raster::Refusal;
use records::Record;
use session::{Reply, Session};

// How many bytes of text were written, and 0; 12 if the text may not fit; 19 if the job does not split.
#[derive(Clone, Copy)]
pub struct Ran {
    pub written: usize,
    pub answer: u32,
}

// The first 2 × n of a slice, or all of a shorter one.
fn first_pairs(n: usize, len: usize) -> usize
    ensures { (result ≡ min (2 * n) len) × (result ≤ len) }
{
    n.saturating_mul(2).min(len)
}

// A session at work, and how many pixels its open sheet has.
#[derive(Clone, Copy)]
struct Running {
    session: Session,
    pixels: usize,
}

impl Running {
    // Takes back the session that a call replied with; returns its answer.
    fn take_back(&mut self, reply: Reply) -> u32
        ensures answer { result ≡ reply.answer }
        ensures session { self.new.session ≡ reply.session }
        ensures pixels { self.new.pixels ≡ self.old.pixels }
    {
        self.session = reply.session;
        reply.answer
    }

    // Opening is lent as much as its sheet needs, or all of a shorter buffer; if it is refused, the former parts stay.
    fn open(&mut self, sheet: &mut [u8], w: u16, h: u16) -> u32
        requires { self.old.pixels ≤ length sheet.old }
        ensures executed { (m : Maps) (scratch : List ℤ)
            → Executed (Open w h) (job_state self.old.session self.old.pixels sheet.old m scratch) result
            (job_state self.new.session self.new.pixels sheet.new m scratch) }
        ensures within { self.new.pixels ≤ length sheet.new }
    {
        let pixels = raster::area(w, h).min(sheet.len());
        let reply = self.session.open_sheet(&mut sheet[..pixels], w, h);
        if reply.answer == 0 {
            self.pixels = pixels;
        }
        self.take_back(reply)
    }

    // Executes any record. A map buffer that is too short is lent whole, for the session to refuse.
    fn execute(
        &mut self,
        given: Record,
        sheet: &mut [u8],
        map: &mut [i16],
        values: &mut [u16],
        scratch: &mut [i16],
    ) -> u32
        requires { self.old.pixels ≤ length sheet.old }
        ensures executed { Executed given
            (job_state self.old.session self.old.pixels sheet.old (maps map.old values.old) scratch.old) result
            (job_state self.new.session self.new.pixels sheet.new (maps map.new values.new) scratch.new) }
        ensures within { self.new.pixels ≤ length sheet.new }
    {
        let s = self.session;
        let n = self.pixels;
        let numbers = first_pairs(n, map.len());
        let entries = n.min(values.len());
        let reply = match given {
            Record::Open(w, h) => return self.open(sheet, w, h),
            Record::Paint(x, y, cols, rows) => s.paint(&mut sheet[..n], x, y, cols, rows),
            Record::Erase(x, y, cols, rows) => s.erase(&mut sheet[..n], x, y, cols, rows),
            Record::Build(engine) => s.build(
                &sheet[..n],
                &mut map[..numbers],
                &mut values[..entries],
                scratch,
                engine,
            ),
            Record::Place(x, y, q) => s.place(&map[..numbers], &values[..entries], x, y, q),
            Record::Run(direction, count) => s.run(
                &map[..numbers],
                &values[..entries],
                direction,
                count,
            ),
            Record::Lift => s.lift(),
            Record::Expand(q) => s.expand(&mut sheet[..n], &mut map[..numbers], scratch, q),
            Record::Shrink(q) => s.shrink(&mut sheet[..n], &mut map[..numbers], scratch, q),
        };
        self.take_back(reply)
    }
}

// All records of a job that splits, from a fresh session, with a line of text for each.
fn run_all(
    job: &[u8],
    sheet: &mut [u8],
    map: &mut [i16],
    values: &mut [u16],
    scratch: &mut [i16],
    out: &mut [u8],
) -> usize
    requires { (is_job job.now ≡ true) × (9 * length (records_of job.now) ≤ length out.old) }
    ensures text { Put out.old 0
        (report_of (records_of job.now)
        (start_state sheet.old (maps map.old values.old) scratch.old)) result out.new }
    ensures buffers { Buffers
        (state_after (records_of job.now)
        (start_state sheet.old (maps map.old values.old) scratch.old))
        sheet.new (maps map.new values.new) scratch.new }
{
    let mut running = Running {
        session: Session::fresh(),
        pixels: 0,
    };
    let mut rest = job;
    let mut i = 0;
    let mut end = 0;
    while let Some((record, length)) = records::read(rest) {
        let answer = running.execute(record, sheet, map, values, scratch);
        i += 1;
        end = records::put_line(out, end, i, answer);
        rest = &rest[length..];
    }
    end
}

// Runs a job from a fresh session and writes the text of its answers. The job is split whole before anything runs. An opening is lent the first bytes and
// numbers that its sheet needs of the sheet, map and values buffers, or all of shorter ones, whose length is then wrong. A text that may not fit runs nothing.
pub fn run(
    job: &[u8],
    sheet: &mut [u8],
    map: &mut [i16],
    values: &mut [u16],
    scratch: &mut [i16],
    out: &mut [u8],
) -> Ran
    ensures answered { result.answer ≡ ran_answer job.now out.old }
    ensures counted { result.written ≡ length (printed job.now
        (start_state sheet.old (maps map.old values.old) scratch.old) out.old) }
    ensures out_left { out.new ≡ written (printed job.now
        (start_state sheet.old (maps map.old values.old) scratch.old) out.old)
        out.old }
    ensures sheet_left { sheet.new ≡ sheet_buffer (state_left job.now out.old
        (start_state sheet.old (maps map.old values.old) scratch.old)) }
    ensures map_left { map.new ≡ (map_buffers (state_left job.now out.old
        (start_state sheet.old (maps map.old values.old) scratch.old))).pairs }
    ensures values_left { values.new ≡ (map_buffers (state_left job.now out.old
        (start_state sheet.old (maps map.old values.old) scratch.old))).values }
    ensures scratch_left { scratch.new ≡ (state_left job.now out.old
        (start_state sheet.old (maps map.old values.old) scratch.old)).scratch }
{
    let records = match records::split(job) {
        Ok(records) => records,
        Err(refusal) => {
            if out.len() < 5 {
                return Ran {
                    written: 0,
                    answer: Refusal::Length.number(),
                };
            }
            let answer = refusal.number();
            return Ran {
                written: records::put_line(out, 0, 0, answer),
                answer,
            };
        }
    };
    if out.len() < 9 * (records as usize) {
        return Ran {
            written: 0,
            answer: Refusal::Length.number(),
        };
    }
    Ran {
        written: run_all(job, sheet, map, values, scratch, out),
        answer: 0,
    }
}
