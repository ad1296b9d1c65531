// What the planner window calls: functions on numbers and byte slices, exported for Rust and C.

#![tactic(auto)]

ghost use Rattle.std.specs.Prelude.{◌≡◌};
ghost use Rattle.std.specs.Result.{result_unwrap_or};
ghost use Rattle.raster.specs.Refusal.{answer_of};
ghost use Rattle.radius.specs.Radius.{radius_answer, radius_q};
ghost use Rattle.planner.specs.Split.{split_of};

use raster::Refusal;

// The answer number, and q beside 0.
#[repr(C)]
#[derive(Clone, Copy)]
pub struct Measured {
    pub answer: u32,
    pub q: u32,
}

impl From<Result<u32, Refusal>> for Measured {
    fn from(measured: Result<u32, Refusal>) -> Measured
        ensures answer { result.answer ≡ answer_of measured }
        ensures q { result.q ≡ result_unwrap_or measured 0 }
    {
        Measured {
            answer: raster::answer(&measured),
            q: measured.unwrap_or(0),
        }
    }
}

// The number of records and 0, or 0 and 19.
#[repr(C)]
#[derive(Clone, Copy)]
pub struct Counted {
    pub records: u32,
    pub answer: u32,
}

impl From<Result<u32, Refusal>> for Counted {
    fn from(counted: Result<u32, Refusal>) -> Counted
        ensures answer { result.answer ≡ answer_of counted }
        ensures records { result.records ≡ result_unwrap_or counted 0 }
    {
        Counted {
            records: counted.unwrap_or(0),
            answer: raster::answer(&counted),
        }
    }
}

// The q of a cutter of radius r where pixels are p apart, both in micrometres, beside the answer 0; or 0 beside 18 or 15.
#[unsafe(no_mangle)]
pub extern "C" fn planner_radius(r: u32, p: u32) -> Measured
    ensures { (result.answer ≡ radius_answer r p) × (result.q ≡ radius_q r p) }
{
    Measured::from(radius::radius(r, p))
}

// The number of records of a job file beside the answer 0; or 0 beside 19.
#[tactic(auto, unfolding(crate::specs::Split::split_of, records::specs::Format::record_count))]
#[unsafe(no_mangle)]
pub extern "C" fn planner_split(job: &[u8]) -> Counted
    ensures { result ≡ split_of job.now }
{
    Counted::from(records::split(job))
}
