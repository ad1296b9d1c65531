// Radius and pitch to q (document 01, Calls).

#![tactic(auto)]

ghost use Rattle.std.specs.Prelude.{◌≡◌};
ghost use Rattle.std.specs.Result.{result_unwrap_or};
ghost use Rattle.raster.specs.Refusal.{answer_of};
ghost use Rattle.radius.specs.Radius.{measurable, radius_answer, radius_q};

use raster::Refusal;

// 1 to 20,000 and 1 to 1,000 micrometres.
#[tactic(auto, unfolding(crate::specs::Radius::measurable))]
fn is_measurable(r: u32, p: u32) -> bool
    ensures { result ≡ measurable r p }
{
    (1..=20000).contains(&r) & (1..=1000).contains(&p)
}

// The q of a cutter of radius r where pixels are p apart, both in micrometres. Refusals: 18, r or p outside its limits; 15, q above its limit.
#[tactic(auto, unfolding(crate::specs::Radius::radius_answer, crate::specs::Radius::radius_q, raster::specs::Refusal::first_of), using(crate::specs::Radius::measured))]
pub fn radius(r: u32, p: u32) -> Result<u32, Refusal>
    ensures answered { answer_of result ≡ radius_answer r p }
    ensures measured { result_unwrap_or result 0 ≡ radius_q r p }
{
    if !is_measurable(r, p) {
        return Err(Refusal::Measure);
    }
    let q = r * r / (p * p);
    if q > 4194304 {
        return Err(Refusal::TooWide);
    }
    Ok(q)
}
