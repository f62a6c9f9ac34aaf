// est.rs, `decide`, for any numbers at all.
ghost use Rattle.std.specs.Prelude.{◌≡◌};
ghost use Rattle.beside.specs.Decisions.{isFiniteᶜ, Decides};

use cause::Cause;
use dsp::Complex;

fn is_finite(x: Complex) -> bool
    ensures { result ≡ isFiniteᶜ x }
{
    ieee::is_finite(x.re) && ieee::is_finite(x.im)
}

// The unit point nearest to y / h; refused are a code above 3 and a number that is not finite. The code is a number and
// no enum: a call may name one that does not exist, and part 10 of document 01 has it refused as `Cause::Codes`.
#[tactic(auto, unfolding(crate::specs::Decisions::refusal_of, crate::specs::Decisions::point_for))]
pub fn decide(code: u32, y: Complex, h: Complex) -> Result<Complex, Cause>
    ensures { Decides code y h result }
{
    if code > 3 {
        return Err(Cause::Codes);
    }
    if !is_finite(y) || !is_finite(h) {
        return Err(Cause::Numbers);
    }
    Ok(demap::decide(y, h, &points::points(code)))
}
