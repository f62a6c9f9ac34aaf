// est.rs, `fde`, for any lists at all. A complex number is two of a list.
ghost use Rattle.std.specs.Prelude.{◌≡◌, length};
ghost use Rattle.beside.specs.Equalizations.{bad_lengths, bad_numbers, Equalizing};

use cause::Cause;
use equalize::{Equalized, ReceivedSymbol};
use spread::Spreader;

// `room` is how many numbers z has.
#[tactic(auto, unfolding(crate::specs::Equalizations::bad_lengths))]
fn bad_lengths(y: &[f32], h: &[f32], v: &[f32], room: usize) -> bool
    ensures { result ≡ bad_lengths (length y.now) (length h.now) (length v.now) room }
{
    let m = v.len();
    m == 0 || m > 109 || y.len() != 2 * m || h.len() != 2 * m || room != 2 * m
}

#[tactic(auto, unfolding(crate::specs::Equalizations::bad_numbers))]
fn bad_numbers(y: &[f32], h: &[f32], v: &[f32], gain: f32) -> bool
    ensures { result ≡ bad_numbers y.now h.now v.now gain }
{
    !scan::all_finite(y)
        || !scan::all_finite(h)
        || !scan::all_variances(v)
        || !ieee::is_finite(gain)
}

// Cells y with channel estimates h and variances v of noise and estimation error; the despread symbols go to z.
// The answer is mean gain and variance. Refused are lists that do not fit each other, a number that is not finite
// and a variance below 0.
#[tactic(auto, unfolding(crate::specs::Equalizations::refusal_of))]
pub fn fde(y: &[f32], h: &[f32], v: &[f32], gain: f32, z: &mut [f32]) -> Result<Equalized, Cause>
    ensures { Equalizing y.now h.now v.now gain result z.old z.new }
{
    if bad_lengths(y, h, v, z.len()) {
        return Err(Cause::Lengths);
    }
    if bad_numbers(y, h, v, gain) {
        return Err(Cause::Numbers);
    }
    let r = ReceivedSymbol { y, h, v, gain };
    Ok(equalize::fde(&Spreader::new(v.len()), &r, z))
}
