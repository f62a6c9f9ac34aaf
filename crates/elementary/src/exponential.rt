ghost use Rattle.std.specs.Prelude.{◌≡◌, ◌<◌, ◌≤◌};
ghost use Rattle.elementary.specs.Domain.{NotAbove};
ghost use Rattle.elementary.specs.FixedPoint.{M, L};
ghost use Rattle.elementary.specs.Exp.{exp_sum, exp_at};

use crate::fixed::{L, M, fixed_bits};

// P, by Horner's rule: e ^ -(f / M) at the scale M.
#[tactic(auto, using(crate::proofs::TurnBounds::exp_turns), unfolding(crate::specs::Exp::exp_sum))]
fn horner(f: u64) -> u64
    requires { f < L }
    ensures { (result ≡ exp_sum f) × ((0 < result) × (result ≤ M)) }
{
    let mut p: u64 = M;
    // j is the divisor.
    for j in (1..=12).rev() {
        p = M - f * p / M / j;
    }
    p
}

// e ^ x for an x that is not above zero.
pub fn exp(x: f32) -> f32
    requires { NotAbove x }
    ensures { result ≡ exp_at x }
{
    if x.is_nan() {
        return f32::NAN;
    }
    if x < -87.0 {
        return 0.0;
    }
    let q = fixed_bits(f32::to_bits(x));
    let n = q / L;
    let p = horner(q - n * L);
    ieee::narrow((p as f64) * f64::from_bits((991 - n) * 0x10_0000_0000_0000))
}
