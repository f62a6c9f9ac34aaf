ghost use Rattle.std.specs.Prelude.{◌≡◌, ◌^◌, ◌<◌, ◌≤◌};
ghost use Rattle.std.specs.Float.Ieee as Ieee;
ghost use Rattle.std.specs.Float.{binary32};
ghost use Rattle.elementary.specs.Domain.{FromLeast, InUnit};
ghost use Rattle.elementary.specs.Ln.{odd_sum, odd_of, ln_at, ln1p_at};

use crate::fixed::{L, M, fixed_bits, over_m, over32};

// 127 L.
const BIAS: u64 = 127 * L;

// The turns of S, with w for W.
#[tactic(auto, using(crate::proofs::TurnBounds::odd_turns), unfolding(crate::specs::Ln::odd_sum))]
fn odd_series(w: u64) -> u64
    requires { w ≤ 2 ^ 30 }
    ensures { (result ≡ odd_sum w) × (result ≤ 2 ^ 33) }
{
    let mut s: u64 = 0;
    // j makes the odd divisor.
    for j in (0..11).rev() {
        s = M / (2 * j + 1) + w * s / M;
    }
    s
}

// Odd(z).
#[tactic(auto, using(crate::proofs::TurnBounds::odd_last), unfolding(crate::specs::Ln::odd_of))]
fn odd(z: u64) -> u64
    requires { z < 2 ^ 31 }
    ensures { (result ≡ odd_of z) × (result ≤ 2 ^ 33) }
{
    2 * (z * odd_series(z * z / M) / M)
}

// The logarithm of the f32 of the pattern b, which is normal and above zero. The exponent field x is
// e + 127, so that no number on the way is below zero; the bias comes off at the end.
#[tactic(auto, using(crate::proofs::LnParts::ln_parts_lem))]
fn ln_bits(b: u32) -> f32
    requires { (8388608 ≤ b) × (b < 2139095040) }
    ensures { result ≡ ln_at (Ieee.of_bits binary32 b) }
{
    let d = (b % 0x80_0000) as u64;
    let x = (b / 0x80_0000) as u64;
    over32(x * L + odd(d * M / (d + 16777216)), BIAS)
}

// The logarithm of v, from 1e-30 on.
#[tactic(auto, using(crate::proofs::LnParts::not_finite, crate::proofs::LnParts::finite_pattern, crate::proofs::LnParts::ln_of_pattern))]
pub fn ln(v: f32) -> f32
    requires { FromLeast v }
    ensures { result ≡ ln_at v }
{
    // Not v itself: C sees one pattern for not-a-number, whichever v has.
    if v.is_nan() {
        return f32::NAN;
    }
    if !v.is_finite() {
        return v;
    }
    ln_bits(f32::to_bits(v))
}

// The logarithm of 1 + t, for t in 0..1.
pub fn ln_1p(t: f32) -> f32
    requires { InUnit t }
    ensures { result ≡ ln1p_at t }
{
    if t.is_nan() {
        return f32::NAN;
    }
    let q = fixed_bits(f32::to_bits(t));
    over_m(odd(2 * (q * 2147483648 / (8589934592 + q))))
}
