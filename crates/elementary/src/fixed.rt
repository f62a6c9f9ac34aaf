ghost use Rattle.std.specs.Prelude.{◌≡◌, ◌/◌, ◌%◌, ◌^◌, ◌<◌, ◌≤◌, false};
ghost use Rattle.std.specs.Float.Ieee as Ieee;
ghost use Rattle.std.specs.Float.{binary32, binary64};
ghost use Rattle.elementary.specs.Domain.{Number, InTurns};
ghost use Rattle.elementary.specs.FixedPoint.{M, B, whole_of, over};

// The scale of exp and the logarithms, and ln 2 at that scale.
pub const M: u64 = 4294967296;

pub const L: u64 = 2977044471;

// The scale of sin and cos.
pub const B: u64 = 1073741824;

// The size of the f32 of the pattern b, below 128, times 2^32, without its fraction.
#[tactic(auto, using(crate::proofs::WholePart::shifts))]
pub fn fixed_bits(b: u32) -> u64
    requires { b % 2147483648 / 8388608 ≤ 133 }
    ensures { result ≡ whole_of M (Ieee.of_bits binary32 b) }
{
    let e = (b % 0x8000_0000 / 0x80_0000) as u64;
    let q = 8388608 + (b % 0x80_0000) as u64;
    if e >= 118 {
        return q << (e - 118);
    }
    if e > 94 {
        return q >> (118 - e);
    }
    0
}

// d / 2^32 to the nearest f32. Both parts are exact, so that only their sum rounds.
#[tactic(auto, using(crate::proofs::Quotients::two_parts))]
pub fn over_m(d: u64) -> f32
    requires { d < 2 ^ 40 }
    ensures { result ≡ Ieee.round binary32 false d M }
{
    ((d / 0x10_0000) as f32) / 4096.0 + ((d % 0x10_0000) as f32) / 4294967296.0
}

// (a - b) / 2^32 to the nearest f32.
#[tactic(auto, using(crate::proofs::Quotients::signs))]
pub fn over32(a: u64, b: u64) -> f32
    requires { (a < 2 ^ 40) × (b < 2 ^ 40) }
    ensures { result ≡ over binary32 a b M }
{
    if b <= a {
        return over_m(a - b);
    }
    -over_m(b - a)
}

// |p| * 2^30 rounded down.
pub fn size30(p: f64) -> u64
    requires { Number p × InTurns p }
    ensures { (result ≡ whole_of B p) × (result ≤ 2 ^ 39) }
{
    std::num::truncating_f64_to_u64(ieee::abs(p) * 1073741824.0)
}

// (a - b) / 2^30. Not one function with over32: they share the choice of the sign alone, and a trait that names the
// scale, the division and the negation would be longer than both.
#[tactic(auto, using(crate::proofs::Quotients::over64_le, crate::proofs::Quotients::over64_lt))]
pub fn over64(a: u64, b: u64) -> f64
    requires { (a < 2 ^ 53) × (b < 2 ^ 53) }
    ensures { result ≡ over binary64 a b B }
{
    if b <= a {
        return ((a - b) as f64) / 1073741824.0;
    }
    -(((b - a) as f64) / 1073741824.0)
}
