ghost use Rattle.std.specs.Prelude.{◌+◌, ◌-◌, ◌*◌, ◌/◌, ◌^◌, ◌<◌, ◌≤◌};

use crate::binary::Binary;

// About the root of v, from y, about 1 / the root. Nothing is proved of how good it is.
fn newton<T: Binary>(v: f64, y: f64) -> f64 {
    let h = v * 0.5;
    let mut y = y;
    // A count of steps: no list is gone over.
    for _ in 0..T::STEPS {
        y = y * (1.5 - h * y * y);
    }
    let s = v * y;
    s + y * 0.5 * (v - s * s)
}

// t * 2^52, for a t from 1 to 2, and 2^52 or 2^53 for any other. By patterns, since the answer is a difference of two:
// over `t < 1.0` and `t > 2.0` the check finds no bound of it (tried).
fn scaled(t: f64) -> u64
    ensures { result ≤ 2 ^ 53 }
{
    if t.is_nan() {
        return 0x10_0000_0000_0000;
    }
    let j = f64::to_bits(t);
    if j < 0x3ff0_0000_0000_0000 {
        return 0x10_0000_0000_0000;
    }
    if j > 0x4000_0000_0000_0000 {
        return 0x20_0000_0000_0000;
    }
    j - 0x3fe0_0000_0000_0000
}

// A guess at the root of m * 2^(52 + p), in floating point.
#[tactic(auto, using(crate::proofs::Floats::no_nan_pattern))]
pub fn guess<T: Binary>(m: u64, p: u64) -> u64
    requires { ((2 ^ 52 ≤ m) × (m < 2 ^ 53)) × (p < 2) }
    ensures { result ≤ 2 ^ 53 }
{
    let i = (1022 + p) * 0x10_0000_0000_0000 + m;
    scaled(newton::<T>(
        f64::from_bits(i),
        f64::from_bits(0x5fe6_eb50_c7b5_37a9 - i / 2),
    ))
}
