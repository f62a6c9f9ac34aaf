ghost use Rattle.std.specs.Prelude.{◌≡◌};
ghost use Rattle.ieee.specs.Order.{max_of, clamp_of, abs_of, is_finite};

use crate::binary::Binary;

// Of two that compare equal, as 0 and -0, the first, as document 01 has it: std's `max` may answer either.
#[tactic(auto, using(crate::proofs::Floats::nan_ne), unfolding(crate::specs::Order::max_of))]
pub fn max<T: Binary>(x: T, y: T) -> T
    ensures { T.value result ≡ max_of (T.value x) (T.value y) }
{
    if x.is_below(y) {
        return y;
    }
    if x.is_nan() {
        return y;
    }
    x
}

// std's `clamp` asks that lo ≤ hi; this one asks nothing, since C may pass the probe any two bounds.
#[tactic(auto, unfolding(crate::specs::Order::clamp_of))]
pub fn clamp<T: Binary>(x: T, lo: T, hi: T) -> T
    ensures { T.value result ≡ clamp_of (T.value x) (T.value lo) (T.value hi) }
{
    if x.is_below(lo) {
        return lo;
    }
    if hi.is_below(x) {
        return hi;
    }
    x
}

// std's own, with the words of this library's laws in their contracts.
#[tactic(auto, using(crate::proofs::Orders::abs_is))]
pub fn abs(x: f64) -> f64
    ensures { result ≡ abs_of x }
{
    x.abs()
}

#[tactic(auto, using(crate::proofs::Orders::finite_is))]
pub fn is_finite(x: f32) -> bool
    ensures { result ≡ is_finite x }
{
    x.is_finite()
}
