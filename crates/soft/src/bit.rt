ghost use Rattle.std.specs.Prelude.{◌≡◌};
ghost use Rattle.soft.specs.Soft.{softplus_of, cost_of};

use elementary::{exp, ln_1p};

// ln(1 + e^x) without overflow.
pub fn softplus(x: f32) -> f32
    ensures { result ≡ softplus_of x }
{
    if x > 0.0 {
        return x + ln_1p(exp(-x));
    }
    ln_1p(exp(x))
}

// What a bit takes from the logarithm of its label's probability, where it is 0 and where it is 1.
#[derive(Clone, Copy)]
pub struct Costs {
    pub zero: f32,
    pub one: f32,
}

// One exponential and one logarithm serve both, unless lam is zero or not a number.
pub fn costs_of(lam: f32) -> Costs
    ensures { (result.zero ≡ cost_of lam 0) × (result.one ≡ cost_of lam 1) }
{
    if lam > 0.0 {
        let t = ln_1p(exp(-lam));
        return Costs {
            zero: t,
            one: lam + t,
        };
    }
    if lam < 0.0 {
        let t = ln_1p(exp(lam));
        return Costs {
            zero: -lam + t,
            one: t,
        };
    }
    Costs {
        zero: softplus(-lam),
        one: softplus(lam),
    }
}
