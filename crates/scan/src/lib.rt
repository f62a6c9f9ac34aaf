// Tests of every number of a list.
#![tactic(auto)]

ghost use Rattle.std.specs.Prelude.{◌≡◌, take};
ghost use Rattle.ieee.specs.Order.{is_finite};
ghost use Rattle.scan.specs.Fine.{all, is_variance};

#[tactic(auto, unfolding(crate::specs::Fine::is_variance))]
pub fn is_variance(x: f32) -> bool
    ensures { result ≡ is_variance x }
{
    // A negative zero is not below zero.
    if x < 0.0 {
        return false;
    }
    ieee::is_finite(x)
}

pub fn all_finite(xs: &[f32]) -> bool
    ensures { result ≡ all is_finite xs.now }
{
    xs.iter().all(|x| ieee::is_finite(*x))
}

pub fn all_variances(xs: &[f32]) -> bool
    ensures { result ≡ all is_variance xs.now }
{
    xs.iter().all(|x| is_variance(*x))
}

// The first n numbers, or as many as there are: a list of priors may be shorter than its burst's bits, and `&xs[..n]`
// asks for n.
pub fn first_finite(xs: &[f32], n: usize) -> bool
    ensures { result ≡ all is_finite (take n xs.now) }
{
    xs.iter().take(n).all(|x| ieee::is_finite(*x))
}
