ghost use Rattle.std.specs.Prelude.{◌≡◌, ◌≤◌, length};
ghost use Rattle.soft.specs.Soft.{added, soft_point, loud_of};

use crate::labels::log_probabilities;
use dsp::Complex;
use points::Points;

// The expected value of a point and of its power, so far.
#[derive(Clone, Copy)]
struct Moments {
    mu: Complex,
    e2: f32,
}

impl Moments {
    #[tactic(auto, unfolding(crate::specs::Soft::added))]
    fn with(self, x: Complex, p: f32) -> Moments
        ensures { result ≡ added self x p }
    {
        Moments {
            mu: self.mu + x.scale(p),
            e2: self.e2 + p * x.norm_sqr(),
        }
    }
}

// A value and its variance: of a data cell under its priors, and of whatever else stands as three numbers in a list
// (flat.rt).
#[derive(Clone, Copy)]
pub struct Soft {
    pub mean: Complex,
    pub var: f32,
}

// The mean and the variance of a point whose label bits, the first one first, have the likelihoods llr.
#[tactic(auto, using(seq::specs::Loop::Laws::for_none, seq::specs::Loop::Laws::for_step, seq::specs::Loop::Laws::for_end, crate::proofs::Prefix::log_read), unfolding(crate::specs::Soft::point_turn, crate::specs::Soft::moments_of, crate::specs::Soft::soft_of, crate::specs::Soft::soft_point))]
pub fn soft_point(llr: &[f32], pts: &Points) -> Soft
    requires { pts.now.bps ≤ length llr.now }
    ensures { result ≡ soft_point llr.now pts.now.pts pts.now.bps }
{
    let lp = log_probabilities(&llr[..pts.bps]);
    let mut s = Moments {
        mu: Complex::ZERO,
        e2: 0.0,
    };
    for (k, &l) in lp[..pts.count()].iter().enumerate() {
        s = s.with(pts.point(k), elementary::exp(l));
    }
    Soft {
        mean: s.mu,
        var: ieee::max(s.e2 - s.mu.norm_sqr(), 0.0),
    }
}

// Whether a mean carries a tenth of the constellation's energy es.
#[tactic(auto, unfolding(crate::specs::Soft::loud_of))]
pub fn loud(x: Complex, es: f32) -> bool
    ensures { result ≡ loud_of x es }
{
    x.norm_sqr() >= 0.1 * es
}
