ghost use Rattle.std.specs.Prelude.{◌≡◌, ◌++◌, ◌≤◌, ◌<◌, length, drop};
ghost use Rattle.demap.specs.Demap.{metrics_of, side_of, likelihood_of, likelihoods};
ghost use Rattle.demap.specs.Shared.{Shared};

use crate::halves::ByLabel;
use crate::metrics::{Cell, metrics};
use crate::shared::{exponentials, largest, same};
use points::Points;

// A cell's metrics d, the largest of them, and their exponentials e against it, which every bit shares.
#[derive(Clone, Copy)]
struct Weights {
    d: ByLabel,
    most: f32,
    e: ByLabel,
    ghost alike: { e.bps ≡ d.bps },
    ghost shared: { Shared d.at d.bps most e.at },
}

impl Weights {
    #[tactic(auto, using(crate::proofs::Sharing::over_asked))]
    fn of(c: Cell, pts: &Points) -> Weights
        requires { 0 < pts.now.bps }
        ensures bits { result.d.bps ≡ pts.now.bps }
        ensures each { result.d.at ≡ metrics_of c pts.now.pts pts.now.bps }
    {
        let d = metrics(c, pts);
        let most = largest(&d);
        let e = exponentials(&d, most);
        Weights { d, most, e }
    }

    // The logarithm of the sum of the likelihoods of the labels whose bit b is `bit`, a number as in `fold_half`. For
    // the half that has the largest metric of all the exponentials are at hand.
    #[tactic(auto, using(crate::proofs::Sums::ln_asked), unfolding(crate::specs::Demap::side_of))]
    fn side(&self, b: usize, bit: usize) -> f32
        requires { (b < self.now.d.bps) × (bit < 2) }
        ensures { result ≡ side_of self.now.d.at self.now.d.bps b bit }
    {
        let m = self.d.top(b, bit);
        if same(m, self.most) {
            return m + elementary::ln(self.e.sum(b, bit));
        }
        m + elementary::ln(self.d.sum_against(b, bit, m))
    }

    #[tactic(auto, unfolding(crate::specs::Demap::likelihood_of))]
    fn likelihood(&self, b: usize) -> f32
        requires { b < self.now.d.bps }
        ensures { result ≡ likelihood_of self.now.d.at self.now.d.bps b }
    {
        let l = self.side(b, 0) - self.side(b, 1);
        ieee::clamp(l, -40.0, 40.0)
    }
}

// The likelihood ln P(0) / P(1) of each bit of the cell, into the first bps of `out`.
#[tactic(auto, using(crate::proofs::Loops::fronts), unfolding(crate::specs::Demap::likelihoods))]
pub fn demap(c: Cell, pts: &Points, out: &mut [f32])
    requires { pts.now.bps ≤ length out.old }
    ensures { out.new ≡ likelihoods c pts.now.pts pts.now.bps ++ drop pts.now.bps out.old }
{
    if pts.bps == 0 {
        return;
    }
    let w = Weights::of(c, pts);
    for (b, l) in out[..pts.bps].iter_mut().enumerate() {
        *l = w.likelihood(b);
    }
}
