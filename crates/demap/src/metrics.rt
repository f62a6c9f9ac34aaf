ghost use Rattle.std.specs.Prelude.{◌≡◌, ◌≤◌};
ghost use Rattle.demap.specs.Demap.{distance_of, metric_of, metrics_of};

use crate::halves::ByLabel;
use dsp::Complex;
use points::Points;

// A cell y = h x + n, where the channel estimate h has the error variance mse and the noise n the variance sigma2.
#[derive(Clone, Copy)]
pub struct Cell {
    pub y: Complex,
    pub h: Complex,
    pub mse: f32,
    pub sigma2: f32,
}

#[tactic(auto, unfolding(crate::specs::Demap::distance_of))]
pub fn distance(y: Complex, h: Complex, x: Complex) -> f32
    ensures { result ≡ distance_of y h x }
{
    (y - h * x).norm_sqr()
}

// The logarithm of the point's likelihood, up to a constant.
#[tactic(auto, unfolding(crate::specs::Demap::metric_of, crate::specs::Demap::variance_of))]
fn metric(c: Cell, x: Complex) -> f32
    ensures { result ≡ metric_of c x }
{
    let v = ieee::max(c.sigma2 + c.mse * x.norm_sqr(), 1e-30);
    -distance(c.y, c.h, x) / v - elementary::ln(v)
}

// The metrics of the points, by their labels.
#[tactic(auto, using(crate::proofs::Loops::fronts), unfolding(crate::specs::Demap::metrics_of, soft::specs::Tree::page))]
pub fn metrics(c: Cell, pts: &Points) -> ByLabel
    ensures bits { result.bps ≡ pts.now.bps }
    ensures each { result.at ≡ metrics_of c pts.now.pts pts.now.bps }
{
    let mut at = [0f32; 64];
    for (k, d) in at[..pts.count()].iter_mut().enumerate() {
        *d = metric(c, pts.point(k));
    }
    ByLabel { bps: pts.bps, at }
}
