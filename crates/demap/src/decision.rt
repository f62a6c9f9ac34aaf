ghost use Rattle.std.specs.Prelude.{◌≡◌, ◌≤◌};
ghost use Rattle.demap.specs.Decide.{nearer_of, decide_of};

use crate::metrics::distance;
use dsp::Complex;
use points::Points;

// The decision so far: the least distance, and the point that has it.
#[derive(Clone, Copy)]
struct Decision {
    e: f32,
    x: Complex,
}

impl Decision {
    #[tactic(auto, unfolding(crate::specs::Decide::nearer_of))]
    fn nearer(self, e: f32, x: Complex) -> Decision
        ensures { result ≡ nearer_of self e x }
    {
        if e < self.e { Decision { e, x } } else { self }
    }
}

// The point nearest to y / h, or the complex zero where no distance is below infinity: of a table that is lent without
// its bits, as C lends it, so that it is not copied into `Points`.
#[tactic(auto, using(crate::proofs::Loops::loops), unfolding(crate::specs::Decide::decide_turn, crate::specs::Decide::decide_of))]
pub fn decide_among(y: Complex, h: Complex, table: &[f32; 128], bps: usize) -> Complex
    requires { bps ≤ 6 }
    ensures { result ≡ decide_of y h table.now bps }
{
    let mut best = Decision {
        e: f32::INFINITY,
        x: Complex::ZERO,
    };
    // by number, as `Points::energy`, which says what a walk over the pairs would be
    for k in 0..points::count(bps) {
        let x = Complex::at(table, k);
        best = best.nearer(distance(y, h, x), x);
    }
    best.x
}

// The same of a constellation.
pub fn decide(y: Complex, h: Complex, pts: &Points) -> Complex
    ensures { result ≡ decide_of y h pts.now.pts pts.now.bps }
{
    decide_among(y, h, &pts.pts, pts.bps)
}
