// est.rs, `fde`: frequency-domain MMSE equalisation of one DFT-spread symbol.
ghost use Rattle.std.specs.Prelude.{◌≡◌, ◌≤◌};
ghost use Rattle.equalize.specs.Answer.{Room, Equalizes};
ghost use Rattle.equalize.specs.Fde.{added, carriers_of, result_of, fde_of};

use crate::filter::{Equalized, filter, floored, mean, mean_gain, passed};
use crate::received::ReceivedSymbol;
use dsp::Complex;
use spread::Spreader;

// mu and p so far.
#[derive(Clone, Copy)]
struct FdeSums {
    mu: f32,
    p: f32,
}

impl FdeSums {
    // One carrier more, of channel g, filter w and noise v.
    #[tactic(auto, unfolding(crate::specs::Fde::added))]
    fn add_carrier(&mut self, g: Complex, w: Complex, v: f32)
        ensures { self.new ≡ added self.old g w v }
    {
        let wg = passed(w, g);
        self.mu += wg;
        self.p += wg * wg + w.norm_sqr() * v;
    }

    // mu and var by the sums over all carriers.
    #[tactic(auto, unfolding(crate::specs::Fde::result_of))]
    fn result(&self, sp: &Spreader) -> Equalized
        ensures { result ≡ result_of sp.now.m self.now }
    {
        let mu = mean_gain(self.mu, sp);
        Equalized {
            mu,
            var: floored(mean(self.p, sp) - mu * mu, mu),
        }
    }
}

// The carriers, filtered, to z. By number: a carrier has its place in four lists, and two numbers in three of them.
#[tactic(auto, using(crate::proofs::Loops::loops), unfolding(crate::specs::Fde::turn, crate::specs::Fde::filtered, crate::specs::Fde::weight, crate::specs::Fde::carriers_of))]
fn equalize(sp: &Spreader, r: &ReceivedSymbol, z: &mut [f32]) -> FdeSums
    requires { Room sp.now.m r.now.y.now r.now.h.now r.now.v.now z.old }
    ensures { Equalizes sp.now.m (carriers_of sp.now.m r.now.y.now r.now.h.now r.now.v.now r.now.gain) result z.old z.new }
{
    let mut s = FdeSums { mu: 0.0, p: 0.0 };
    for j in 0..sp.m {
        let g = r.channel(j);
        let v = r.v[j];
        let w = filter(g, g.norm_sqr() + v);
        (w * Complex::at(r.y, j)).put(z, j);
        s.add_carrier(g, w, v);
    }
    s
}

// The despread symbols go to z.
pub fn fde(sp: &Spreader, r: &ReceivedSymbol, z: &mut [f32]) -> Equalized
    requires { Room sp.now.m r.now.y.now r.now.h.now r.now.v.now z.old }
    ensures { Equalizes sp.now.m (fde_of sp.now.m sp.now.tw r.now.y.now r.now.h.now r.now.v.now r.now.gain) result z.old z.new }
{
    let s = equalize(sp, r, z);
    sp.inverse(z);
    s.result(sp)
}
