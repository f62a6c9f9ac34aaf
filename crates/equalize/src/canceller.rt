// refine.rs, `sic`: the same where the symbols have expected values, which are taken out of the carriers first.
ghost use Rattle.std.specs.Prelude.{◌≡◌, ◌++◌, ◌*◌, ◌≤◌, length, drop};
ghost use Rattle.equalize.specs.Answer.{Room, Equalizes};
ghost use Rattle.equalize.specs.Sic.{spread_of, added, carriers_of, result_of, restored, sic_of};

use crate::filter::{Equalized, filter, floored, mean, mean_gain, passed};
use crate::received::ReceivedSymbol;
use dsp::Complex;
use spread::Spreader;

// mu, p and q so far. Not `fde`'s sums: that adds both parts of a carrier to p, and the two orders round otherwise.
#[derive(Clone, Copy)]
struct SicSums {
    mu: f32,
    p: f32,
    q: f32,
}

impl SicSums {
    // One carrier more, of channel g, filter w and noise v.
    #[tactic(auto, unfolding(crate::specs::Sic::added))]
    fn add_carrier(&mut self, g: Complex, w: Complex, v: f32)
        ensures { self.new ≡ added self.old g w v }
    {
        let wg = passed(w, g);
        self.mu += wg;
        self.p += wg * wg;
        self.q += w.norm_sqr() * v;
    }

    // mu and var by the sums over all carriers.
    #[tactic(auto, unfolding(crate::specs::Sic::result_of))]
    fn result(&self, sp: &Spreader, vx: f32) -> Equalized
        ensures { result ≡ result_of sp.now.m vx self.now }
    {
        let mu = mean_gain(self.mu, sp);
        Equalized {
            mu,
            var: floored(vx * (mean(self.p, sp) - mu * mu) + mean(self.q, sp), mu),
        }
    }
}

// xs: what the expected values are on the carriers.
#[tactic(auto, using(crate::proofs::SicStages::spread_answer))]
fn spread_copy(sp: &Spreader, xm: &[f32]) -> [f32; 218]
    requires { 2 * sp.now.m ≤ length xm.now }
    ensures { result ≡ spread_of sp.now.m sp.now.tw xm.now }
{
    let n = 2 * sp.m;
    let mut xs = [0.0f32; 218];
    xs[..n].copy_from_slice(&xm[..n]);
    sp.forward(&mut xs);
    xs
}

// The carriers less what xs brings to them, filtered, to z. The walk is `equalize`'s with another divisor, another
// product and other sums: one function for both would have to be told all three.
#[tactic(auto, using(crate::proofs::Loops::loops), unfolding(crate::specs::Sic::turn, crate::specs::Sic::filtered, crate::specs::Sic::weight, crate::specs::Sic::carriers_of))]
fn cancel(sp: &Spreader, r: &ReceivedSymbol, xs: &[f32; 218], vx: f32, z: &mut [f32]) -> SicSums
    requires { Room sp.now.m r.now.y.now r.now.h.now r.now.v.now z.old }
    ensures { Equalizes sp.now.m (carriers_of sp.now.m r.now.y.now r.now.h.now r.now.v.now r.now.gain xs.now vx) result z.old z.new }
{
    let mut s = SicSums {
        mu: 0.0,
        p: 0.0,
        q: 0.0,
    };
    for j in 0..sp.m {
        let g = r.channel(j);
        let v = r.v[j];
        let w = filter(g, vx * g.norm_sqr() + v);
        (w * (Complex::at(r.y, j) - g * Complex::at(xs, j))).put(z, j);
        s.add_carrier(g, w, v);
    }
    s
}

// Each symbol's own expected value goes back in: the filter removed it with the others. By number: it has its place in
// two lists, and two numbers in each.
#[tactic(auto, using(crate::proofs::Loops::numbers, crate::proofs::Stages::at_next), unfolding(crate::specs::Sic::restored_at, crate::specs::Sic::restored))]
fn restore(sp: &Spreader, mu: f32, xm: &[f32], z: &mut [f32])
    requires { (2 * sp.now.m ≤ length xm.now) × (2 * sp.now.m ≤ length z.old) }
    ensures { z.new ≡ restored sp.now.m mu xm.now z.old ++ drop (2 * sp.now.m) z.old }
{
    for j in 0..sp.m {
        (Complex::at(z, j) + Complex::at(xm, j).scale(mu)).put(z, j);
    }
}

// For symbols of the expected values xm and the variance vx; the despread symbols go to z. That xm is long enough is a
// clause here and above: it is lent as y, h and v are (`ReceivedSymbol`), and an array would be a copy of it.
pub fn sic(sp: &Spreader, r: &ReceivedSymbol, xm: &[f32], vx: f32, z: &mut [f32]) -> Equalized
    requires { Room sp.now.m r.now.y.now r.now.h.now r.now.v.now z.old × (2 * sp.now.m ≤ length xm.now) }
    ensures { Equalizes sp.now.m (sic_of sp.now.m sp.now.tw r.now.y.now r.now.h.now r.now.v.now r.now.gain xm.now vx) result z.old z.new }
{
    let xs = spread_copy(sp, xm);
    let s = cancel(sp, r, &xs, vx, z);
    sp.inverse(z);
    let e = s.result(sp, vx);
    restore(sp, e.mu, xm, z);
    e
}
