// One model: how well the pilots are estimated from each other.
ghost use Rattle.std.specs.Prelude.{◌≡◌, ◌<◌, ◌≤◌, length};
ghost use Rattle.load.specs.Pilots.{listed};
ghost use Rattle.est.specs.Model.{Modelled};
ghost use Rattle.model.specs.Facts.{models_fact};
ghost use Rattle.model.specs.Values.{numerology_of, FitModels};
ghost use Rattle.model.specs.Score.{Fit, stride_of, add_pilot, summed, tried_of};

use crate::values::{numerology, window};
use est::{Estimate, Estimator};
use layout::Layout;
use load::{Pilot, Pilots};

// What a burst's models are tried with: its layout, whether its pilots are sparse, its symbols, how many pilots an
// estimate may use, the channel's power. `sparse` is a bit where the source has an enum, `Pilots`: C passes it as one,
// and it is read in one place, `fd_grid`, whose definition is over a bit.
#[derive(Clone, Copy)]
pub struct Setting {
    pub l: Layout,
    pub sparse: bool,
    pub ng: usize,
    pub k: usize,
    pub p_h: f32,
}

// What is tried: the burst's pilots under its setting, on whose grid they lie, and each model of whose layout is one
// that `set_model` may be asked for.
#[derive(Clone, Copy)]
pub struct Trial<'a> {
    pub pilots: Pilots<'a>,
    pub setting: Setting,
    ghost fit: { Fit setting pilots },
    ghost models: { FitModels setting.l } by { models_fact setting.l },
}

// The squared distance of pilots from their estimates, their variances, and the estimates' errors.
#[derive(Clone, Copy)]
pub struct Tried {
    pub r: f64,
    pub v: f64,
    pub m: f64,
}

#[tactic(auto, unfolding(crate::specs::Score::stride_of))]
fn stride(np: usize) -> usize
    ensures { result ≡ stride_of np }
{
    (np / 160).max(1)
}

impl Tried {
    ghost use Rattle.std.specs.Prelude.{◌≡◌};
    ghost use Rattle.model.specs.Score.{added};

    // A pilot and its estimate more.
    #[tactic(auto, unfolding(crate::specs::Score::added))]
    fn with(self, e: Estimate, p: Pilot) -> Tried
        ensures { result ≡ added e p self }
    {
        let d = e.h - p.h;
        Tried {
            r: self.r + std::num::f32_to_f64_with_nan(d.norm_sqr()),
            v: self.v + std::num::f32_to_f64_with_nan(p.var),
            m: self.m + std::num::f32_to_f64_with_nan(e.mse),
        }
    }
}

// Pilot i against its estimate from the others.
#[tactic(auto, unfolding(crate::specs::Score::others, crate::specs::Score::add_pilot))]
fn add_pilot(e: &Estimator, i: usize, t: Tried) -> Tried
    requires { i < length e.now.pilots.c.now }
    ensures { result ≡ add_pilot e.now.window e.now.p_h (listed e.now.pilots) e.now.pilots.start.now e.now.scales e.now.rf.now e.now.rt.now i t }
{
    let p = e.pilots.pilot(i);
    let others = e.estimate_excl(p.c as usize, p.g as usize, Some(i));
    t.with(others, p)
}

// Every stride-th pilot.
fn sum_pilots(e: &Estimator) -> Tried
    ensures { result ≡ summed e.now.window e.now.p_h (listed e.now.pilots) e.now.pilots.start.now e.now.scales e.now.rf.now e.now.rt.now }
{
    let np = e.pilots.len();
    let mut t = Tried {
        r: 0.0,
        v: 0.0,
        m: 0.0,
    };
    for i in (0..np).step_by(stride(np)) {
        t = add_pilot(e, i, t);
    }
    t
}

// The model of Doppler fd and delay span tm.
#[tactic(auto, unfolding(crate::specs::Score::modelled, crate::specs::Score::tried_of))]
pub fn score(ps: &Pilots, s: Setting, fd: f64, tm: f64) -> Tried
    requires { Fit s ps.now × Modelled (numerology_of s.l) fd tm }
    ensures { result ≡ tried_of (listed ps.now) ps.now.start.now s fd tm }
{
    let t = est::set_model(numerology(s.l), fd, tm);
    let e = Estimator {
        pilots: *ps,
        rf: t.rf(),
        rt: t.rt(),
        scales: t.scales,
        window: window(s.l, s.ng, s.k),
        p_h: s.p_h,
        mse_scale: 1.0,
    };
    sum_pilots(&e)
}
