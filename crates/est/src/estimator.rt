// est.rs, `Estimator`: the channel at a cell from the pilots near it.
ghost use Rattle.std.specs.Prelude.{◌≡◌, ◌*◌, ◌<◌, ◌≤◌, length};
ghost use Rattle.load.specs.Pilots.{OnGrid};

use crate::combine::Estimate;
use crate::model::Scales;
use crate::neighbours::{Field, Neighbours};
use dsp::Complex;
use load::{Pilot, Pilots};
use near::{Query, Window};

// The pilots, the correlations rf and rt of a model with its units of distance, which pilots an estimate uses, the
// channel's power, and the factor on the errors. The source owns its lists; here they are lent, since nothing is
// allocated. Each caller writes the literal: a constructor's contract would state the six facts again as clauses.
#[derive(Clone, Copy)]
pub struct Estimator<'a> {
    pub pilots: Pilots<'a>,
    pub rf: &'a [f64],
    pub rt: &'a [f64],
    pub scales: Scales,
    pub window: Window,
    pub p_h: f32,
    pub mse_scale: f32,
    ghost on_grid: { OnGrid pilots window.nc window.ng },
    ghost in_rf: { 2 * window.nc < length rf.now },
    ghost in_rt: { 4 * window.gw < length rt.now },
    ghost width: { window.gw ≤ 12 },
    ghost some: { 1 ≤ window.k },
    ghost most: { window.k ≤ 40 },
}

impl Estimator<'_> {
    ghost use Rattle.std.specs.Prelude.{◌≡◌, ◌<◌, unwrap_or};
    ghost use Rattle.load.specs.Load.{nowhere};
    ghost use Rattle.est.specs.Estimator.{Fetched, picked, combined_of, excl_at, without_at, all_at};

    // The estimate of the pilots that idx names.
    fn estimate_of(&self, q: Query, m: Field, idx: &[u32]) -> Estimate
        requires { Fetched self.now q m idx.now }
        ensures { result ≡ combined_of m self.now q (picked self.now idx.now) }
    {
        // No ArrayVec: `pick` has counted the pilots, and each push would count again.
        let mut ps = [Pilot::default(); 40];
        // By place: the invariant of a loop over `ps.iter_mut().zip(idx)` cannot name ps (tried).
        for (j, i) in idx.iter().enumerate() {
            ps[j] = self.pilots.pilot(*i as usize);
        }
        let ps = &ps[..idx.len()];
        let near = Neighbours {
            field: m,
            rf: self.rf,
            rt: self.rt,
            q,
            ps,
        };
        near.combine()
    }

    // The estimate at carrier c of symbol g from all pilots but one, and its error.
    pub fn estimate_excl(&self, c: usize, g: usize, exclude: Option<usize>) -> Estimate
        requires { (c < self.now.window.nc) × (g < self.now.window.ng) }
        ensures { result ≡ excl_at self.now c g (unwrap_or exclude nowhere) }
    {
        let q = Query {
            c,
            g,
            lc: self.scales.lc,
            lg: self.scales.lg,
        };
        let w = self.window;
        let mut idx = [0u32; 40];
        let n = near::pick(&self.pilots, q, w, exclude, &mut idx);
        if n == 0 {
            return Estimate {
                h: Complex::ZERO,
                mse: self.p_h,
            };
        }
        let m = Field {
            ph: std::num::f32_to_f64_with_nan(self.p_h),
            nc: w.nc,
            gw2: 2 * w.gw,
        };
        self.estimate_of(q, m, &idx[..n])
    }

    // The same with the error scaled.
    #[tactic(auto, unfolding(crate::specs::Estimate::estimate_without))]
    pub fn estimate_without(&self, c: usize, g: usize, exclude: Option<usize>) -> Estimate
        requires { (c < self.now.window.nc) × (g < self.now.window.ng) }
        ensures { result ≡ without_at self.now c g (unwrap_or exclude nowhere) }
    {
        let e = self.estimate_excl(c, g, exclude);
        Estimate {
            h: e.h,
            mse: e.mse * self.mse_scale,
        }
    }

    // By all pilots.
    #[tactic(auto, unfolding(crate::specs::Estimate::estimate_all))]
    pub fn estimate(&self, c: usize, g: usize) -> Estimate
        requires { (c < self.now.window.nc) × (g < self.now.window.ng) }
        ensures { result ≡ all_at self.now c g }
    {
        self.estimate_without(c, g, None)
    }
}
