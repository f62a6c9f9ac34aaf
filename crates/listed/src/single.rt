// The single estimate of pilots that stand in lists of numbers.
ghost use Rattle.std.specs.Prelude.{◌≡◌};
ghost use Rattle.load.specs.Pilots.{OnGrid, listed};
ghost use Rattle.listed.specs.Listed.{May, by_all, records_in, InLists};

use crate::order::starts;
use est::{Estimate, Estimator};
use judge::fit;
use load::Pilots;
use model::{Model, Setting};

// A cell, carrier c of symbol g, of a burst with this setting.
#[derive(Clone, Copy)]
pub struct Ask {
    pub setting: Setting,
    pub c: usize,
    pub g: usize,
}

fn with_pilots(a: Ask, ps: &Pilots) -> Estimate
    requires { May a × OnGrid ps.now a.setting.l.nc a.setting.ng }
    ensures { result ≡ by_all a (listed ps.now) }
{
    // The model before one is chosen: 3 3 stands for fd[2] of the robust grid and tm[2].
    let (f, t) = fit(a.setting, Model::NONE);
    // By its fields: judging.rt of refine says why.
    let e = Estimator {
        pilots: *ps,
        rf: t.rf(),
        rt: t.rt(),
        scales: f.u,
        window: f.w,
        p_h: a.setting.p_h,
        mse_scale: f.scale,
    };
    e.estimate(a.c, a.g)
}

// n pilots: carriers from 0 on, symbols from n on, three numbers a pilot. n stands beside the lists, which are the
// caller's work area, with room to spare.
pub fn single(n: usize, a: Ask, w: &[u32], pf: &[f32]) -> Estimate
    requires { InLists a n w.now pf.now }
    ensures { result ≡ by_all a (records_in n w.now pf.now) }
{
    let g = &w[n..2 * n];
    // Room for the starts of the most symbols, 1,084, and the end.
    let mut start = [0u32; 1085];
    let start = &mut start[..a.setting.ng + 1];
    starts(g, start);
    let ps = Pilots {
        c: &w[..n],
        g,
        f: &pf[..3 * n],
        start,
    };
    with_pilots(a, &ps)
}
