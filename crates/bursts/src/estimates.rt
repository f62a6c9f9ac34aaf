// est: the estimates at the cells asked for, each without its own pilot, from a burst that is loaded first.
ghost use Rattle.std.specs.Prelude.{◌≡◌, ◌++◌, ◌*◌, ◌<◌, ◌≤◌, length, drop};
ghost use Rattle.load.specs.Pilots.{listed};
ghost use Rattle.bursts.specs.Work.{pilots_at, starts_at, InWork};
ghost use Rattle.bursts.specs.Estimating.{estimate_with, estimates_with, estimates_by, put_by, Estimating};

use crate::work::{setting_of, trial_in};
use dsp::Complex;
use est::{Estimate, Estimator};
use judge::{fit, pilot_index};
use model::{Model, Setting, Trial};
use probes::{LoadSettings, probe_load, put};

// Pilots an estimate may use, the model by its indices, which C passes as numbers, and the factor on its errors.
#[repr(C)]
#[derive(Clone, Copy)]
pub struct Asked {
    pub k: usize,
    pub fd: u32,
    pub tm: u32,
    pub scale: f32,
}

// At cell j of the grid, in order of symbol, then carrier. That there are carriers is a clause, here and below: every
// layout has some, and an `Estimator`, which never divides by their number, asks nothing of it.
#[tactic(auto, using(crate::proofs::AtCells::cells))]
fn estimate_at(e: &Estimator, j: usize) -> Estimate
    requires { 0 < e.now.window.nc }
    ensures { result ≡ estimate_with e.now j }
{
    let w = e.window;
    let c = j % w.nc;
    let g = j / w.nc;
    if g >= w.ng {
        // Not numbers, in the place of an Option, which C has not.
        return Estimate {
            h: Complex::new(f32::NAN, f32::NAN),
            mse: f32::NAN,
        };
    }
    let own = pilot_index(e.pilots.c, e.pilots.start, c, g);
    e.estimate_without(c, g, own)
}

fn estimates_at(e: &Estimator, at: &[u32], out: &mut [f32])
    requires { (0 < e.now.window.nc) × (length at.now * 3 ≤ length out.old) }
    ensures { out.new ≡ estimates_with e.now at.now ++ drop (length at.now * 3) out.old }
{
    for (i, cell) in at.iter().enumerate() {
        let x = estimate_at(e, *cell as usize);
        // No `Soft::put`: of the estimate a `Soft` would be made first, for which alone this crate would name `soft`.
        put(&mut out[i * 3..], &[x.h.re, x.h.im, x.mse]);
    }
}

// Under the model that is asked for.
fn estimates_by(trial: &Trial, a: Asked, at: &[u32], out: &mut [f32])
    requires layout { (0 < trial.now.setting.l.nc) × (trial.now.setting.l.gw ≤ 12) }
    requires room { length at.now * 3 ≤ length out.old }
    ensures { out.new ≡ estimates_by trial.now.setting a (listed trial.now.pilots) trial.now.pilots.start.now at.now ++ drop (length at.now * 3) out.old }
{
    let m = Model {
        fd: a.fd,
        tm: a.tm,
        scale: a.scale,
    };
    let (f, t) = fit(trial.setting, m);
    let e = Estimator {
        pilots: trial.pilots,
        rf: t.rf(),
        rt: t.rt(),
        scales: f.u,
        window: f.w,
        p_h: trial.setting.p_h,
        mse_scale: f.scale,
    };
    estimates_at(&e, at, out);
}

// From the np pilots of the work lists, which C lends and which have room for more.
#[tactic(auto, using(crate::proofs::AtCells::no_room, crate::proofs::AtCells::put))]
fn estimates_in(s: Setting, a: Asked, np: usize, w: &[u32], pf: &[f32], at: &[u32], out: &mut [f32])
    requires { InWork s np w.now pf.now }
    ensures { out.new ≡ put_by at.now (estimates_by s a (pilots_at s np w.now pf.now) (starts_at s w.now) at.now) out.old }
{
    if out.len() / 3 < at.len() {
        return;
    }
    let trial = trial_in(s, np, w, pf);
    estimates_by(&trial, a, at, out);
}

// How many pilots there are, 0 when refused, since C has no Option.
#[tactic(auto, using(crate::proofs::Loaded::estimates_none, crate::proofs::Loaded::few_symbols))]
#[unsafe(no_mangle)]
pub extern "C" fn probe_estimates(
    s: LoadSettings,
    a: Asked,
    grid: &[f32],
    sigma: &[f32],
    cells: &[f32],
    expected: &[f32],
    at: &[u32],
    w: &mut [u32],
    pf: &mut [f32],
    out: &mut [f32],
) -> usize
    ensures { Estimating s a at.now grid.now sigma.now cells.now expected.now w.old pf.old out.old w.new pf.new out.new result }
{
    let np = probe_load(s, grid, sigma, cells, expected, w, pf);
    if np == 0 {
        return 0;
    }
    estimates_in(setting_of(s, a.k), a, np, w, pf, at, out);
    np
}
