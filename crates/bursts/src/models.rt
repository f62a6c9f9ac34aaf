// model: the nine residuals and the model chosen by them, from a burst that is loaded first.
ghost use Rattle.std.specs.Prelude.{◌≡◌};
ghost use Rattle.load.specs.Pilots.{listed};
ghost use Rattle.model.specs.Select.{residuals};
ghost use Rattle.bursts.specs.Work.{pilots_at, starts_at, InWork};
ghost use Rattle.bursts.specs.Modelling.{selected_of, Modelling};

use crate::work::{setting_of, trial_in};
use model::{Setting, Trial};
use probes::{LoadSettings, probe_load};

// How many pilots there are, 0 when refused, since C has no Option; then all is 0. A model is its two indices.
#[repr(C)]
#[derive(Clone, Copy)]
pub struct Selected {
    pub np: usize,
    pub residuals: [f64; 9],
    pub fd: u32,
    pub tm: u32,
    pub scale: f32,
}

// A loop and not `array::from_fn`: tried, `from_fn` lets the closure change from call to call, and that this one does
// not did not prove.
#[tactic(auto, using(crate::proofs::Rests::turns), unfolding(model::specs::Select::residuals))]
fn residuals(trial: &Trial) -> [f64; 9]
    ensures { result ≡ residuals trial.now.setting (listed trial.now.pilots) trial.now.pilots.start.now }
{
    let mut rs = [0f64; 9];
    for (t, r) in rs.iter_mut().enumerate() {
        *r = trial.tried(t as u32).r;
    }
    rs
}

// From the np pilots of the work lists, which C lends and which have room for more.
fn select(s: Setting, np: usize, w: &[u32], pf: &[f32]) -> Selected
    requires { InWork s np w.now pf.now }
    ensures { result ≡ selected_of np s (pilots_at s np w.now pf.now) (starts_at s w.now) }
{
    let trial = trial_in(s, np, w, pf);
    let m = trial.select_model();
    Selected {
        np,
        residuals: residuals(&trial),
        fd: m.fd,
        tm: m.tm,
        scale: m.scale,
    }
}

#[tactic(auto, using(crate::proofs::Loaded::models_none, crate::proofs::Loaded::few_symbols))]
#[unsafe(no_mangle)]
pub extern "C" fn probe_models(
    s: LoadSettings,
    k: usize,
    grid: &[f32],
    sigma: &[f32],
    cells: &[f32],
    expected: &[f32],
    w: &mut [u32],
    pf: &mut [f32],
) -> Selected
    ensures { Modelling s k grid.now sigma.now cells.now expected.now w.old pf.old w.new pf.new result }
{
    let np = probe_load(s, grid, sigma, cells, expected, w, pf);
    if np == 0 {
        return Selected {
            np: 0,
            residuals: [0.0; 9],
            fd: 0,
            tm: 0,
            scale: 0.0,
        };
    }
    select(setting_of(s, k), np, w, pf)
}
