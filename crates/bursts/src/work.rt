// A loaded burst: its setting, and its pilots in the work lists, np of them. A `Trial` is made of the four in one
// place; its two callers have them from a C function each, which hands over its lists apart.
ghost use Rattle.std.specs.Prelude.{◌≡◌, ◌≤◌};
ghost use Rattle.load.specs.Pilots.{listed};
ghost use Rattle.bursts.specs.Work.{Set, pilots_at, starts_at, InWork};

use load::Pilots;
use model::{Setting, Trial};
use probes::LoadSettings;

// With k held.
#[tactic(auto, using(layout::proofs::Fits::layout_fits, crate::proofs::Loaded::settled))]
pub fn setting_of(s: LoadSettings, k: usize) -> Setting
    requires { s.nsym ≤ 1023 }
    ensures { Set s k result }
{
    let l = layout::layout(s.layout);
    Setting {
        l,
        sparse: s.sparse,
        ng: l.ng(s.nsym),
        k: est::held_k(k),
        p_h: s.p_h,
    }
}

// Carriers from 0 on, symbols and starts where `load` puts them.
#[tactic(auto, using(crate::proofs::Loaded::fit_in))]
pub fn trial_in<'a>(s: Setting, np: usize, w: &'a [u32], pf: &'a [f32]) -> Trial<'a>
    requires { InWork s np w.now pf.now }
    ensures setting { result.setting ≡ s }
    ensures listed { listed result.pilots ≡ pilots_at s np w.now pf.now }
    ensures starts { result.pilots.start.now ≡ starts_at s w.now }
{
    let l = s.l;
    let pilots = Pilots::of_lists(w, pf, s.ng * l.nc, s.ng, np);
    Trial { pilots, setting: s }
}
