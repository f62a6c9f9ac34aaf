// est.rs, `estimate`, by all pilots under the model that `new` sets. Those near the cell are handed on as one list of
// records.
ghost use Rattle.std.specs.Prelude.{◌≡◌, ◌<◌};
ghost use Rattle.refine.specs.Back.{Agrees};
ghost use Rattle.refine.specs.Whole.{pilots_in, starts_in};
ghost use Rattle.channel.specs.Single.{estimate_under, near_of, InWork};

use crate::records::near_records;
use arrayvec::ArrayVec;
use est::Estimate;
use listed::Ask;
use load::{Pilot, Pilots};
use refine::{Plan, places_of};

// Of the np pilots in the work lists those near symbol g.
fn near_loaded(p: Plan, np: usize, g: usize, wf: &[f32], wu: &[u32]) -> ArrayVec<Pilot, 2725>
    requires { Agrees p × InWork p np wf.now wu.now × (g < p.source.ng) }
    ensures { result.items ≡ near_of p.setting (pilots_in p np wf.now wu.now) (starts_in p wu.now) g }
{
    let n = places_of(p.source);
    let pilots = Pilots::of_lists(wu, wf, n, p.source.ng, np);
    near_records(&pilots, p.setting, g)
}

// By all np pilots. The work lists are free to work in once the records are made. wf and wu are two parameters, longer
// than np pilots take: whole.rt of refine says why.
pub fn estimate_loaded(
    p: Plan,
    np: usize,
    c: usize,
    g: usize,
    wf: &mut [f32],
    wu: &mut [u32],
) -> Estimate
    requires { Agrees p × InWork p np wf.old wu.old × (c < p.source.map.nc) × (g < p.source.ng) }
    ensures { result ≡ estimate_under p.setting (pilots_in p np wf.old wu.old) (starts_in p wu.old) c g }
{
    let near = near_loaded(p, np, g, wf, wu);
    let a = Ask {
        setting: p.setting,
        c,
        g,
    };
    listed::estimate(near.as_slice(), a, wu, wf)
}
