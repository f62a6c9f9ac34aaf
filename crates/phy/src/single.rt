// est.rs, `estimate`, for any numbers at all: the public single estimate.
ghost use Rattle.std.specs.Prelude.{◌≡◌};
ghost use Rattle.refine.specs.Received.{burst_of};
ghost use Rattle.channel.specs.Channel.{Fit};
ghost use Rattle.table.specs.Sizes.{Counted};
ghost use Rattle.phy.specs.Channels.{bad_place, Placed, Estimating};

use crate::work::work_verdict;
use cause::Cause;
use est::Estimate;
use refine::{BurstGrid, Settings};
use table::nc;

#[tactic(auto, using(layout::proofs::Fits::layout_fits), unfolding(crate::specs::Channels::bad_place))]
fn bad_place(s: Settings, carrier: usize, symbol: usize) -> bool
    requires { Counted s }
    ensures { result ≡ bad_place s carrier symbol }
{
    let l = layout::layout(s.layout);
    carrier >= nc(s) || symbol >= l.ng(s.nsym)
}

// Of a burst that the table passes. wf and wu are two parameters, as document 01 lends them; a struct of the two was
// tried (refine, whole.rt).
#[tactic(auto, using(crate::proofs::Places::in_grid))]
fn estimate_in(
    b: &BurstGrid,
    prior: &[f32],
    carrier: usize,
    symbol: usize,
    wf: &mut [f32],
    wu: &mut [u32],
) -> Result<Estimate, Cause>
    requires { Fit (burst_of b.now) wf.old wu.old }
    ensures { Placed (burst_of b.now) prior.now carrier symbol result wf.old wf.new wu.old wu.new }
{
    if bad_place(b.settings, carrier, symbol) {
        return Err(Cause::Place);
    }
    let e = channel::estimate(b, prior, carrier, symbol, wf, wu);
    Ok(e)
}

// By all pilots that a refinement of the burst loads.
#[tactic(auto, unfolding(crate::specs::Channels::refusal_at))]
pub fn estimate(
    b: &BurstGrid,
    prior: &[f32],
    carrier: usize,
    symbol: usize,
    wf: &mut [f32],
    wu: &mut [u32],
) -> Result<Estimate, Cause>
    ensures { Estimating (burst_of b.now) prior.now carrier symbol result wf.old wf.new wu.old wu.new }
{
    work_verdict(b, prior, wf, wu)?;
    estimate_in(b, prior, carrier, symbol, wf, wu)
}
