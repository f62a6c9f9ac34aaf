// `BurstGrid::refine` for any numbers at all.
ghost use Rattle.refine.specs.Received.{burst_of};
ghost use Rattle.phy.specs.Entry.{Refining};

use cause::Cause;
use refine::{BurstGrid, Refined};
use table::{Lent, verdict};

// The answer takes the likelihoods in bit order, the channel list each cell's estimate and error; wf and wu are the
// work area. They are four parameters, as document 01 lends them; a struct of them was tried (refine, whole.rt).
pub fn refine(
    b: &BurstGrid,
    prior: &[f32],
    answer: &mut [f32],
    channel: &mut [f32],
    wf: &mut [f32],
    wu: &mut [u32],
) -> Result<Refined, Cause>
    ensures { Refining (burst_of b.now) prior.now result
        answer.old answer.new channel.old channel.new
        wf.old wf.new wu.old wu.new }
{
    let lent = Lent {
        answer: Some(answer.len()),
        channel: Some(channel.len()),
        wf: wf.len(),
        wu: wu.len(),
    };
    verdict(b, prior, lent)?;
    let r = refine::refine(b, prior, answer, channel, wf, wu);
    Ok(r)
}
