// est.rs, `channel_power`, for any numbers at all.
ghost use Rattle.refine.specs.Received.{burst_of};
ghost use Rattle.phy.specs.Channels.{Measuring};

use crate::work::work_verdict;
use cause::Cause;
use refine::BurstGrid;

// Over all pilots that a refinement of the burst loads. wf and wu are two parameters, as document 01 lends them; a
// struct of the two was tried (refine, whole.rt).
pub fn channel_power(
    b: &BurstGrid,
    prior: &[f32],
    wf: &mut [f32],
    wu: &mut [u32],
) -> Result<f32, Cause>
    ensures { Measuring (burst_of b.now) prior.now result wf.old wf.new wu.old wu.new }
{
    work_verdict(b, prior, wf, wu)?;
    let power = channel::channel_power(b, prior, wf, wu);
    Ok(power)
}
