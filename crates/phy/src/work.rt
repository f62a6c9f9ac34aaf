// The table of causes for an entry that is lent the work area only.
ghost use Rattle.std.specs.Prelude.{◌≡◌};
ghost use Rattle.cause.specs.Causes.{number_of};
ghost use Rattle.refine.specs.Received.{burst_of};
ghost use Rattle.phy.specs.Channels.{refusal_within};

use cause::Cause;
use refine::BurstGrid;
use table::{Lent, verdict};

// wf and wu are two parameters, as document 01 lends them; a struct of the two was tried (refine, whole.rt). Of them
// only the lengths are asked.
#[tactic(auto, unfolding(crate::specs::Channels::work_room, table::specs::Rows::room_for, table::specs::Rows::holds))]
pub(crate) fn work_verdict(
    b: &BurstGrid,
    prior: &[f32],
    wf: &[f32],
    wu: &[u32],
) -> Result<(), Cause>
    ensures { number_of result ≡ refusal_within (burst_of b.now) prior.now wf.now wu.now }
{
    let lent = Lent {
        answer: None,
        channel: None,
        wf: wf.len(),
        wu: wu.len(),
    };
    verdict(b, prior, lent)
}
