// From the priors to what is expected of every cell.
ghost use Rattle.std.specs.Prelude.{length};
ghost use Rattle.refine.specs.Front.{Exact, Expected};

use crate::planned::Planned;
use expect::Modulation;

// The answer takes the priors in slot order.
pub fn expected(
    b: &Planned,
    prior: &[f32],
    answer: &mut [f32],
    soft: &mut [f32],
    channel: &mut [f32],
)
    requires { Exact b.now.plan.shape answer.old soft.old channel.old }
    ensures { Expected b.now.plan.shape b.now.unit.now.pts prior.now (length answer.old) soft.new channel.new }
{
    let m = Modulation {
        shape: b.plan.shape,
        unit: b.unit,
    };
    bits::fill_slots(prior, answer);
    m.expect(answer, soft, channel);
}
