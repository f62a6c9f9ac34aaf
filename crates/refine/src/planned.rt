// A burst with what its settings give.
ghost use Rattle.std.specs.Prelude.{◌≡◌};

use crate::burst_grid::BurstGrid;
use crate::settings::Plan;
use points::Points;

// The steps' numbers, and the points that priors and likelihoods are about, made once for all steps. It is made by its
// fields, here and in channel: it is lent the points, so that a function would be handed all three fields, and its
// contract would be those fields again.
#[derive(Clone, Copy)]
pub struct Planned<'b> {
    pub plan: Plan,
    pub unit: &'b Points,
    pub burst: BurstGrid<'b>,
    ghost bits: { unit.now.bps ≡ plan.shape.bps },
}
