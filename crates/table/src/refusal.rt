// The table of causes, from the top.
ghost use Rattle.std.specs.Prelude.{◌≡◌};
ghost use Rattle.cause.specs.Causes.{number_of};
ghost use Rattle.refine.specs.Received.{burst_of};
ghost use Rattle.table.specs.Rows.{room_for};
ghost use Rattle.table.specs.Refusals.{refusal_of};

use crate::rows::{bad_grid, bad_numbers, bad_variances, room_for};
use crate::settings::settings_verdict;
use crate::sizes::Lent;
use cause::Cause;
use refine::BurstGrid;

#[tactic(auto, using(crate::proofs::Passing::counted_by, crate::proofs::Passing::good_layout, crate::proofs::Passing::good_codes, crate::proofs::Passing::good_symbols, crate::proofs::Passing::turned_away), unfolding(crate::specs::Refusals::refusal_of))]
pub fn verdict(b: &BurstGrid, prior: &[f32], lent: Lent) -> Result<(), Cause>
    ensures { number_of result ≡ refusal_of (burst_of b.now) prior.now (room_for b.now.settings lent) }
{
    let s = b.settings;
    settings_verdict(s)?;
    if bad_grid(b) {
        return Err(Cause::Grid);
    }
    if bad_variances(b) {
        return Err(Cause::Lengths);
    }
    if !room_for(s, lent) {
        return Err(Cause::Room);
    }
    if bad_numbers(b, prior) {
        return Err(Cause::Numbers);
    }
    Ok(())
}
