// The first rows of the table of causes, which the settings decide alone: a record is judged by them before its lists
// are read.
ghost use Rattle.std.specs.Prelude.{◌≡◌};
ghost use Rattle.cause.specs.Causes.{number_of};
ghost use Rattle.table.specs.Refusals.{settings_refusal};

use crate::rows::{bad_codes, bad_layout, bad_symbols};
use cause::Cause;
use refine::Settings;

#[tactic(auto, unfolding(crate::specs::Refusals::settings_refusal))]
pub fn settings_verdict(s: Settings) -> Result<(), Cause>
    ensures { number_of result ≡ settings_refusal s }
{
    if bad_layout(s) {
        return Err(Cause::Layout);
    }
    if bad_codes(s) {
        return Err(Cause::Codes);
    }
    if bad_symbols(s) {
        return Err(Cause::Symbols);
    }
    Ok(())
}
