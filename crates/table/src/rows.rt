// The table of causes, a function a row.
ghost use Rattle.std.specs.Prelude.{◌≡◌};
ghost use Rattle.table.specs.Sizes.{Counted};
ghost use Rattle.table.specs.Rows.{is_level, is_power, bad_layout, bad_codes, bad_symbols, bad_grid, bad_variances, bad_settings, bad_numbers, holds, room_for};

use crate::sizes::{Lent, grid_cells, nc};
use refine::{BurstGrid, Settings, nbits, ncell};
use scan::{all_finite, all_variances, first_finite};

#[tactic(auto, unfolding(crate::specs::Rows::bad_layout))]
pub(crate) fn bad_layout(s: Settings) -> bool
    ensures { result ≡ bad_layout s }
{
    s.layout > 8
}

#[tactic(auto, unfolding(crate::specs::Rows::bad_codes))]
pub(crate) fn bad_codes(s: Settings) -> bool
    ensures { result ≡ bad_codes s }
{
    s.constellation > 3 || s.gain_code > 3
}

#[tactic(auto, unfolding(crate::specs::Rows::bad_symbols))]
pub(crate) fn bad_symbols(s: Settings) -> bool
    ensures { result ≡ bad_symbols s }
{
    s.nsym == 0 || s.nsym > 1023
}

#[tactic(auto, using(crate::proofs::Bounded::small), unfolding(crate::specs::Rows::bad_grid))]
pub(crate) fn bad_grid(b: &BurstGrid) -> bool
    requires { Counted b.now.settings }
    ensures { result ≡ bad_grid b.now.settings b.now.grid.now }
{
    b.grid.len() != 2 * grid_cells(b.settings)
}

#[tactic(auto, unfolding(crate::specs::Rows::bad_variances))]
pub(crate) fn bad_variances(b: &BurstGrid) -> bool
    requires { Counted b.now.settings }
    ensures { result ≡ bad_variances b.now.settings b.now.sigma.now b.now.cells.now }
{
    b.sigma.len() != nc(b.settings) || b.cells.len() != ncell(b.settings)
}

// A list that is not lent is not written.
#[tactic(auto, unfolding(crate::specs::Rows::holds))]
fn holds(n: usize, lent: Option<usize>) -> bool
    ensures { result ≡ holds n lent }
{
    lent.is_none_or(|k| k >= n)
}

#[tactic(auto, using(crate::proofs::Bounded::small), unfolding(crate::specs::Rows::room_for))]
pub(crate) fn room_for(s: Settings, lent: Lent) -> bool
    requires { Counted s }
    ensures { result ≡ room_for s lent }
{
    let bits = nbits(s);
    let cells = ncell(s);
    let work = bits + 12 * grid_cells(s);
    holds(bits, lent.answer) && holds(3 * cells, lent.channel) && lent.wf >= work && lent.wu >= work
}

#[tactic(auto, unfolding(crate::specs::Rows::is_level))]
fn is_level(x: f32) -> bool
    ensures { result ≡ is_level x }
{
    x >= 0.125 && x <= 8.0
}

#[tactic(auto, unfolding(crate::specs::Rows::is_power))]
fn is_power(x: f32) -> bool
    ensures { result ≡ is_power x }
{
    x > 0.0 && ieee::is_finite(x)
}

#[tactic(auto, unfolding(crate::specs::Rows::bad_settings))]
fn bad_settings(s: Settings) -> bool
    ensures { result ≡ bad_settings s }
{
    !is_level(s.boost) || !is_level(s.pilot_gain) || !is_power(s.p_h)
}

#[tactic(auto, unfolding(crate::specs::Rows::bad_numbers))]
pub(crate) fn bad_numbers(b: &BurstGrid, prior: &[f32]) -> bool
    requires { Counted b.now.settings }
    ensures { result ≡ bad_numbers b.now.settings b.now.grid.now b.now.sigma.now b.now.cells.now prior.now }
{
    let s = b.settings;
    !all_finite(b.grid)
        || !all_variances(b.sigma)
        || !all_variances(b.cells)
        || !first_finite(prior, nbits(s))
        || bad_settings(s)
}
