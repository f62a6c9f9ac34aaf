// How large a burst's lists are.
ghost use Rattle.std.specs.Prelude.{◌≡◌};
ghost use Rattle.table.specs.Sizes.{Counted, nc_of, grid_cells};

use refine::Settings;

// How many numbers the lists have that are lent to be written: answer, channel list, both lists of the work area. Some
// entries are lent the work area only.
#[derive(Clone, Copy)]
pub struct Lent {
    pub answer: Option<usize>,
    pub channel: Option<usize>,
    pub wf: usize,
    pub wu: usize,
}

// `Counted` is a clause and no fact of `Settings`, here and in the rows: C hands over any number, which `bad_symbols`
// tests; a type of settings that passed would wrap ten fields for the bound of one.

// Cells of the grid: ng × nc.
#[tactic(auto, using(layout::proofs::Fits::layout_fits, crate::proofs::Bounded::small))]
pub fn grid_cells(s: Settings) -> usize
    requires { Counted s }
    ensures { result ≡ grid_cells s }
{
    let l = layout::layout(s.layout);
    l.ng(s.nsym) * l.nc
}

pub fn nc(s: Settings) -> usize
    ensures { result ≡ nc_of s }
{
    let l = layout::layout(s.layout);
    l.nc
}
