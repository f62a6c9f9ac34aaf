// The data carriers of a symbol, by number and back. The pilots stand at s, s + step, .. and at the top, so step - 1
// data carriers lie from one to the next.
ghost use Rattle.std.specs.Prelude.{◌≡◌, ◌<◌, ◌≤◌, false};
ghost use Rattle.layout.specs.Maps.{is_pilot, carriers_at};
ghost use Rattle.layout.specs.Fit.{FitMap};
ghost use Rattle.layout.specs.Carriers.{data_carrier, cell_index};

use crate::map::Map;

impl Map {
    // The j-th data carrier of symbol g.
    #[tactic(auto, using(crate::proofs::Fits::at_fits, crate::proofs::Cells::carrier_low, crate::proofs::Cells::carrier_high, crate::proofs::Cells::carrier_fits, crate::proofs::Cells::carrier_few,))]
    pub fn data_carrier(self, g: usize, j: usize) -> usize
        requires { FitMap self × (1 ≤ g) × (j < carriers_at self g) }
        ensures { result ≡ data_carrier self g j }
    {
        let p = self.pattern(g);
        let s = p.first(g);
        if j < s {
            return j;
        }
        j + 1 + (j - s) / (p.step - 1)
    }

    // How many data carriers of symbol g stand before its data carrier c.
    #[tactic(auto, using(crate::proofs::Fits::at_fits, crate::proofs::Cells::index_low, crate::proofs::Cells::index_high, crate::proofs::Cells::index_takes, crate::proofs::Cells::index_above,))]
    pub fn cell_index(self, g: usize, c: usize) -> usize
        requires { FitMap self × (1 ≤ g) × (c < self.nc) × (is_pilot self c g ≡ false) }
        ensures { result ≡ cell_index self g c }
    {
        let p = self.pattern(g);
        let s = p.first(g);
        if c < s {
            return c;
        }
        c - 1 - (c - s) / p.step
    }
}
