// Where a data cell lies, by its number, and what was received there.
ghost use Rattle.std.specs.Prelude.{◌≡◌, ◌<◌};
ghost use Rattle.load.specs.Fit.{ncell};
ghost use Rattle.judge.specs.Cells.{symbol_of, carrier_of, sample_of};

use crate::Judge;
use dsp::Complex;

impl Judge<'_> {
    #[tactic(auto, using(crate::proofs::Held::in_grid))]
    pub(crate) fn symbol_of(&self, cell: usize) -> usize
        requires { cell < ncell self.now.source }
        ensures { result ≡ symbol_of self.now.source cell }
    {
        let m = self.source.map;
        m.hdr_end + cell / self.source.dc
    }

    #[tactic(auto, using(crate::proofs::Held::data_cell))]
    pub(crate) fn carrier_of(&self, cell: usize) -> usize
        requires { cell < ncell self.now.source }
        ensures { result ≡ carrier_of self.now.source cell }
    {
        let m = self.source.map;
        m.data_carrier(self.symbol_of(cell), cell % self.source.dc)
    }

    #[tactic(auto, using(crate::proofs::Held::in_grid))]
    pub(crate) fn sample_of(&self, cell: usize) -> Complex
        requires { cell < ncell self.now.source }
        ensures { result ≡ sample_of self.now.source self.now.grid.now cell }
    {
        let m = self.source.map;
        Complex::at(
            self.grid,
            self.symbol_of(cell) * m.nc + self.carrier_of(cell),
        )
    }
}
