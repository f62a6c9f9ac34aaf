// The likelihoods of an unspread symbol.
ghost use Rattle.std.specs.Prelude.{◌≡◌, ◌+◌, ◌*◌, ◌≤◌, ◌<◌, length};
ghost use Rattle.seq.specs.Cat.{cat};
ghost use Rattle.load.specs.Fit.{ncell};
ghost use Rattle.judge.specs.Cells.{estimate_in};
ghost use Rattle.judge.specs.Symbol.{demapped_by};

use crate::Judge;
use demap::{Cell, demap};
use est::Estimate;
use soft::Soft;

// Estimate j of a row: it stands there as a soft point does, the error in the place of the variance. No `From`, here
// and where a row is written: neither type is this crate's, and `est` does not know `soft`.
pub(crate) fn estimate_in(row: &[f32], j: usize) -> Estimate
    requires { 3 * j + 2 < length row.now }
    ensures { result ≡ estimate_in row.now j }
{
    let s = Soft::at(row, j);
    Estimate {
        h: s.mean,
        mse: s.var,
    }
}

impl Judge<'_> {
    fn demap_cell(&self, cell: usize, e: Estimate, out: &mut [f32])
        requires cell { cell < ncell self.now.source }
        requires out { length out.old ≡ self.now.shape.bps }
        ensures { out.new ≡ demapped_by self.now cell e }
    {
        let c = Cell {
            y: self.sample_of(cell),
            h: e.h,
            mse: e.mse,
            sigma2: self.cells[cell],
        };
        demap(c, self.points, out);
    }

    // Data symbol t, of the estimates in `row`.
    #[tactic(auto, using(crate::proofs::Held::numbered, crate::proofs::Held::parted))]
    pub(crate) fn demap_row(&self, t: usize, row: &[f32], out: &mut [f32])
        requires symbol { self.now.source.map.hdr_end + t < self.now.source.ng }
        requires lengths { (length row.now ≡ self.now.source.dc * 3) × (length out.old ≡ self.now.source.dc * self.now.shape.bps) }
        ensures { out.new ≡ cat self.now.source.dc (λ j. demapped_by self.now (t * self.now.source.dc + j) (estimate_in row.now j)) }
    {
        let dc = self.source.dc;
        let bps = self.shape.bps;
        // By number, as in `estimate_row`.
        for j in 0..dc {
            let at = j * bps;
            let stretch = &mut out[at..at + bps];
            self.demap_cell(t * dc + j, estimate_in(row, j), stretch);
        }
    }
}
