// The channel at a data cell, from all pilots but its own.
ghost use Rattle.std.specs.Prelude.{◌≡◌, IfSome, cond, ◌+◌, ◌*◌, ◌≤◌, ◌<◌, eqb, length, get_or, unwrap_or};
ghost use Rattle.std.specs.List.{position_from};
ghost use Rattle.seq.specs.Cat.{cat};
ghost use Rattle.load.specs.Find.{mean_at};
ghost use Rattle.load.specs.Fit.{ncell};
ghost use Rattle.load.specs.Load.{nowhere};
ghost use Rattle.soft.specs.Soft.{loud_of};
ghost use Rattle.judge.specs.Cells.{index_in, numbers_of};
ghost use Rattle.judge.specs.Symbol.{InOrder, estimate_with};

use crate::Judge;
use dsp::Complex;
use est::Scales;
use near::{Window, start_of};
use soft::{Soft, loud};

// The chosen model as the estimates use it: the window, the units of distance, and the factor on the errors. The
// model's `Correlations` have the units too: the definitions of this crate take them with the window, and the tables
// apart, as the source's estimator has both.
#[derive(Clone, Copy)]
pub struct Fitted {
    pub w: Window,
    pub u: Scales,
    pub scale: f32,
}

// Where carrier c stands first.
fn place_of(carriers: &[u32], c: usize) -> Option<usize>
    ensures within { IfSome result (λ i. i < length carriers.now) }
    ensures first { result ≡ position_from (λ p. eqb p c) 0 carriers.now }
{
    carriers.iter().position(|p| *p as usize == c)
}

// est.rs, `pilot_index`: which of the pilots of symbol g is that of carrier c. It reads two of their lists, and asks
// nothing of the others.
pub fn pilot_index(carriers: &[u32], start: &[u32], c: usize, g: usize) -> Option<usize>
    requires { (g + 1 < length start.now) × (get_or start.now g 0 ≤ get_or start.now (g + 1) 0) × (get_or start.now (g + 1) 0 ≤ length carriers.now) }
    ensures { unwrap_or result nowhere ≡ index_in (λ i. get_or carriers.now i 0) start.now c g }
{
    let lo = start_of(start, g);
    let hi = start_of(start, g + 1);
    let i = place_of(&carriers[lo..hi], c)?;
    Some(lo + i)
}

impl Judge<'_> {
    // The pilot that a data cell of expected value x is itself, if it is loud enough to be one.
    fn own_index(&self, x: Complex, c: usize, g: usize) -> Option<usize>
        requires { InOrder self.now.estimator.pilots g }
        ensures { unwrap_or result nowhere ≡ cond (loud_of x self.now.source.es) (index_in (λ i. get_or self.now.estimator.pilots.c.now i 0) self.now.estimator.pilots.start.now c g) nowhere }
    {
        if loud(x, self.source.es) {
            pilot_index(self.estimator.pilots.c, self.estimator.pilots.start, c, g)
        } else {
            None
        }
    }

    // The cell whose expected value and variance are in `out`, which receives the estimate and its error.
    #[tactic(auto, using(crate::proofs::Held::estimable))]
    fn estimate_cell(&self, cell: usize, out: &mut [f32])
        requires cell { cell < ncell self.now.source }
        requires three { length out.old ≡ 3 }
        ensures { out.new ≡ numbers_of (estimate_with self.now (mean_at out.old 0) cell) }
    {
        let c = self.carrier_of(cell);
        let g = self.symbol_of(cell);
        let own = self.own_index(Soft::at(out, 0).mean, c, g);
        let e = self.estimator.estimate_without(c, g, own);
        let s = Soft {
            mean: e.h,
            var: e.mse,
        };
        s.put(out, 0);
    }

    // The cells of data symbol t.
    #[tactic(auto, using(crate::proofs::Held::numbered))]
    pub(crate) fn estimate_row(&self, t: usize, row: &mut [f32])
        requires symbol { self.now.source.map.hdr_end + t < self.now.source.ng }
        requires row { length row.old ≡ self.now.source.dc * 3 }
        ensures { row.new ≡ cat self.now.source.dc (λ j. numbers_of (estimate_with self.now (mean_at row.old j) (t * self.now.source.dc + j))) }
    {
        let dc = self.source.dc;
        // By number, here and where rows are demapped: tried, of what `chunks_exact_mut` has written a proof knows
        // the length alone.
        for j in 0..dc {
            let at = j * 3;
            let out = &mut row[at..at + 3];
            self.estimate_cell(t * dc + j, out);
        }
    }
}
