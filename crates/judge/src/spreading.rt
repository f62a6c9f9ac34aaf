// The likelihoods of a spread symbol: it is equalised as a whole.
ghost use Rattle.std.specs.Prelude.{◌≡◌, ◌++◌, ◌+◌, ◌*◌, ◌≤◌, ◌<◌, length, drop};
ghost use Rattle.seq.specs.Cat.{cat};
ghost use Rattle.equalize.specs.Answer.{Equalizes};
ghost use Rattle.judge.specs.Cells.{estimate_in};
ghost use Rattle.judge.specs.Fit.{FitSpread};
ghost use Rattle.judge.specs.Judge.{ya, va, answer_of, despread};
ghost use Rattle.judge.specs.Symbol.{equalized_by};

use crate::Judge;
use crate::plain::estimate_in;
use demap::{Cell, demap};
use dsp::Complex;
use equalize::{Equalized, ReceivedSymbol, sic};
use expect::{row_means, row_variance};
use spread::Spreader;

// What the symbols of a spread burst are equalised by: the twiddle factors, and the soft points that they were spread
// from.
#[derive(Drop)]
pub struct Spreading<'a> {
    pub spreader: Spreader,
    pub soft: &'a [f32],
}

impl Judge<'_> {
    // What was received at the cells of data symbol t.
    #[tactic(auto, using(crate::proofs::Held::numbered))]
    fn samples(&self, t: usize, y: &mut [f32])
        requires symbol { self.now.source.map.hdr_end + t < self.now.source.ng }
        requires y { 2 * self.now.source.dc ≤ length y.old }
        ensures { y.new ≡ ya self.now.source self.now.grid.now t ++ drop (2 * self.now.source.dc) y.old }
    {
        let dc = self.source.dc;
        // j numbers the cell and its place in y.
        for j in 0..dc {
            self.sample_of(t * dc + j).put(y, j);
        }
    }

    // Noise and the errors of the estimates at the cells of data symbol t.
    fn variances(&self, t: usize, row: &[f32], v: &mut [f32])
        requires symbol { self.now.source.map.hdr_end + t < self.now.source.ng }
        requires lengths { (length row.now ≡ self.now.source.dc * 3) × (self.now.source.dc ≤ length v.old) }
        ensures { v.new ≡ va self.now.source.dc self.now.shape.gain self.now.cells.now (estimate_in row.now) t ++ drop self.now.source.dc v.old }
    {
        let dc = self.source.dc;
        let gain = self.shape.gain;
        let g2 = gain * gain;
        let base = t * dc;
        // j is a place in three lists.
        for j in 0..dc {
            v[j] = self.cells[base + j] + estimate_in(row, j).mse * g2;
        }
    }

    // Data symbol t equalised, into z. The row's estimates are read as means, three numbers a cell, as `soft`'s are.
    #[tactic(auto, using(crate::proofs::Held::narrow, crate::proofs::Held::spans))]
    fn equalize_row(&self, s: &Spreading, t: usize, row: &[f32], z: &mut [f32]) -> Equalized
        requires spread { FitSpread self.now.source s.now.spreader s.now.soft.now }
        requires symbol { self.now.source.map.hdr_end + t < self.now.source.ng }
        requires lengths { (length row.now ≡ self.now.source.dc * 3) × (2 * self.now.source.dc ≤ length z.old) }
        ensures { Equalizes self.now.source.dc (equalized_by self.now s.now (estimate_in row.now) t) result z.old z.new }
    {
        let dc = self.source.dc;
        let mut y = [0f32; 218];
        self.samples(t, &mut y);
        let mut h = [0f32; 218];
        row_means(dc, row, 0, &mut h);
        let mut v = [0f32; 109];
        self.variances(t, row, &mut v);
        let mut xm = [0f32; 218];
        row_means(dc, s.soft, t, &mut xm);
        let vx = row_variance(dc, s.soft, t);
        let r = ReceivedSymbol {
            y: &y,
            h: &h,
            v: &v,
            gain: self.shape.gain,
        };
        sic(&s.spreader, &r, &xm, vx, z)
    }

    // The symbols in z, which have the gain e.mu and the noise variance e.var.
    #[tactic(auto, using(crate::proofs::Held::parted))]
    fn despread_cells(&self, e: Equalized, z: &[f32], out: &mut [f32])
        requires { (2 * self.now.source.dc ≤ length z.now) × (length out.old ≡ self.now.source.dc * self.now.shape.bps) }
        ensures { out.new ≡ cat self.now.source.dc (despread self.now.points.now.pts self.now.shape.bps (answer_of e z.now)) }
    {
        let bps = self.shape.bps;
        // By number, as in `estimate_row`.
        for j in 0..self.source.dc {
            let c = Cell {
                y: Complex::at(z, j),
                h: Complex::new(e.mu, 0.0),
                mse: 0.0,
                sigma2: e.var,
            };
            let at = j * bps;
            demap(c, self.points, &mut out[at..at + bps]);
        }
    }

    // Data symbol t, of the estimates in `row`.
    #[tactic(auto, using(crate::proofs::Held::narrow))]
    pub(crate) fn despread_row(&self, s: &Spreading, t: usize, row: &[f32], out: &mut [f32])
        requires spread { FitSpread self.now.source s.now.spreader s.now.soft.now }
        requires symbol { self.now.source.map.hdr_end + t < self.now.source.ng }
        requires lengths { (length row.now ≡ self.now.source.dc * 3) × (length out.old ≡ self.now.source.dc * self.now.shape.bps) }
        ensures { out.new ≡ cat self.now.source.dc (despread self.now.points.now.pts self.now.shape.bps (equalized_by self.now s.now (estimate_in row.now) t)) }
    {
        let mut z = [0f32; 218];
        let e = self.equalize_row(s, t, row, &mut z);
        self.despread_cells(e, &z, out);
    }
}
