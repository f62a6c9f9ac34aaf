// What the loader finds at a cell: refine.rs, the closure handed to `load_with`.
ghost use Rattle.load.specs.Fit.{FitSource};
ghost use Rattle.load.specs.Facts.{fit_fact};

use dsp::Complex;
use layout::Map;
use soft::{Soft, loud};

// A value and the variance of `y - h * x`: of a known cell, or of a data cell whose expected value says enough. An
// enum where the source has an Option, as document 01 has it: what is proved of a cell's own pilot tells a soft value
// from a known one.
#[derive(Clone, Copy)]
pub enum Found {
    Known(Complex, f32),
    Soft(Complex, f32),
    Blank,
}

// The numbers that the loader reads: data carriers a data symbol, grid symbols, the reference symbol's boost, the
// channel's power, the constellation's mean energy.
#[derive(Clone, Copy)]
pub struct Source {
    pub map: Map,
    pub dc: usize,
    pub ng: usize,
    pub boost: f32,
    pub p_h: f32,
    pub es: f32,
}

// What a burst's pilots are loaded from: the numbers above, the grid, the variances of its carriers and of its data
// cells, and the cells' expected values. Grid and variances are fields, as they are of refine's `BurstGrid`: a struct
// of the three would spare two lines where a loader is made and put one more name into each path to them in a clause.
// refine's `Heard` and `judge::Judge` read no `sigma`.
#[derive(Clone, Copy)]
pub struct Loader<'a> {
    pub source: Source,
    pub grid: &'a [f32],
    pub sigma: &'a [f32],
    pub cells: &'a [f32],
    pub expected: &'a [f32],
    ghost fit: { FitSource source sigma.now cells.now expected.now } by { fit_fact },
}

impl Loader<'_> {
    ghost use Rattle.std.specs.Prelude.{◌≡◌, ◌+◌, ◌*◌, ◌<◌, length};
    ghost use Rattle.load.specs.Find.{soft_cell, found_at};

    // Data cell number `cell`: soft where its expected value is loud.
    #[tactic(auto, unfolding(crate::specs::Find::soft_cell))]
    fn soft_at(&self, cell: usize) -> Found
        requires { (cell < length self.now.cells.now) × (3 * cell + 2 < length self.now.expected.now) }
        ensures { result ≡ soft_cell self.now.source self.now.cells.now self.now.expected.now cell Found.Blank }
    {
        let s = self.source;
        let x = Soft::at(self.expected, cell);
        if loud(x.mean, s.es) {
            return Found::Soft(x.mean, self.cells[cell] + s.p_h * x.var);
        }
        Found::Blank
    }

    // Carrier c of symbol g: a known value wins.
    pub fn found_at(&self, c: usize, g: usize) -> Found
        requires { (c < self.now.source.map.nc) × (g < self.now.source.ng) }
        ensures { result ≡ found_at self.now.source self.now.sigma.now self.now.cells.now self.now.expected.now c g }
    {
        let s = self.source;
        let m = s.map;
        if m.is_pilot(c, g) {
            return Found::Known(m.known(c, g, s.boost), self.sigma[c]);
        }
        if g < m.hdr_end {
            return Found::Blank;
        }
        let cell = (g - m.hdr_end) * s.dc + m.cell_index(g, c);
        self.soft_at(cell)
    }
}
