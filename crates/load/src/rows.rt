// est.rs, `load_with`: in order of symbol, then carrier. start[g + 1] is written where the row of symbol g ends.
ghost use Rattle.std.specs.Prelude.{◌+◌, ◌<◌};
ghost use Rattle.load.specs.Find.{found_at};
ghost use Rattle.load.specs.Fit.{Room};
ghost use Rattle.load.specs.Work.{Upto, Loads};

use crate::found::Loader;
use crate::push::push;
use dsp::Complex;

impl Loader<'_> {
    // The pilots of symbol g, after those of the symbols before it. By number: a cell is found by those of its carrier
    // and symbol.
    fn row(&self, g: usize, w: &mut [u32], pf: &mut [f32])
        requires { Room self.now.source self.now.grid.now w.old pf.old × (g < self.now.source.ng) × Upto self.now.source self.now.grid.now (found_at self.now.source self.now.sigma.now self.now.cells.now self.now.expected.now) g w.old pf.old }
        ensures { Upto self.now.source self.now.grid.now (found_at self.now.source self.now.sigma.now self.now.cells.now self.now.expected.now) (g + 1) w.new pf.new }
    {
        let s = self.source;
        let nc = s.map.nc;
        let n = s.ng * nc;
        let mut np = w[2 * n + g] as usize;
        for c in 0..nc {
            let f = self.found_at(c, g);
            let y = Complex::at(self.grid, g * nc + c);
            np = push(f, c, g, y, n, np, w, pf);
        }
        w[2 * n + g + 1] = np as u32;
    }

    // The pilots of a burst, symbol by symbol, and how many there are. In w their carriers stand from place 0 on, their
    // symbols from ng * nc on, and the symbols' starts from 2 * ng * nc on; in pf their numbers.
    pub fn load(&self, w: &mut [u32], pf: &mut [f32]) -> usize
        requires { Room self.now.source self.now.grid.now w.old pf.old }
        ensures { Loads self.now.source self.now.grid.now (found_at self.now.source self.now.sigma.now self.now.cells.now self.now.expected.now) w.new pf.new result }
    {
        let s = self.source;
        let ng = s.ng;
        let at = 2 * (ng * s.map.nc);
        w[at] = 0;
        for g in 0..ng {
            self.row(g, w, pf);
        }
        w[at + ng] as usize
    }
}
