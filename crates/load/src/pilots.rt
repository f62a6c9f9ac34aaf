// The pilots of a burst as they are lent.
ghost use Rattle.std.specs.Prelude.{◌≡◌, ◌*◌, length};

use crate::pilot::Pilot;
use soft::Soft;

// est.rs, `Estimator`, its `pilots` and `start`: carriers, symbols, three numbers a pilot (re, im, variance), and
// where each symbol's pilots start. The work area is lent as one list of whole numbers and one of floats, so a
// pilot's numbers stand side by side and not in a `Pilot`. That they lie on a grid, and so are at most 118,156, is a
// clause (`OnGrid`) of what has the grid at hand, or that number alone.
#[derive(Clone, Copy)]
pub struct Pilots<'a> {
    pub c: &'a [u32],
    pub g: &'a [u32],
    pub f: &'a [f32],
    pub start: &'a [u32],
    ghost same_length: { (length g.now ≡ length c.now) × (length f.now ≡ 3 * length c.now) },
}

impl<'a> Pilots<'a> {
    ghost use Rattle.std.specs.Prelude.{◌≡◌, ◌+◌, ◌*◌, ◌≤◌, ◌<◌, length, get_or};
    ghost use Rattle.load.specs.Load.{nothing};
    ghost use Rattle.load.specs.Pilots.{listed};
    ghost use Rattle.load.specs.Work.{Cut};

    // The first np pilots of the work lists, on a grid of ng symbols with n cells.
    pub fn of_lists(w: &'a [u32], pf: &'a [f32], n: usize, ng: usize, np: usize) -> Pilots<'a>
        requires { (np ≤ n) × (2 * n + ng + 1 ≤ length w.now) × (3 * np ≤ length pf.now) }
        ensures { Cut w.now pf.now n ng np result }
    {
        Pilots {
            c: &w[..np],
            g: &w[n..n + np],
            f: &pf[..3 * np],
            start: &w[2 * n..2 * n + ng + 1],
        }
    }

    #[tactic(auto, using(seq::specs::Tab::Laws::length_tab))]
    pub fn len(&self) -> usize
        ensures { result ≡ length (listed self.now) }
    {
        self.c.len()
    }

    // self.pilots[i]
    #[tactic(auto, using(seq::specs::Tab::Laws::get_d_tab))]
    pub fn pilot(&self, i: usize) -> Pilot
        requires { i < length self.now.c.now }
        ensures { result ≡ get_or (listed self.now) i nothing }
    {
        let s = Soft::at(self.f, i);
        Pilot {
            c: self.c[i],
            g: self.g[i],
            h: s.mean,
            var: s.var,
        }
    }
}
