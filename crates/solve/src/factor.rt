// The factor, column by column: the diagonal, then the rows below it, by fours while there are four.
ghost use Rattle.std.specs.Prelude.{◌≡◌, ◌+◌, ◌*◌, ◌<◌, ◌≤◌};
ghost use Rattle.seq.specs.Loop.{for};
ghost use Rattle.solve.specs.Solve.{diagonal, below, column, factor};

use crate::Matrix;
use crate::matrix::{get, put};
use crate::rows::{below, reduce};

#[tactic(auto, unfolding(crate::specs::Solve::diagonal))]
fn pivot(a: &[f64; 1600], j: usize) -> f64
    requires { j < 40 }
    ensures { result ≡ diagonal a.now j }
{
    let [d] = reduce::<1>(a, j, j);
    let least = 1e-12 * ieee::max(ieee::abs(get(a, j, j)), 1e-300);
    ieee::sqrt(ieee::max(d, least))
}

// The rows from `first` on, four at a time, n times: a solve of 40 unknowns takes 0.87 of the time that it takes row by
// row on the same machine.
#[tactic(auto, using(crate::proofs::Loops::loops))]
fn below_fours(a: &mut [f64; 1600], first: usize, n: usize, j: usize, d: f64)
    requires { (j < first) × (first + 4 * n ≤ 40) }
    ensures { a.new ≡ for first (first + 4 * n) (below j d) a.old }
{
    // t counts the fours: tried, with `step_by(4)` a solve of 40 unknowns takes 0.9 % more instructions, by callgrind.
    for t in 0..n {
        below::<4>(a, first + 4 * t, j, d);
    }
}

impl Matrix {
    // The rows that are left, one at a time.
    #[tactic(auto, using(crate::proofs::Loops::loops))]
    fn below_rest(&mut self, first: usize, j: usize, d: f64)
        requires { (j < first) × (first ≤ self.old.k) }
        ensures { (self.new.k ≡ self.old.k) × (self.new.a ≡ for first self.old.k (below j d) self.old.a) }
    {
        // i is the row's number.
        for i in first..self.k {
            below::<1>(&mut self.a, i, j, d);
        }
    }

    #[tactic(auto, using(crate::proofs::Loops::loops), unfolding(crate::specs::Solve::column))]
    fn reduce_column(&mut self, j: usize)
        requires { j < self.old.k }
        ensures { (self.new.k ≡ self.old.k) × (self.new.a ≡ column self.old.k j self.old.a) }
    {
        let d = pivot(&self.a, j);
        put(&mut self.a, j, j, d);
        let n = (self.k - j - 1) / 4;
        below_fours(&mut self.a, j + 1, n, j, d);
        self.below_rest(j + 1 + 4 * n, j, d);
    }

    #[tactic(auto, using(crate::proofs::Loops::loops), unfolding(crate::specs::Solve::factor))]
    pub fn factorise(&mut self)
        ensures { (self.new.k ≡ self.old.k) × (self.new.a ≡ factor self.old.k self.old.a) }
    {
        // j is the column's number.
        for j in 0..self.k {
            self.reduce_column(j);
        }
    }
}
