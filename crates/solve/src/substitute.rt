// The two substitutions: by the factor's rows from the first, and by its columns from the last.
ghost use Rattle.std.specs.Prelude.{◌≡◌, ◌<◌};
ghost use Rattle.solve.specs.Solve.{forward_sum, forward, backward_sum, backward};

use crate::Matrix;
use crate::matrix::get;

#[tactic(auto, using(crate::proofs::Loops::loops, crate::proofs::Loops::cut), unfolding(crate::specs::Solve::forward_sum))]
fn forward_sum(a: &[f64; 1600], b: &[f64; 40], y: &[f64; 40], i: usize) -> f64
    requires { i < 40 }
    ensures { result ≡ forward_sum a.now b.now y.now i }
{
    let mut s = b[i];
    for (p, x) in y[..i].iter().enumerate() {
        s -= get(a, i, p) * *x;
    }
    s
}

impl Matrix {
    #[tactic(auto, using(crate::proofs::Loops::loops), unfolding(crate::specs::Solve::forward))]
    pub fn forward(&self, b: &[f64; 40]) -> [f64; 40]
        ensures { result ≡ forward self.now.k self.now.a b.now }
    {
        let mut y = [0f64; 40];
        // i is a place in b and y and a row of a.
        for i in 0..self.k {
            let s = forward_sum(&self.a, b, &y, i);
            y[i] = s / get(&self.a, i, i);
        }
        y
    }

    #[tactic(auto, using(crate::proofs::Loops::loops), unfolding(crate::specs::Solve::backward_sum))]
    fn backward_sum(&self, y: &[f64; 40], w: &[f64; 40], i: usize) -> f64
        requires { i < self.now.k }
        ensures { result ≡ backward_sum self.now.k self.now.a y.now w.now i }
    {
        let mut s = y[i];
        // p is a place in w and a row of a: of w[i + 1..k] the places would count from 0, and the row would be p + i +
        // 1.
        for p in i + 1..self.k {
            s -= get(&self.a, p, i) * w[p];
        }
        s
    }

    #[tactic(auto, using(crate::proofs::Loops::loops), unfolding(crate::specs::Solve::backward))]
    pub fn backward(&self, y: &[f64; 40]) -> [f64; 40]
        ensures { result ≡ backward self.now.k self.now.a y.now }
    {
        let mut w = [0f64; 40];
        // i is a place in y and w and a row of a.
        for i in (0..self.k).rev() {
            let s = self.backward_sum(y, &w, i);
            w[i] = s / get(&self.a, i, i);
        }
        w
    }
}
