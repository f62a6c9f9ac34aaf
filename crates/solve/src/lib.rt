// est.rs, solve_spd: a Cholesky solve of 40 unknowns at most.
#![tactic(auto)]

mod factor;
mod matrix;
mod rows;
mod substitute;

ghost use Rattle.std.specs.Prelude.{◌≡◌};
ghost use Rattle.solve.specs.Solve.{factor, solve_spd};

pub use matrix::{Matrix, get, put};

impl Matrix {
    // Solves A w = b for a symmetric positive definite A of k rows, whose lower triangle becomes its factor.
    #[tactic(auto, unfolding(crate::specs::Solve::solve_spd))]
    pub fn solve_spd(&mut self, b: &[f64; 40]) -> [f64; 40]
        ensures { (self.new.a ≡ factor self.old.k self.old.a) × (result ≡ solve_spd self.old.k self.old.a b.now) × (self.new.k ≡ self.old.k) }
    {
        self.factorise();
        let y = self.forward(b);
        self.backward(&y)
    }
}
