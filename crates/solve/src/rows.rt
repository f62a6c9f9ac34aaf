// N rows of a column at once: in a row each difference waits for the one before, and the rows need not wait for each
// other.
ghost use Rattle.std.specs.Prelude.{◌≡◌, ℕ, ◌+◌, ◌<◌, ◌≤◌};
ghost use Rattle.seq.specs.Loop.{for};
ghost use Rattle.ieee.specs.Num.{◌⊖◌, ◌⊗◌};
ghost use Rattle.solve.specs.Rows.{ReducedRows};
ghost use Rattle.solve.specs.Solve.{at, at2, below};

use crate::matrix::{get, put};

// Column j of the rows from i on.
fn rows_of_column<const N: usize>(a: &[f64; 1600], i: usize, j: usize) -> [f64; N]
    requires { (i + N ≤ 40) × (j < 40) }
    ensures { (r : ℕ) → r < N → at result r ≡ at2 a.now (i + r) j }
{
    // Not by `array::from_fn`: tried, that the array then has what the closure gives did not prove.
    let mut s = [0.0f64; N];
    for (r, x) in s.iter_mut().enumerate() {
        *x = get(a, i + r, j);
    }
    s
}

// Takes the products of column p with m from the rows' sums.
fn subtract<const N: usize>(a: &[f64; 1600], i: usize, p: usize, m: f64, s: &mut [f64; N])
    requires { (i + N ≤ 40) × (p < 40) }
    ensures { (r : ℕ) → r < N → at s.new r ≡ at s.old r ⊖ at2 a.now (i + r) p ⊗ m }
{
    for (r, x) in s.iter_mut().enumerate() {
        *x -= get(a, i + r, p) * m;
    }
}

// The same less their products with row j, up to column j.
#[tactic(auto, using(crate::proofs::Loops::loops), unfolding(crate::specs::Solve::reduced))]
pub fn reduce<const N: usize>(a: &[f64; 1600], i: usize, j: usize) -> [f64; N]
    requires { (i + N ≤ 40) × (j < 40) }
    ensures { ReducedRows N result a.now i j }
{
    let mut s = rows_of_column::<N>(a, i, j);
    // p is the column's number, of both rows.
    for p in 0..j {
        subtract(a, i, p, get(a, j, p), &mut s);
    }
    s
}

// The rows from i on, which are below the diagonal, in their place: reduced, and divided by d.
#[tactic(auto, using(crate::proofs::Loops::loops))]
pub fn below<const N: usize>(a: &mut [f64; 1600], i: usize, j: usize, d: f64)
    requires { (j < i) × (i + N ≤ 40) }
    ensures { a.new ≡ for i (i + N) (below j d) a.old }
{
    let s = reduce::<N>(a, i, j);
    for (r, x) in s.iter().enumerate() {
        put(a, i + r, j, *x / d);
    }
}
