// The interleaver's step of frame.rs.
ghost use Rattle.std.specs.Prelude.{◌≡◌, ◌^◌, ◌<◌, ◌≤◌};
ghost use Rattle.bits.specs.Step.{gcd as gcd_of, start_of, step_of};

// frame.rs `gcd`.
#[tactic(auto, using(crate::proofs::Divisors::gcd_step, crate::proofs::Divisors::gcd_end))]
fn gcd(a: usize, b: usize) -> usize
    ensures { result ≡ gcd_of a b }
{
    let mut x = a;
    let mut y = b;
    // Euclid's steps end by this test, and no range is gone over.
    while y != 0 {
        let t = x % y;
        x = y;
        y = t;
    }
    x
}

// 0.61803398875 n rounded to a whole number, a half up: twice an f64 is exact.
fn start(n: usize) -> usize
    requires { (0 < n) × (n ≤ 2 ^ 52) }
    ensures { result ≡ start_of n }
{
    let x = std::num::nearest_u64_to_f64(n as u64) * 0.61803398875;
    let t = std::num::truncating_f64_to_u64(x * 2.0);
    ((t + 1) / 2) as usize
}

// frame.rs `interleave_step`: the first number from 0.61803398875 n up that is coprime to n.
#[tactic(auto, using(crate::proofs::Search::searching))]
pub fn interleave_step(n: usize) -> usize
    requires { n ≤ 2 ^ 52 }
    ensures { result ≡ step_of n }
{
    if n <= 2 {
        return 1;
    }
    let mut a = start(n);
    // A search with no end in sight stays a loop: `(a..).find(..)` would answer an Option that is never None.
    while gcd(a, n) != 1 {
        a += 1;
    }
    a
}
