ghost use Rattle.std.specs.Prelude.{◌≡◌, ◌*◌, ◌/◌, ◌^◌, ◌<◌, ◌≤◌};
ghost use Rattle.elementary.specs.Domain.{InTurns};
ghost use Rattle.elementary.specs.FixedPoint.{B};
ghost use Rattle.elementary.specs.Circular.{sin_sum, cos_sum, turned, wave_at, sin_at, cos_at};

use crate::fixed::{B, over64, size30};

// A quarter turn at the scale B.
const H: u64 = 1686629713;

// What an angle has past its whole quarters, at the scale B: f, and its square g, which is F of the definitions.
#[derive(Clone, Copy)]
struct Rest {
    f: u64,
    g: u64,
    ghost in_quarter: { f < 1686629713 },
    ghost square: { g ≤ 3 * B },
}

impl Rest {
    // The turns of s, where K is 0, and those of c but the last, where K is 1.
    // Each divides by two neighbours, the first of which is 2j or one less.
    fn steps<const K: u64>(self) -> u64
        requires { K ≤ 1 }
        ensures sin { K ≡ 0 → result ≡ sin_sum self.g }
        ensures cos { K ≡ 1 → result ≡ cos_sum self.g }
        ensures most { result ≤ B }
    {
        let mut s: u64 = B;
        // j is the turn's number.
        for j in (1 + K..9).rev() {
            let d = 2 * j - K;
            s = B - self.g * s / B / (d * (d + 1));
        }
        s
    }

    // s at f.
    fn sine(self) -> u64
        ensures { (result ≡ self.f * sin_sum self.g / B) × (result < 2 ^ 53) }
    {
        self.f * self.steps::<0>() / B
    }

    // What the last turn of c takes from B.
    fn taken(self) -> u64
        ensures { (result ≡ self.g * cos_sum self.g / B / 2) × (result < 2 ^ 53) }
    {
        self.g * self.steps::<1>() / B / 2
    }

    // s, c, -s or -c over B, of which only the sum that the quarter r needs is made.
    #[tactic(auto, using(crate::proofs::Quarters::quarters))]
    fn turn(self, r: u64) -> f64
        requires { r < 4 }
        ensures { result ≡ turned r (self.f * sin_sum self.g / B) (self.g * cos_sum self.g / B / 2) }
    {
        if r % 2 == 0 {
            let s = self.sine();
            if r == 0 {
                return over64(s, 0);
            }
            return over64(0, s);
        }
        let t = self.taken();
        if r == 1 {
            return over64(B, t);
        }
        over64(t, B)
    }
}

// sin at the size q / B, or n quarters further on: a number of quarters, as the recipe's k.
#[tactic(auto, unfolding(crate::specs::Circular::wave_at, crate::specs::Circular::sin_part, crate::specs::Circular::cos_taken))]
fn wave(n: u64, q: u64) -> f64
    requires { (n ≤ 1) × (q ≤ 2 ^ 40) }
    ensures { result ≡ wave_at n q }
{
    let k = q / H;
    let f = q - k * H;
    let rest = Rest { f, g: f * f / B };
    rest.turn((k + n) % 4)
}

// The sine of p, which a negative p negates as a float. `InTurns` is a clause, of `cos` and `size30` too: a caller
// makes an angle for one or two calls, and a struct of it would be made there for these alone and opened here at once.
#[tactic(auto, using(crate::proofs::Quarters::sines))]
pub fn sin(p: f64) -> f64
    requires { InTurns p }
    ensures { result ≡ sin_at p }
{
    if p.is_nan() {
        return f64::NAN;
    }
    if p < 0.0 {
        return -wave(0, size30(p));
    }
    wave(0, size30(p))
}

// The cosine of p, which is the sine a quarter further on.
#[tactic(auto, using(crate::proofs::Quarters::cosines))]
pub fn cos(p: f64) -> f64
    requires { InTurns p }
    ensures { result ≡ cos_at p }
{
    if p.is_nan() {
        return f64::NAN;
    }
    wave(1, size30(p))
}
