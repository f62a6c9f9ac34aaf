ghost use Rattle.std.specs.Prelude.{◌≡◌, ◌+◌, ◌-◌, ◌*◌, ◌^◌, ◌<◌, ◌≤◌};
ghost use Rattle.std.specs.Float.Ieee.{of_bits, prec, hid, ones, emax};
ghost use Rattle.ieee.specs.Root.{Near, root_of, rooted};

use crate::binary::Binary;
use crate::newton::guess;

// The whole number nearest to the root of s, found from any guess by steps of one. No range is gone over: each
// loop ends by its test alone, mostly at once, so that a `for` over what it may at most take would be no plainer.
fn settle(g: u64, s: u128) -> u64
    requires { (g ≤ 2 ^ 53) × ((0 < s) × (s < 2 ^ 106)) }
    ensures { Near s result × (result ≤ 2 ^ 53) }
{
    let mut r = g;
    while (r as u128) * ((r + 1) as u128) < s {
        r += 1;
    }
    while ((r - 1) as u128) * (r as u128) >= s {
        r -= 1;
    }
    r
}

// The pattern of the root of m * 2^w squared smallest values, times 2^(the digits of m but one).
#[tactic(auto, using(crate::proofs::Rooting::root_value))]
fn root_parts<T: Binary>(m: u64, w: u64) -> u64
    requires digits { (hid T.format ≤ m) × (m < 2 ^ prec T.format) }
    requires exponent { w ≤ 3 * emax T.format - 2 }
    ensures root { of_bits T.format result ≡ root_of T.format (m * 2 ^ (prec T.format - 1 + w)) }
    ensures finite { result ≤ ones T.format * hid T.format }
{
    let p = w % 2;
    // The last digit's weight among the 53 of an f64.
    let unit = 0x10_0000_0000_0000 / T::HIDDEN;
    let g = (guess::<T>(m * unit, p) + unit / 2) / unit;
    let r = settle(g, ((m * (1 + p)) as u128) * (T::HIDDEN as u128));
    w / 2 * T::HIDDEN + r
}

fn root_pattern<T: Binary>(b: u64) -> u64
    requires { (0 < b) × (b < ones T.format * hid T.format) }
    ensures root { of_bits T.format result ≡ rooted T.format (of_bits T.format b) }
    ensures finite { result ≤ ones T.format * hid T.format }
{
    let e = b / T::HIDDEN;
    if e == 0 {
        let z = (b.leading_zeros() - T::HIDDEN.leading_zeros()) as u64;
        return root_parts::<T>(b << z, T::LARGEST - 1 - z);
    }
    root_parts::<T>(T::HIDDEN + b % T::HIDDEN, e + (T::LARGEST - 2))
}

// The square root of x, rounded to the nearest. std's `sqrt` is the processor's, one more operation to take on trust:
// nothing here rests on it, and nothing new may be trusted. This one is proved.
pub fn sqrt<T: Binary>(x: T) -> T
    ensures { T.value result ≡ rooted T.format (T.value x) }
{
    if x.is_nan() {
        return x;
    }
    let b = x.to_pattern();
    if b == 0 {
        return x;
    }
    if b < T::SIGN - T::HIDDEN {
        return T::of_pattern(root_pattern::<T>(b));
    }
    // The infinity, or -0.
    if b <= T::SIGN {
        return x;
    }
    T::not_a_number()
}
