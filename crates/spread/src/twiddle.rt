// `Spreader::new`: the twiddle factors. m has its bound at each function here: a Spreader is not there before they are.
ghost use Rattle.std.specs.Prelude.{◌≡◌, ◌<◌, ◌≤◌};
ghost use Rattle.spread.specs.Spreader.{angle, twiddle, twiddles_of};

use dsp::Complex;
use std::f64::consts::TAU;

// -2πk/m
#[tactic(auto, unfolding(crate::specs::Spreader::angle))]
fn angle(m: usize, k: usize) -> f64
    requires { (k < m) × (m ≤ 109) }
    ensures { result ≡ angle m k }
{
    -TAU * (k as f64) / (m as f64)
}

// e^{-j2πk/m}
#[tactic(auto, unfolding(crate::specs::Spreader::twiddle))]
fn twiddle(m: usize, k: usize) -> Complex
    requires { (k < m) × (m ≤ 109) }
    ensures { result ≡ twiddle m k }
{
    let a = angle(m, k);
    Complex::new(
        ieee::narrow(elementary::cos(a)),
        ieee::narrow(elementary::sin(a)),
    )
}

// All m of them, and zeros past them.
#[tactic(auto, using(crate::proofs::Spreading::twiddling), unfolding(crate::specs::Spreader::twiddles_of))]
pub fn twiddles(m: usize) -> [f32; 218]
    requires { m ≤ 109 }
    ensures { result ≡ twiddles_of m }
{
    let mut tw = [0.0f32; 218];
    // k is the factor's number.
    for k in 0..m {
        twiddle(m, k).put(&mut tw, k);
    }
    tw
}
