// frame.rs, `Spreader`: the discrete Fourier transform that spreads a symbol's points over its carriers, and its
// inverse.
#![tactic(auto)]

mod spreader;
mod transform;
mod twiddle;

pub use spreader::{Factors, Spreader};
pub use twiddle::twiddles;
