#![tactic(auto)]

mod circular;
mod exponential;
mod fixed;
mod gains;
mod logarithm;

pub use circular::{cos, sin};
pub use exponential::exp;
pub use gains::gain;
pub use logarithm::{ln, ln_1p};
