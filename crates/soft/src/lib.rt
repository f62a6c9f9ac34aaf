// The expected value and the variance of a data cell under its priors, after refine.rs.
#![tactic(auto)]

mod bit;
mod flat;
mod labels;
mod moments;

pub use bit::softplus;
pub use moments::{Soft, loud, soft_point};
