// What is found of a burst, under C names, for the comparison with the Rust. None has a `requires`.
#![tactic(auto)]

mod estimates;
mod models;
mod work;

pub use estimates::{Asked, probe_estimates};
pub use models::{Selected, probe_models};
