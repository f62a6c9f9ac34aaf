// A cell's likelihoods and its nearest point, after est.rs.
#![tactic(auto)]

mod decision;
mod halves;
mod likelihoods;
mod metrics;
mod shared;

pub use decision::{decide, decide_among};
pub use likelihoods::demap;
pub use metrics::Cell;
