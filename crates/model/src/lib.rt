// est.rs, `select_model`: the model of the channel that the pilots bear out best.
#![tactic(auto)]

mod select;
mod trial;
mod values;

pub use select::{Model, select_model};
pub use trial::{Setting, Trial, Tried, score};
pub use values::{fd_value, numerology, tm_value, window};
