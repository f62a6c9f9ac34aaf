// Document 01's table of causes for turning a burst away: a function a row, and all rows from the top.
#![tactic(auto)]

mod refusal;
mod rows;
mod settings;
mod sizes;

pub use refusal::verdict;
pub use settings::settings_verdict;
pub use sizes::{Lent, grid_cells, nc};
