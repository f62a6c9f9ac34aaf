// refine.rs, `refine`: the cells of one data symbol, estimated without their own pilots and judged.
#![tactic(auto)]

mod estimates;
mod fitted;
mod places;
mod plain;
mod spreading;
mod symbol;

pub use estimates::{Fitted, pilot_index};
pub use fitted::fit;
pub use spreading::Spreading;
pub use symbol::Judge;
