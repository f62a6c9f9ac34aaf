// Document 01's entries on numbers. Each tests what it is handed, from the top of the table of causes, and writes
// nothing before the last test.
#![tactic(auto)]

mod power;
mod refinement;
mod single;
mod work;

pub use beside::{decide, fde};
pub use cause::Cause;
pub use power::channel_power;
pub use refinement::refine;
pub use single::estimate;
