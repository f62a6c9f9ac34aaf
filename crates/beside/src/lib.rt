// Document 01's entries beside the refinement that take no burst. Part 10 stands in for the table of causes there.
#![tactic(auto)]

mod decision;
mod equalization;

pub use decision::decide;
pub use equalization::fde;
