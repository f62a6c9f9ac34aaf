// What the programs that replay stored answers share.
#![tactic(auto)]

mod input;
mod tally;

pub use input::filled;
pub use tally::Tally;
