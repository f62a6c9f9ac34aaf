// Where the cells of a burst lie: the nine layouts, their pilot patterns, what is known of a cell, and the data
// carriers.
#![tactic(auto)]

mod carriers;
mod known;
mod layouts;
mod map;
mod number;
mod pattern;
mod sizes;

pub use layouts::Layout;
pub use map::Map;
pub use number::layout;
pub use pattern::Pattern;
