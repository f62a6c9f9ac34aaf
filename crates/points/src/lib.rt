// The four constellations of a burst, after frame.rs: points by their Gray label, at unit mean energy.
#![tactic(auto)]

mod constellation;
mod power;
mod table;

pub use constellation::{bits_a_point, points};
pub use table::{Points, count};
