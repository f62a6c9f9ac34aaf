// What the loader finds at a cell, and the list of pilots that it makes: est.rs, `load_with`.
#![tactic(auto)]

mod found;
mod pilot;
mod pilots;
mod push;
mod rows;

pub use found::{Found, Loader, Source};
pub use pilot::Pilot;
pub use pilots::Pilots;
pub use push::{pilot_of, put};
