// The entries under C names, for the comparison with the Rust. None has a `requires`.
#![tactic(auto)]

mod channels;
mod decisions;
mod equalizations;
mod refinements;
mod told;

pub use channels::{probe_channel_power, probe_single_estimate};
pub use decisions::probe_decide_entry;
pub use equalizations::probe_fde;
pub use refinements::{Report, probe_refine};
pub use told::Told;
