// What is answered to the bytes of a burst record of document 01; `record_c` exports it.
#![tactic(auto)]

mod calls;
mod judging;

pub use calls::{record_bits, refine_record, refine_record_channel};
