// Bits and slots: the scrambler, the interleaver's step, and a burst's numbers in slot order and in bit order.
#![tactic(auto)]

mod mix;
mod slots;
mod step;

pub use mix::{SEED_DATA, SEED_HDR, mix32, scramble, sign, wrapping_mul};
pub use slots::{fill_bits, fill_slots, from_slots, slot, to_slots, value_at};
pub use step::interleave_step;
