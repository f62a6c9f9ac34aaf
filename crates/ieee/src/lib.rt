// IEEE 754 where the language leaves it open: narrowing, square roots, and what depends on how two numbers compare.
#![tactic(auto)]

mod binary;
mod convert;
mod newton;
mod order;
mod square_root;

pub use binary::Binary;
pub use convert::narrow;
pub use order::{abs, clamp, is_finite, max};
pub use square_root::sqrt;
