// The burst record of document 01 in bytes: its fields and numbers read, its shape judged; and an answer in bytes.
#![tactic(auto)]

mod answer;
mod fields;
mod read;
mod shape;

pub use answer::{put_answer, put_numbers};
pub use fields::{Fields, fields_of, head};
pub use read::numbers;
pub use shape::{Sizes, bits, sizes_in, sizes_of};
