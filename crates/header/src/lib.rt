// The burst header: 32 bits of information and a CRC-16, one bit a byte, written and read.
#![tactic(auto)]

mod bit_list;
mod check;
mod fields;
mod mode;
mod parse;
mod write;

pub use check::crc16;
pub use fields::Header;
pub use mode::DataMode;
pub use parse::{Parsed, parse_header};
pub use write::header_bits;
