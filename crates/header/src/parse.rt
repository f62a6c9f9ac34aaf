// A header from its 48 bits.
ghost use Rattle.std.specs.Prelude.{◌≡◌, length};
ghost use Rattle.header.specs.Frame.{Parses};

use crate::bit_list::{all_bits, read_bits};
use crate::check::crc16;
use crate::fields::Header;
use cause::Cause;

// The burst that a header announces. Both kinds are accepted: what is refused is an `Err`.
#[derive(Clone, Copy)]
pub enum Parsed {
    Data(Header),
    HeaderOnly(Header),
}

// The layout is a number: a call may name one that does not exist, which is refused as `Cause::Layout`.
fn parse_bits(b: &[u8], layout: u32) -> Result<Parsed, Cause>
    requires { length b.now ≡ 48 }
    ensures { Parses layout b.now result }
{
    if layout > 8 {
        return Err(Cause::Layout);
    }
    if !all_bits(b) {
        return Err(Cause::Fields);
    }
    let masks = layout::layout(layout);
    let (front, back) = b.split_at(32);
    let info = read_bits(front);
    let check = read_bits(back);
    let calc = crc16(front);
    if check == u32::from(calc ^ masks.crc_data) {
        if info / 1048576 % 1024 == 0 {
            return Err(Cause::NoSymbols);
        }
        return Ok(Parsed::Data(Header::data_from(info)));
    }
    if check == u32::from(calc ^ masks.crc_ho) {
        return Ok(Parsed::HeaderOnly(Header::only_from(info)));
    }
    Err(Cause::Check)
}

// The mask that the check fits says whether the burst has data or a header only.
pub fn parse_header(b: &[u8; 48], layout: u32) -> Result<Parsed, Cause>
    ensures { Parses layout b.now result }
{
    parse_bits(b, layout)
}
