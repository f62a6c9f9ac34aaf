// A header's 48 bits.
ghost use Rattle.std.specs.Prelude.{◌≡◌, length};
ghost use Rattle.cause.specs.Causes.{number_of};
ghost use Rattle.header.specs.Frame.{frame_of, write_refusal, Writes};

use crate::bit_list::push_bits;
use crate::check::crc16;
use crate::fields::Header;
use cause::Cause;

// 32 bits of information, then their check under a mask.
#[tactic(auto, using(crate::proofs::Framing::framed))]
fn put_frame(b: &mut [u8], info: u32, mask: u16)
    requires { length b.old ≡ 48 }
    ensures { b.new ≡ frame_of info mask }
{
    let (front, back) = b.split_at_mut(32);
    push_bits(front, info);
    push_bits(back, u32::from(crc16(front) ^ mask));
}

// The table's rows for writing. The layout is a number: a call may name one that does not exist, which is refused as
// `Cause::Layout`.
#[tactic(auto, unfolding(crate::specs::Frame::write_refusal))]
fn tested(h: Header, layout: u32) -> Result<(), Cause>
    ensures { number_of result ≡ write_refusal layout h }
{
    if layout > 8 {
        return Err(Cause::Layout);
    }
    if !h.accepted() {
        return Err(Cause::Fields);
    }
    Ok(())
}

// A refusal leaves the array as it was.
#[tactic(auto, using(crate::proofs::Framing::writing))]
pub fn header_bits(h: Header, layout: u32, out: &mut [u8; 48]) -> Result<(), Cause>
    ensures { Writes layout h (number_of result) out.old out.new }
{
    tested(h, layout)?;
    let masks = layout::layout(layout);
    if h.nsym == 0 {
        put_frame(out, h.only_info(), masks.crc_ho);
    } else {
        put_frame(out, h.data_info(), masks.crc_data);
    }
    Ok(())
}
