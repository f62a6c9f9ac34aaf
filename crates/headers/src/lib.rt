// The header's functions under C names, for the comparison with the Rust. None has a `requires`. Refusals and kinds are
// numbers, and a header's fields travel as parameters and as a list: C has no Result and no enum with values.
#![tactic(auto)]

ghost use Rattle.std.specs.Prelude.{◌≡◌};
ghost use Rattle.header.specs.Check.{crc16_of};
ghost use Rattle.header.specs.Frame.{Writes};
ghost use Rattle.headers.specs.Shown.{header_of, numbers_of, shown, Reads};

use cause::Cause;
use header::{DataMode, Header, Parsed};

#[unsafe(no_mangle)]
pub extern "C" fn probe_crc16(bits: &[u8]) -> u16
    ensures { result ≡ crc16_of bits.now }
{
    header::crc16(bits)
}

// 0, or the refusal's number, which leaves the array as it was.
#[unsafe(no_mangle)]
pub extern "C" fn probe_header_bits(
    constellation: u8,
    nsym: u16,
    user: u16,
    extra: u16,
    sparse: bool,
    spread: bool,
    gain_code: u8,
    layout: u32,
    out: &mut [u8; 48],
) -> u32
    ensures { Writes layout (header_of constellation nsym user extra sparse spread gain_code) result out.old out.new }
{
    let h = Header {
        constellation,
        nsym,
        user,
        extra,
        sparse,
        mode: DataMode { spread, gain_code },
    };
    cause::number(&header::header_bits(h, layout, out))
}

fn numbers(kind: u32, h: Header) -> [u32; 8]
    ensures { result ≡ numbers_of kind h }
{
    [
        kind,
        u32::from(h.constellation),
        u32::from(h.nsym),
        u32::from(h.user),
        u32::from(h.extra),
        u32::from(h.sparse),
        u32::from(h.mode.spread),
        u32::from(h.mode.gain_code),
    ]
}

// A refusal shows nothing.
fn show(answer: &Result<Parsed, Cause>, out: &mut [u32; 8])
    ensures { out.new ≡ shown answer.now out.old }
{
    match answer {
        Ok(Parsed::Data(h)) => *out = numbers(0, *h),
        Ok(Parsed::HeaderOnly(h)) => *out = numbers(1, *h),
        Err(_) => {}
    }
}

// 0, with the kind and the fields, or the refusal's number.
#[unsafe(no_mangle)]
pub extern "C" fn probe_parse_header(b: &[u8; 48], layout: u32, out: &mut [u32; 8]) -> u32
    ensures { Reads layout b.now result out.old out.new }
{
    let answer = header::parse_header(b, layout);
    show(&answer, out);
    cause::number(&answer)
}
