// The header's check: CRC-16 by the generator of V.41, start FFFF.
ghost use Rattle.std.specs.Prelude.{◌≡◌};
ghost use Rattle.header.specs.Check.{crc16_of, shifted};

// One bit through the register.
#[tactic(auto, using(crate::proofs::Register::on, crate::proofs::Register::off))]
fn shift(crc: u16, b: u8) -> u16
    ensures { result ≡ shifted crc b }
{
    let fb = ((crc >> 15) as u8 ^ b) & 1;
    let r = crc << 1;
    if fb == 1 {
        return r ^ 0x1021;
    }
    r
}

// Over bits, one a byte; the lowest bit of each counts.
pub fn crc16(bits: &[u8]) -> u16
    ensures { result ≡ crc16_of bits.now }
{
    bits.iter().fold(0xFFFF, |crc, b| shift(crc, *b))
}
