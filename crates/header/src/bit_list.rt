// Numbers as bits, one a byte, the highest first.
ghost use Rattle.std.specs.Prelude.{◌≡◌, ◌≤◌, length};
ghost use Rattle.header.specs.Bits.{are_bits, value, digits};

// Every byte is 0 or 1.
pub(crate) fn all_bits(bits: &[u8]) -> bool
    ensures { result ≡ are_bits bits.now }
{
    bits.iter().all(|b| *b < 2)
}

// The number that the bits write.
#[tactic(auto, using(crate::proofs::Digits::reading), unfolding(crate::specs::Bits::value))]
pub(crate) fn read_bits(bits: &[u8]) -> u32
    requires { length bits.now ≤ 32 }
    ensures { result ≡ value bits.now }
{
    let mut v = 0;
    for b in bits {
        v = v * 2 + u32::from(*b % 2);
    }
    v
}

// The lowest digits of v, as many as the list holds.
#[tactic(auto, using(seq::specs::Tab::Laws::tab_none, seq::specs::Tab::Laws::tab_step))]
pub(crate) fn push_bits(out: &mut [u8], v: u32)
    requires { length out.old ≤ 32 }
    ensures { out.new ≡ digits (length out.old) v }
{
    let n = out.len();
    for (i, b) in out.iter_mut().enumerate() {
        *b = ((v >> (n - 1 - i)) % 2) as u8;
    }
}
