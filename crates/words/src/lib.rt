// Numbers in bytes, the most significant byte first.
#![tactic(auto)]

ghost use Rattle.std.specs.Prelude.{◌≡◌, ◌+◌, ◌≤◌, length};
ghost use Rattle.words.specs.Bytes.{word_at, word};

// The four bytes from place k. `u32::from_be_bytes` takes an array, which std gives of a slice as an Option or a
// Result: to name the four bytes is plainer than to unwrap it.
#[tactic(auto, unfolding(crate::specs::Bytes::word_at))]
pub fn word_at(s: &[u8], k: usize) -> u32
    requires { k + 4 ≤ length s.now }
    ensures { result ≡ word_at s.now k }
{
    u32::from_be_bytes([s[k], s[k + 1], s[k + 2], s[k + 3]])
}

#[tactic(auto, unfolding(crate::specs::Bytes::word))]
pub fn put_word(x: u32, out: &mut [u8])
    requires { length out.old ≡ 4 }
    ensures { out.new ≡ word x }
{
    out.copy_from_slice(&x.to_be_bytes());
}
