// Document 01's lines of an answer's bytes, or of a refusal, at the end of a text.
ghost use Rattle.std.specs.Prelude.{◌≡◌, ◌+◌, ◌*◌, ◌/◌, ◌≤◌, ◌++◌, length};
ghost use Rattle.seq.specs.Cat.{cat};
ghost use Rattle.words.specs.Bytes.{word_at};
ghost use Rattle.burst.specs.Lines.{shown_zero, line_of, model_of, heading_of, refused_of, answer_lines};

use crate::digits::put_hex;
use crate::text::{Text, put_number, put_word};

// Either zero is shown as 00000000.
#[tactic(auto, unfolding(crate::specs::Lines::shown_zero))]
fn shown(x: u32) -> u32
    ensures { result ≡ shown_zero x }
{
    if x == 0x8000_0000 {
        return 0;
    }
    x
}

fn put_line(x: u32, text: &mut Text)
    requires { length text.old.items + 9 ≤ 36864 }
    ensures items { text.new.items ≡ text.old.items ++ line_of x }
    ensures upper_bound { length text.new.items ≤ length text.old.items + 9 }
{
    put_hex(shown(x), text);
    put_word(b"\n", text);
}

// Likelihoods, four bytes each.
fn put_lines(numbers: &[u8], text: &mut Text)
    requires { length text.old.items + length numbers.now / 4 * 9 ≤ 36864 }
    ensures { text.new.items ≡ text.old.items ++ cat (length numbers.now / 4) (λ i. line_of (word_at numbers.now (4 * i))) }
{
    let (fours, _) = numbers.as_chunks::<4>();
    for bytes in fours {
        put_line(words::word_at(bytes, 0), text);
    }
}

fn put_model(bits: u32, fd: u8, tm: u8, text: &mut Text)
    requires { length text.old.items + 43 ≤ 36864 }
    ensures items { text.new.items ≡ text.old.items ++ model_of bits fd tm }
    ensures upper_bound { length text.new.items ≤ length text.old.items + 43 }
{
    put_number(b"bits ", bits, text);
    put_number(b" model ", u32::from(fd), text);
    put_number(b" ", u32::from(tm), text);
}

fn put_heading(bits: u32, fd: u8, tm: u8, scale: u32, spoilt: u32, text: &mut Text)
    requires { length text.old.items + 77 ≤ 36864 }
    ensures items { text.new.items ≡ text.old.items ++ heading_of bits fd tm scale spoilt }
    ensures upper_bound { length text.new.items ≤ length text.old.items + 77 }
{
    put_model(bits, fd, tm, text);
    put_word(b" scale ", text);
    put_hex(shown(scale), text);
    put_number(b" spoilt ", spoilt, text);
    put_word(b"\n", text);
}

// Promised for any number: a `Cause` would be narrower, its twelve alone.
pub fn put_refused(q: u32, text: &mut Text)
    requires { length text.old.items + 77 ≤ 36864 }
    ensures { text.new.items ≡ text.old.items ++ refused_of q }
{
    put_number(b"refused ", q, text);
    put_word(b"\n", text);
}

// The report in the answer's first ten bytes, then its n likelihoods. The bytes have room for the longest answer: cut
// to this one, they would give n, which is printed, only as a quarter of what stands past ten.
pub fn put_answer(answer: &[u8], n: usize, text: &mut Text)
    requires answer { 10 + 4 * n ≤ length answer.now }
    requires most { n ≤ 4086 }
    requires text { length text.old.items + 77 + n * 9 ≤ 36864 }
    ensures { text.new.items ≡ text.old.items ++ answer_lines answer.now n }
{
    let scale = words::word_at(answer, 2);
    let spoilt = words::word_at(answer, 6);
    put_heading(n as u32, answer[0], answer[1], scale, spoilt, text);
    put_lines(&answer[10..10 + 4 * n], text);
}
