// Words and numbers at the end of a text that has room for them. Nothing here fails: a formatter would answer a Result,
// and no contract says that it is Ok.
ghost use Rattle.std.specs.Prelude.{◌≡◌, ◌+◌, ◌≤◌, ◌++◌, length};
ghost use Rattle.burst.specs.Digits.{decimal};

use arrayvec::ArrayVec;
use itoa::Buffer;

// Room for the longest heading and 4,086 lines of nine bytes.
pub type Text = ArrayVec<u8, 36864>;

pub fn put_word(word: &[u8], text: &mut Text)
    requires { length text.old.items + length word.now ≤ 36864 }
    ensures { text.new.items ≡ text.old.items ++ word.now }
{
    // The word has room, so this is no Err.
    text.try_extend_from_slice(word).unwrap();
}

#[tactic(auto, using(crate::proofs::Formatted::decimal_is))]
pub fn put_decimal(n: u32, text: &mut Text)
    requires { length text.old.items + 10 ≤ 36864 }
    ensures items { text.new.items ≡ text.old.items ++ decimal n }
    ensures upper_bound { length text.new.items ≤ length text.old.items + 10 }
{
    put_word(Buffer::new().format(n).as_bytes(), text);
}

// A word and a number in decimal, which has at most ten digits.
pub fn put_number(word: &[u8], n: u32, text: &mut Text)
    requires { length text.old.items + length word.now + 10 ≤ 36864 }
    ensures items { text.new.items ≡ text.old.items ++ (word.now ++ decimal n) }
    ensures upper_bound { length text.new.items ≤ length text.old.items + length word.now + 10 }
{
    put_word(word, text);
    put_decimal(n, text);
}
