// Hexadecimal digits in ASCII.
ghost use Rattle.std.specs.Prelude.{◌≡◌, ◌+◌, ◌<◌, ◌≤◌, ◌++◌, length};
ghost use Rattle.burst.specs.Digits.{digit_of, pair_of, hex8};

use crate::text::{Text, put_word};

// Of 0 to 15.
#[tactic(auto, unfolding(crate::specs::Digits::digit_of))]
fn digit(n: u8) -> u8
    requires { n < 16 }
    ensures { result ≡ digit_of n }
{
    if n < 10 { b'0' + n } else { b'A' + (n - 10) }
}

// A byte's two digits.
#[tactic(auto, unfolding(crate::specs::Digits::pair_of))]
fn pair(b: u8) -> [u8; 2]
    ensures { result ≡ pair_of b }
{
    [digit(b / 16), digit(b % 16)]
}

// A number's eight digits.
pub fn put_hex(x: u32, text: &mut Text)
    requires { length text.old.items + 8 ≤ 36864 }
    ensures items { text.new.items ≡ text.old.items ++ hex8 x }
    ensures upper_bound { length text.new.items ≤ length text.old.items + 8 }
{
    put_word(&pair((x / 0x100_0000) as u8), text);
    put_word(&pair((x / 0x1_0000 % 256) as u8), text);
    put_word(&pair((x / 256 % 256) as u8), text);
    put_word(&pair((x % 256) as u8), text);
}
