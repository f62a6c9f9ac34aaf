// One stored answer: 'CC AAAAAAAAAAAAAAAA BBBBBBBBBBBBBBBB RRRRRRRRRRRRRRRR' and a line's end.
ghost use Rattle.std.specs.Prelude.{◌<◌};

use crate::answers::answer;

// An upper-case hexadecimal digit; anything else counts as 0.
fn digit(b: u8) -> u64
    ensures { result < 16 }
{
    match b {
        b'0'..=b'9' => u64::from(b - b'0'),
        b'A'..=b'F' => u64::from(b - b'A') + 10,
        _ => 0,
    }
}

// The number that hexadecimal digits make. By hand: `from_str_radix` also takes a sign and small letters, and refuses
// the whole number for one other byte.
fn number(digits: &[u8]) -> u64 {
    digits
        .iter()
        .fold(0, |n, d| n % 0x1000_0000_0000_0000 * 16 + digit(*d))
}

pub fn agrees(text: &[u8; 54]) -> bool {
    let code = number(&text[..2]);
    let a = number(&text[3..19]);
    let b = number(&text[20..36]);
    answer(code, a, b) == number(&text[37..53])
}
