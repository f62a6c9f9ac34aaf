// Replays stored answers of the Rust: each line of standard input has a function's code, two arguments and the answer,
// as hexadecimal bits. Prints how many lines it read and how many answers differ.
#![tactic(auto)]

mod answers;
mod line;

use std::io;
use stored::{Tally, filled};

fn main(rt: HostRuntime) -> io::Result<()> {
    let mut input = rt.stdin();
    let mut t = Tally::NONE;
    let mut text = [0u8; 54];
    // No list has the lines: the range ends the loop whatever the input.
    for _ in 0usize..100_000 {
        if !filled(&mut input, &mut text)? {
            break;
        }
        t = t.counted(line::agrees(&text));
    }
    let Tally { read, differ } = t;
    println!(rt; "{read} answers replayed, {differ} differ")
}
