// Reads one burst record from standard input and prints document 01's lines of it.
#![tactic(auto)]

mod answer;
mod digits;
mod input;
mod lines;
mod text;

ghost use Rattle.std.specs.Prelude.{OnOk, IfSome};
ghost use Rattle.std.specs.Io.KnownBytes.{Appends};
ghost use Rattle.burst.specs.Lines.{lines_of};

use crate::input::read_full;
use crate::lines::write_lines;
use std::io;
use std::io::{Read, Write};

// Reads a record to the input's end and writes its lines.
fn answered<R: Read, W: Write>(from: &mut R, to: &mut W) -> io::Result<()>
    ensures { OnOk result (IfSome (R.remaining from.old) (λ rec. Appends (W.contents to.old) (W.contents to.new) (lines_of rec))) }
{
    // One byte more than a record may have, so that a longer one is seen.
    let mut input = [0; 8193];
    let n = read_full(from, &mut input)?;
    write_lines(&input[..n], to)
}

fn main(rt: HostRuntime) -> io::Result<()> {
    answered(&mut rt.stdin(), &mut rt.stdout())
}
