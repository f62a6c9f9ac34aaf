// Document 01's lines of a record.
ghost use Rattle.std.specs.Prelude.{◌≡◌, OnOk};
ghost use Rattle.std.specs.Io.KnownBytes.{Appends};
ghost use Rattle.burst.specs.Lines.{lines_of};

use crate::answer::{put_answer, put_refused};
use crate::text::Text;
use std::io;
use std::io::Write;

// The lines themselves. That they are made, whatever becomes of the output, is promised here.
pub fn lines(rec: &[u8]) -> Text
    ensures { result.items ≡ lines_of rec.now }
{
    let mut text = Text::new();
    // Room for the longest answer: 10 + 4 × 4,086 bytes.
    let mut answer = [0; 16354];
    if let Err(cause) = record::refine_record(rec, &mut answer) {
        put_refused(u32::from(cause), &mut text);
        return text;
    }
    // A record that was not turned away has its bits (`some_bits`).
    let bits = record::record_bits(rec).unwrap();
    put_answer(&answer, bits, &mut text);
    text
}

// In one write, not one for each piece: between those another program's output could fall.
pub fn write_lines<W: Write>(rec: &[u8], to: &mut W) -> io::Result<()>
    ensures { OnOk result (Appends (W.contents to.old) (W.contents to.new) (lines_of rec.now)) }
{
    to.write_all(&lines(rec))
}
