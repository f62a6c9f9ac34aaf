// Bytes read from the input.
ghost use Rattle.std.specs.Prelude.{◌≡◌, true, IfOk};
ghost use Rattle.std.specs.Io.KnownBytes.{Consumes};

use std::io;
use std::io::{ErrorKind, Read};

// Fills the page with the next bytes; false where the input ends first.
pub fn filled<R: Read>(from: &mut R, page: &mut [u8]) -> io::Result<bool>
    ensures { IfOk result (λ full. full ≡ true → Consumes (R.remaining from.old) (R.remaining from.new) page.new) }
{
    match from.read_exact(page) {
        Ok(()) => Ok(true),
        Err(e) if e.kind() == ErrorKind::UnexpectedEof => Ok(false),
        Err(e) => Err(e),
    }
}
