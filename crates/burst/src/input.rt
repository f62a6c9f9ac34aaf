// Bytes read from the input.
ghost use Rattle.std.specs.Prelude.{◌≡◌, ◌≤◌, length, take, IfOk, IfSome};

use std::io;
use std::io::Read;

// Reads until the page is full or the input ends; the answer is how many bytes were put at the page's start.
pub fn read_full<R: Read>(from: &mut R, page: &mut [u8]) -> io::Result<usize>
    ensures within { IfOk result (λ n. n ≤ length page.new) }
    ensures bytes { IfOk result (λ n. IfSome (R.remaining from.old) (λ xs. take n page.new ≡ take (length page.new) xs)) }
{
    let mut done = 0;
    // `read_exact` keeps no count where the input ends first, and `read_to_end` wants a Vec, which may find no memory.
    while done < page.len() {
        let n = from.read(&mut page[done..])?;
        if n == 0 {
            return Ok(done);
        }
        done += n;
    }
    Ok(done)
}
