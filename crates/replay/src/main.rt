// Replays stored records: standard input is a sequence of entries, each with a record's length and its answer's length
// (two bytes each, the most significant first), the number that the call returns, the record and the answer. Prints the
// place of each that differs, counted from 0, and how many there were.
#![tactic(auto)]

mod entry;

ghost use Rattle.std.specs.Prelude.{◌≡◌, true, ◌+◌, ◌*◌, ◌≤◌, ◌<◌, length, take, IfOk, IfSome};
ghost use Rattle.std.specs.Io.KnownBytes.{Consumes};
ghost use Rattle.replay.specs.Stored.{Holds};

use std::io;
use std::io::Read;
use stored::{Tally, filled};

// Two bytes as a length.
fn length_of(high: u8, low: u8) -> usize
    ensures { result ≡ high * 256 + low }
{
    usize::from(u16::from_be_bytes([high, low]))
}

// Reads n bytes to the start of the space; false where there is no room or no input for them. An entry gives n, which
// may be more than the space has.
fn read<R: Read>(from: &mut R, n: usize, space: &mut [u8]) -> io::Result<bool>
    ensures room { IfOk result (λ whole. whole ≡ true → n ≤ length space.new) }
    ensures bytes { IfOk result (λ whole. whole ≡ true → Consumes (R.remaining from.old) (R.remaining from.new) (take n space.new)) }
{
    if space.len() < n {
        return Ok(false);
    }
    filled(from, &mut space[..n])
}

// The rest of an entry read and repeated. One that is not whole differs.
#[tactic(auto, using(crate::proofs::Agreeing::held))]
fn replayed<R: Read>(from: &mut R, head: &[u8; 5]) -> io::Result<bool>
    ensures { IfOk result (λ same. same ≡ true → IfSome (R.remaining from.old) (Holds head.now)) }
{
    let m = length_of(head[0], head[1]);
    let k = length_of(head[2], head[3]);
    // Room for a record of any length that two bytes give.
    let mut rec = [0; 65536];
    // Room for the longest answer.
    let mut answer = [0; 16354];
    if !read(from, m, &mut rec)? {
        return Ok(false);
    }
    if !read(from, k, &mut answer)? {
        return Ok(false);
    }
    Ok(entry::agrees(&rec[..m], head[4], &answer[..k]))
}

fn main(rt: HostRuntime) -> io::Result<()> {
    let mut input = rt.stdin();
    let mut t = Tally::NONE;
    let mut head = [0u8; 5];
    // No list has the entries: the range ends the loop whatever the input.
    for _ in 0usize..100_000 {
        if !filled(&mut input, &mut head)? {
            break;
        }
        let same = replayed(&mut input, &head)?;
        if !same {
            let at = t.read;
            println!(rt; "{at} differs")?;
        }
        t = t.counted(same);
    }
    let Tally { read, differ } = t;
    println!(rt; "{read} records, {differ} different")
}
