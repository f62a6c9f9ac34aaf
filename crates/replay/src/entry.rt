// One stored record: the call repeated, and what it writes held against the stored answer.
ghost use Rattle.std.specs.Prelude.{◌≡◌, true, length};
ghost use Rattle.replay.specs.Stored.{over, Right, fresh};

// The answer's bytes, and no byte past them changed.
fn holds(out: &[u8], answer: &[u8], page: &[u8]) -> bool
    ensures { result ≡ true → out.now ≡ over answer.now page.now }
{
    let k = answer.len();
    if out.len() < k {
        return false;
    }
    if page.len() < k {
        return false;
    }
    if &out[..k] != answer {
        return false;
    }
    &out[k..] == &page[k..]
}

// The output has the page's bytes before the call. The number is a byte of the entry, which may be no cause's.
#[tactic(auto, using(crate::proofs::Agreeing::right))]
fn repeated(rec: &[u8], number: u8, answer: &[u8], page: &[u8], out: &mut [u8]) -> bool
    requires { out.old ≡ page.now }
    ensures { result ≡ true → Right rec.now number answer.now page.now }
{
    if cause::number(&record::refine_record(rec, out)) != u32::from(number) {
        return false;
    }
    holds(out, answer, page)
}

// The call gives the stored answer, and leaves the rest of a page as it was: 165 in each byte, as no answer leaves it.
#[tactic(auto, unfolding(crate::specs::Stored::fresh))]
pub fn agrees(rec: &[u8], number: u8, answer: &[u8]) -> bool
    ensures { result ≡ true → Right rec.now number answer.now fresh }
{
    let fresh = [165; 16354];
    let mut out = fresh;
    repeated(rec, number, answer, &fresh, &mut out)
}
