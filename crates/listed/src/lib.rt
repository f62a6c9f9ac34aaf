// The single estimate from one lent list of pilot records: document 01, part 6.
#![tactic(auto)]

mod order;
mod single;

ghost use Rattle.std.specs.Prelude.{◌≡◌, length};
ghost use Rattle.listed.specs.Listed.{Askable, by_all};

use est::Estimate;
use load::{Pilot, put};
pub use single::Ask;
use single::single;

// By all pilots of the list. w and pf are lent to work in: two numbers and three numbers a pilot. They are two
// parameters: whole.rt of refine says why.
pub fn estimate(ps: &[Pilot], a: Ask, w: &mut [u32], pf: &mut [f32]) -> Estimate
    requires { Askable a ps.now (length w.old) (length pf.old) }
    ensures { result ≡ by_all a ps.now }
{
    let n = ps.len();
    for (i, p) in ps.iter().enumerate() {
        put(*p, n, i, w, pf);
    }
    single(n, a, w, pf)
}
