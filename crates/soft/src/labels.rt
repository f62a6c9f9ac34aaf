ghost use Rattle.std.specs.Prelude.{◌≡◌, ◌≤◌, length};
ghost use Rattle.soft.specs.Tree.{Children, Level};

use crate::bit::{Costs, costs_of};

// The labels of a level, each one bit longer: by a 0, and by a 1. By the index: no contract of the kit says what a list
// ends as that `as_chunks_mut` or `chunks_exact_mut` lent out in pairs.
#[tactic(auto, using(seq::specs::Tab::Laws::tab_none, crate::proofs::Prefix::length_page, crate::proofs::Prefix::two_more, crate::proofs::Prefix::written), unfolding(crate::specs::Tree::page))]
fn split(up: &[f32], c: Costs) -> [f32; 64]
    requires { length up.now ≤ 32 }
    ensures { Children up.now (length up.now) c.zero c.one result }
{
    let mut out = [0f32; 64];
    for (i, &v) in up.iter().enumerate() {
        out[2 * i] = v - c.zero;
        out[2 * i + 1] = v - c.one;
    }
    out
}

// The logarithms of the probabilities of all labels of as many bits as there are likelihoods: labels that begin alike
// share what they begin with.
#[tactic(auto, using(crate::proofs::Prefix::at_most_32, crate::proofs::Prefix::level_none), unfolding(crate::specs::Tree::page))]
pub fn log_probabilities(llr: &[f32]) -> [f32; 64]
    requires { length llr.now ≤ 6 }
    ensures { Level llr.now (length llr.now) result }
{
    let mut lp = [0f32; 64];
    for (b, &prior) in llr.iter().enumerate() {
        let lam = ieee::clamp(prior, -30.0, 30.0);
        let c = costs_of(lam);
        lp = split(&lp[..points::count(b)], c);
    }
    lp
}
