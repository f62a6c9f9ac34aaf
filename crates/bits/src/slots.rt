// A burst's n bits and the n slots that they sit at: the first and the last loop of refine.rs `refine`.
// That n is at most `longest` is a clause of each function: n is the length of a list that is lent, and a struct of the
// list would be made for the one call that a burst's path makes of each.
ghost use Rattle.std.specs.Prelude.{◌≡◌, ◌<◌, ◌≤◌, ◌++◌, length, drop, slice_index_or};
ghost use Rattle.bits.specs.Step.{step_of};
ghost use Rattle.bits.specs.Slots.{longest, slot_of, nought, slot_priors, bit_order};

use crate::mix::sign;
use crate::step::interleave_step;

// The slot of bit i, with the step a at hand. Every walk over the bits takes its slots from here.
#[tactic(auto, using(crate::proofs::Search::step_good), unfolding(crate::specs::Slots::slot_of))]
fn slot_by(a: usize, n: usize, i: usize) -> usize
    requires { (n ≤ longest) × (a ≡ step_of n) × (i < n) }
    ensures { (result ≡ slot_of n i) × (result < n) }
{
    a * i % n
}

// The slot of bit i of n.
pub fn slot(n: usize, i: usize) -> usize
    requires { (n ≤ longest) × (i < n) }
    ensures { result ≡ slot_of n i }
{
    slot_by(interleave_step(n), n, i)
}

// The number at i, or 0 where there is none.
pub fn value_at(s: &[f32], i: usize) -> f32
    ensures { result ≡ slice_index_or s.now i nought }
{
    s.get(i).copied().unwrap_or(0.0)
}

// The priors, scrambled, each at its slot: `out` has a place for each of the burst's bits, and there may be fewer
// priors.
#[tactic(auto, using(crate::proofs::Laws::filling), unfolding(crate::specs::Slots::prior_bit))]
pub fn fill_slots(prior: &[f32], out: &mut [f32])
    requires { (0 < length out.old) × (length out.old ≤ longest) }
    ensures { out.new ≡ slot_priors (length out.old) prior.now }
{
    let n = out.len();
    let a = interleave_step(n);
    // i is the bit's number: its slot and its sign come of it.
    for i in 0..n {
        let s = slot_by(a, n, i);
        out[s] = sign(i, value_at(prior, i));
    }
}

// The n priors, scrambled, each at its slot; what `out` has past them stays.
pub fn to_slots(prior: &[f32], n: usize, out: &mut [f32])
    requires { (0 < n) × (n ≤ longest) × (n ≤ length out.old) }
    ensures { out.new ≡ slot_priors n prior.now ++ drop n out.old }
{
    fill_slots(prior, &mut out[..n]);
}

// The numbers in bit order, unscrambled: a slot for each of `out`. Its walk is not `fill_slots`'s: that writes at the
// slot and reads at the bit, this the other way about, and one function for both would ask for each place by a closure
// of its own.
#[tactic(auto, using(crate::proofs::Laws::tabbing), unfolding(crate::specs::Slots::bit_of, crate::specs::Slots::bit_order))]
pub fn fill_bits(slots: &[f32], out: &mut [f32])
    requires { (0 < length out.old) × (length out.old ≤ longest) × (length out.old ≤ length slots.now) }
    ensures { out.new ≡ bit_order (length out.old) slots.now }
{
    let n = out.len();
    let a = interleave_step(n);
    for (i, v) in out.iter_mut().enumerate() {
        let s = slot_by(a, n, i);
        *v = sign(i, slots[s]);
    }
}

// The n numbers in bit order, unscrambled; what `out` has past them stays.
pub fn from_slots(slots: &[f32], n: usize, out: &mut [f32])
    requires { (0 < n) × (n ≤ longest) × (n ≤ length slots.now) × (n ≤ length out.old) }
    ensures { out.new ≡ bit_order n slots.now ++ drop n out.old }
{
    fill_bits(slots, &mut out[..n]);
}
