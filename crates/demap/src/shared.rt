ghost use Rattle.std.specs.Prelude.{◌≡◌, true, ◌<◌, ◌≤◌};
ghost use Rattle.demap.specs.Shared.{Over, Asked, Shared};

use crate::halves::ByLabel;

// The largest metric.
#[tactic(auto, using(crate::proofs::Sharing::largest_over))]
pub fn largest(d: &ByLabel) -> f32
    requires { 0 < d.now.bps }
    ensures { Over d.now.at d.now.bps result }
{
    ieee::max(d.top(0, 0), d.top(0, 1))
}

// Each metric's likelihood against m.
#[tactic(auto, using(crate::proofs::Loops::fronts, crate::proofs::Loops::taken, seq::specs::Tab::Laws::tab_unread, crate::proofs::Sharing::tabbed_at))]
pub fn exponentials(d: &ByLabel, m: f32) -> ByLabel
    requires { Asked d.now.at d.now.bps m }
    ensures bits { result.bps ≡ d.now.bps }
    ensures each { Shared d.now.at d.now.bps m result.at }
{
    let mut at = d.at;
    for x in at[..points::count(d.bps)].iter_mut() {
        *x = elementary::exp(*x - m);
    }
    ByLabel { bps: d.bps, at }
}

// Whether two numbers are one. Of zeros it says no, since they may differ in sign. Patterns tell those too, and proved
// in a lemma, but their conversion tests for a NaN: a cell's likelihoods took 0.6 % more instructions (tried), and no
// refinement may get slower.
#[tactic(auto, using(crate::proofs::Same::same_float))]
pub fn same(x: f32, y: f32) -> bool
    ensures { result ≡ true → x ≡ y }
{
    x == y && x != 0.0
}
