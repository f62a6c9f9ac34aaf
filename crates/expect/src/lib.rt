// refine.rs, `refine`: the expected value and variance of every data cell as sent, under the priors.
#![tactic(auto)]

mod cells;
mod symbol;

ghost use Rattle.std.specs.Prelude.{◌≡◌, ◌++◌, ◌*◌, ◌≤◌, length, drop};
ghost use Rattle.expect.specs.Expect.{respread};

use cells::soft_cells;
use points::Points;
use spread::Spreader;
use symbol::spread_row;
pub use symbol::{row_means, row_variance};

// Data symbols, cells in each, bits a cell, the points' gain, and whether a symbol's points are spread over its
// carriers.
#[derive(Clone, Copy)]
pub struct Shape {
    pub nsym: usize,
    pub dc: usize,
    pub bps: usize,
    pub gain: f32,
    pub spread: bool,
}

// How a burst is modulated: its shape, and the points that the bits of a cell choose among.
#[derive(Clone, Copy)]
pub struct Modulation<'a> {
    pub shape: Shape,
    pub unit: &'a Points,
    ghost bits: { unit.now.bps ≡ shape.bps },
}

// The symbols of soft points, each spread, in a list that may be longer than nsym of them: cut, only length / (3 dc)
// would say how many symbols there are. By number: tried with `chunks_exact_mut`, after which a proof knows the list's
// length alone and not what its rows became.
#[tactic(auto, using(crate::proofs::Loops::cells), unfolding(crate::specs::Expect::respread))]
fn respread(dc: usize, gain: f32, nsym: usize, out: &mut [f32])
    requires { (1 ≤ dc) × (dc ≤ 109) × (nsym * (dc * 3) ≤ length out.old) }
    ensures { out.new ≡ respread dc gain nsym out.old ++ drop (nsym * (dc * 3)) out.old }
{
    let sp = Spreader::new(dc);
    let w = dc * 3;
    for t in 0..nsym {
        let at = t * w;
        let to = at + w;
        spread_row(&sp, gain, &mut out[at..to]);
    }
}

impl Modulation<'_> {
    ghost use Rattle.std.specs.Prelude.{◌≡◌, ◌++◌, ◌*◌, drop};
    ghost use Rattle.expect.specs.Expect.{expected_of};
    ghost use Rattle.expect.specs.Contract.{Fit, Expects};

    // What is expected of every cell as sent.
    #[tactic(auto, using(crate::proofs::Ways::not_spread, crate::proofs::Ways::spread_again))]
    pub fn expected(&self, slots: &[f32], out: &mut [f32])
        requires { Fit self.now.shape slots.now out.old out.old }
        ensures { out.new ≡ expected_of self.now.shape self.now.unit.now.pts slots.now ++ drop (self.now.shape.nsym * self.now.shape.dc * 3) out.old }
    {
        let s = self.shape;
        soft_cells(self.unit, s.nsym * s.dc, slots, out);
        if s.spread {
            respread(s.dc, s.gain, s.nsym, out);
        }
    }

    // The same, where the soft points of a spread burst, which its equaliser wants, are left in `soft`. Neither calls
    // the other: the copy falls between the two steps, and `expected` is lent no list for it.
    #[tactic(auto, using(crate::proofs::Ways::expects_plain))]
    pub fn expect(&self, slots: &[f32], soft: &mut [f32], out: &mut [f32])
        requires { Fit self.now.shape slots.now soft.old out.old }
        ensures { Expects self.now.shape self.now.unit.now.pts slots.now soft.old soft.new out.old out.new }
    {
        let s = self.shape;
        let ncell = s.nsym * s.dc;
        let n = ncell * 3;
        soft_cells(self.unit, ncell, slots, out);
        if s.spread {
            dsp::copy(&out[..n], &mut soft[..n]);
            respread(s.dc, s.gain, s.nsym, out);
        }
    }
}
