// One more pilot, and where it stands in the work lists.
ghost use Rattle.std.specs.Prelude.{◌≡◌, ◌+◌, ◌*◌, ◌<◌, ◌≤◌, ◌^◌, length};
ghost use Rattle.load.specs.Load.{pilot_of, pushed};
ghost use Rattle.load.specs.Work.{stored_pf, stored_w, Pushes};

use crate::found::Found;
use crate::pilot::Pilot;
use dsp::Complex;
use soft::Soft;

// The least-squares sample y / x and its variance v / |x|².
#[tactic(auto, unfolding(crate::specs::Load::pilot_of))]
pub fn pilot_of(c: usize, g: usize, y: Complex, x: Complex, v: f32) -> Pilot
    requires { (c < 2 ^ 32) × (g < 2 ^ 32) }
    ensures { result ≡ pilot_of c g y x v }
{
    let e = x.norm_sqr();
    let h = (y * x.conj()).scale(1.0 / e);
    Pilot {
        c: c as u32,
        g: g as u32,
        h,
        var: v / e,
    }
}

// Pilot i: its carrier at i, its symbol at n + i, its three numbers from 3 i on. Two lists of numbers and no list of
// `Pilot`: the work area that document 01 lends is one list of u32 and one of f32. They are two parameters, here
// and in rows.rt: whole.rt of refine says why.
#[tactic(auto, unfolding(crate::specs::Work::stored_w, crate::specs::Work::stored_pf))]
pub fn put(p: Pilot, n: usize, i: usize, w: &mut [u32], pf: &mut [f32]) -> usize
    requires { (i < n) × (2 * n ≤ length w.old) × (3 * n ≤ length pf.old) }
    ensures { (result ≡ i + 1) × (w.new ≡ stored_w n i p w.old) × (pf.new ≡ stored_pf i p pf.old) }
{
    let s = Soft {
        mean: p.h,
        var: p.var,
    };
    w[i] = p.c;
    w[n + i] = p.g;
    s.put(pf, i);
    i + 1
}

// What is found at carrier c of symbol g, after the i pilots before it, in the same two lists; how many there are then.
pub fn push(
    f: Found,
    c: usize,
    g: usize,
    y: Complex,
    n: usize,
    i: usize,
    w: &mut [u32],
    pf: &mut [f32],
) -> usize
    requires { (c < 2 ^ 32) × (g < 2 ^ 32) × (i < n) × (2 * n ≤ length w.old) × (3 * n ≤ length pf.old) }
    ensures { Pushes n i (pushed c g y f) w.old pf.old w.new pf.new result }
{
    match f {
        Found::Known(x, v) | Found::Soft(x, v) => put(pilot_of(c, g, y, x, v), n, i, w, pf),
        Found::Blank => i,
    }
}
