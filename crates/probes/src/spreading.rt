// spread: what is past the m complex numbers is left as it was, and all of it where m does not fit: 0 says so, since C
// has no Option. m stands beside lists that have room for more, and `inverse` chooses one of two methods: C has one
// name for both, and its parameters are known to its callers.
ghost use Rattle.std.specs.Prelude.{◌≡◌, cond, ◌&&◌, ◌*◌, leb, length};
ghost use Rattle.spread.specs.Spreader.{twiddles_of, forward_of, inverse_of};
ghost use Rattle.probes.specs.Within.{Put};

use spread::{Factors, Spreader};

pub fn probe_twiddles(m: usize, tw: &mut [f32; 218]) -> u32
    ensures { (result ≡ cond (leb 1 m && leb m 109) 1 0) × (tw.new ≡ cond (leb 1 m && leb m 109) (twiddles_of m) tw.old) }
{
    if m == 0 || m > 109 {
        return 0;
    }
    *tw = spread::twiddles(m);
    1
}

// By twiddle factors that the caller made.
pub fn probe_forward(tw: &[f32; 218], m: usize, v: &mut [f32]) -> u32
    ensures { Put (leb m 109 && leb (2 * m) (length v.old)) (2 * m) (forward_of m tw.now v.old) v.old result v.new }
{
    if m > 109 || v.len() < 2 * m {
        return 0;
    }
    Factors { m, tw }.forward(v);
    1
}

pub fn probe_spread(m: usize, inverse: bool, v: &mut [f32]) -> u32
    ensures { Put (leb 1 m && leb m 109 && leb (2 * m) (length v.old)) (2 * m) (cond inverse (inverse_of m (twiddles_of m) v.old) (forward_of m (twiddles_of m) v.old)) v.old result v.new }
{
    if m == 0 || m > 109 || v.len() < 2 * m {
        return 0;
    }
    let sp = Spreader::new(m);
    if inverse {
        sp.inverse(v);
    } else {
        sp.forward(v);
    }
    1
}
