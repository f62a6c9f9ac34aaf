// How large a burst's lists are, by its settings. The bounds of nsym are clauses: settings.rt says why.
ghost use Rattle.std.specs.Prelude.{◌≡◌, ◌≤◌};
ghost use Rattle.layout.specs.Layouts.{layout_of};
ghost use Rattle.layout.specs.Sizes.{ncell_of, nbits_of};
ghost use Rattle.points.specs.Constellation.{bps_of};

use crate::settings::Settings;

// Data cells.
#[tactic(auto, using(layout::proofs::Fits::layout_fits))]
pub fn ncell(s: Settings) -> usize
    requires { (1 ≤ s.nsym) × (s.nsym ≤ 1023) }
    ensures { (result ≡ ncell_of (layout_of s.layout) s.sparse s.nsym) × (result ≤ 101277) }
{
    let l = layout::layout(s.layout);
    l.ncell(s.sparse, s.nsym)
}

// Bits.
pub fn nbits(s: Settings) -> usize
    requires { (1 ≤ s.nsym) × (s.nsym ≤ 1023) }
    ensures { result ≡ nbits_of (layout_of s.layout) s.sparse s.nsym (bps_of s.constellation) }
{
    let n = ncell(s);
    n * points::bits_a_point(s.constellation)
}
