// Where the pilots of a burst are.
ghost use Rattle.std.specs.Prelude.{◌≡◌};
ghost use Rattle.layout.specs.Maps.{map_of, pattern_at, is_pilot};
ghost use Rattle.layout.specs.Fit.{FitLayout, FitMap};

use crate::layouts::Layout;
use crate::pattern::Pattern;

// Symbol 0 is all known, the header's symbols (1..hdr_end) have the robust pattern, the data symbols the burst's own.
// Of the layout it holds what is read for each cell. `FitMap` is a clause and no ghost field: since a layout has none
// (layouts.rt), `map_of` would take a proof of it wherever a definition names a map. The bounds of a carrier's and a
// symbol's number beside it are each call's own. A cell is two numbers, its carrier c and its symbol g, in the
// source's order, and no struct of both, here and in the crates above: a loop keeps the one and counts the other, and
// each body reads them apart.
#[derive(Clone, Copy)]
pub struct Map {
    pub nc: usize,
    pub hdr_end: usize,
    pub robust: Pattern,
    pub data: Pattern,
    // Amplitude of the data symbols' pilots against the header's.
    pub gain: f32,
}

impl Map {
    // `sparse` as in `Layout::pattern`.
    #[tactic(auto, unfolding(crate::specs::Maps::map_of))]
    pub fn new(l: Layout, sparse: bool, gain: f32) -> Map
        requires { FitLayout l }
        ensures { result ≡ map_of l sparse gain }
    {
        let hdr_end = l.pre_syms();
        let robust = l.robust;
        let data = l.pattern(sparse);
        Map {
            nc: l.nc,
            hdr_end,
            robust,
            data,
            gain,
        }
    }

    // Pattern of grid symbol g, from 1 on.
    #[tactic(auto, unfolding(crate::specs::Maps::pattern_at))]
    pub fn pattern(self, g: usize) -> Pattern
        ensures { result ≡ pattern_at self g }
    {
        if g < self.hdr_end {
            self.robust
        } else {
            self.data
        }
    }

    // True when cell (c, g) carries a known value.
    #[tactic(auto, using(crate::proofs::Fits::at_fits), unfolding(crate::specs::Maps::is_pilot))]
    pub fn is_pilot(self, c: usize, g: usize) -> bool
        requires { FitMap self }
        ensures { result ≡ is_pilot self c g }
    {
        g == 0 || self.pattern(g).is_pilot(self.nc, c, g)
    }
}
