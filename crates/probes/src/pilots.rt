// load: a list that is too short, or more symbols than a burst has, gives 0, since C has no Option, and leaves the work
// lists as they were. C hands over grid, sigma, cells and expected apart.
ghost use Rattle.std.specs.Prelude.{◌≤◌};
ghost use Rattle.load.specs.Fit.{Room};
ghost use Rattle.probes.specs.Loading.{Small, Sourced, Long, Misses, Loading};

use layout::Map;
use load::{Loader, Source};

// Layout by number, since C may pass any, sparse pilots, the data pilots' gain, data symbols, the reference symbol's
// boost, the channel's mean power, the points' mean energy.
#[repr(C)]
#[derive(Clone, Copy)]
pub struct LoadSettings {
    pub layout: u32,
    pub sparse: bool,
    pub gain: f32,
    pub nsym: usize,
    pub boost: f32,
    pub p_h: f32,
    pub es: f32,
}

// Not a `From`, which would take any nsym.
fn source_of(s: LoadSettings) -> Source
    requires { s.nsym ≤ 1023 }
    ensures { Sourced s result }
{
    let l = layout::layout(s.layout);
    Source {
        map: Map::new(l, s.sparse, s.gain),
        dc: l.data_carriers(s.sparse),
        ng: l.ng(s.nsym),
        boost: s.boost,
        p_h: s.p_h,
        es: s.es,
    }
}

// Whether a list that is read is too short.
fn short(s: Source, sigma: &[f32], cells: &[f32], expected: &[f32]) -> bool
    requires { Small s }
    ensures { Misses result (Long s sigma.now cells.now expected.now) }
{
    let m = s.map;
    let n = (s.ng - m.hdr_end) * s.dc;
    sigma.len() < m.nc || cells.len() < n || expected.len() < 3 * n
}

// The same of the grid and the work lists.
fn no_room(s: Source, grid: &[f32], w: &[u32], pf: &[f32]) -> bool
    requires { Small s }
    ensures { Misses result (Room s grid.now w.now pf.now) }
{
    let m = s.map;
    let n = s.ng * m.nc;
    grid.len() < 2 * n || w.len() < 2 * n + s.ng + 1 || pf.len() < 3 * n
}

pub fn probe_load(
    s: LoadSettings,
    grid: &[f32],
    sigma: &[f32],
    cells: &[f32],
    expected: &[f32],
    w: &mut [u32],
    pf: &mut [f32],
) -> usize
    ensures { Loading s grid.now sigma.now cells.now expected.now w.old pf.old w.new pf.new result }
{
    if s.nsym > 1023 {
        return 0;
    }
    let source = source_of(s);
    if short(source, sigma, cells, expected) || no_room(source, grid, w, pf) {
        return 0;
    }
    let l = Loader {
        source,
        grid,
        sigma,
        cells,
        expected,
    };
    l.load(w, pf)
}
