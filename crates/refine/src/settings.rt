// What a burst's settings give: its points and its numbers.
ghost use Rattle.std.specs.Prelude.{◌≡◌, ◌≤◌};
ghost use Rattle.points.specs.Constellation.{bps_of};
ghost use Rattle.refine.specs.Plan.{plan_for, unit_for};

use expect::Shape;
use layout::Map;
use load::Source;
use model::Setting;
use points::Points;

// What a burst's header and the station say of it: layout and constellation by number, data symbols, sparse pilots,
// DFT-spread symbols, the code of the points' gain, pilots an estimate may use, the reference symbol's boost, the
// data pilots' gain, the channel's mean power. Layout, constellation and gain code are numbers: C hands over any
// number, and the table of causes has rows for those that name nothing, which no enum could hold. sparse and spread are
// two bits, as header.rs has them; sizes.rt of layout says why sparse is no enum.
#[repr(C)]
#[derive(Clone, Copy)]
pub struct Settings {
    pub layout: u32,
    pub constellation: u32,
    pub nsym: usize,
    pub sparse: bool,
    pub spread: bool,
    pub gain_code: u32,
    pub k: usize,
    pub boost: f32,
    pub pilot_gain: f32,
    pub p_h: f32,
}

// The same as the steps of the path take them, each step's crate in a struct of its own, which the others do not know:
// so dc, ng and p_h stand in two of them. That the parts agree (`Agrees`) is a clause: `plan_for` has a plan of any
// settings.
#[derive(Clone, Copy)]
pub struct Plan {
    pub source: Source,
    pub shape: Shape,
    pub setting: Setting,
}

// The points that priors and likelihoods are about: a spread symbol's before they are spread and scaled, an unspread
// cell's as sent.
#[tactic(auto, using(points::proofs::Laws::points_laws), unfolding(crate::specs::Refine::unit))]
pub fn unit_points(s: Settings) -> Points
    requires { s.gain_code ≤ 3 }
    ensures bits { result.bps ≡ bps_of s.constellation }
    ensures table { result.pts ≡ unit_for s }
{
    let p = points::points(s.constellation);
    if s.spread {
        return p;
    }
    p.scaled(elementary::gain(s.gain_code))
}

// The bounds of gain code and nsym stay clauses, here and where sizes are counted: any settings may be handed in, and
// it is the table of causes that turns them away; a type of those that passed would wrap ten fields for the bounds of
// two.
#[tactic(auto, using(layout::proofs::Fits::layout_fits))]
pub fn plan_of(s: Settings) -> Plan
    requires { (s.gain_code ≤ 3) × (s.nsym ≤ 1023) }
    ensures { result ≡ plan_for s }
{
    let l = layout::layout(s.layout);
    let ng = l.ng(s.nsym);
    let dc = l.data_carriers(s.sparse);
    let p = points::points(s.constellation);
    let gain = elementary::gain(s.gain_code);
    let source = Source {
        map: Map::new(l, s.sparse, s.pilot_gain),
        dc,
        ng,
        boost: s.boost,
        p_h: s.p_h,
        es: p.mean_energy(gain),
    };
    let shape = Shape {
        nsym: s.nsym,
        dc,
        bps: p.bps,
        gain,
        spread: s.spread,
    };
    let setting = Setting {
        l,
        sparse: s.sparse,
        ng,
        k: est::held_k(s.k),
        p_h: s.p_h,
    };
    Plan {
        source,
        shape,
        setting,
    }
}
