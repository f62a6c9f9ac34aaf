// From the priors to the loaded pilots.
ghost use Rattle.std.specs.Prelude.{◌≡◌, ◌≤◌, length};
ghost use Rattle.load.specs.Fit.{places};
ghost use Rattle.refine.specs.Front.{Ready, Listened};

use crate::expected::expected;
use crate::planned::Planned;
use load::{Loader, Source};

// ng * nc.
pub fn places_of(s: Source) -> usize
    requires { places s ≤ 118156 }
    ensures { result ≡ places s }
{
    let m = s.map;
    s.ng * m.nc
}

// The lent lists are parameters: whole.rt says why. How many pilots there are. Their numbers are left in wf in front,
// and after them the soft points of a spread burst.
pub fn listen(
    b: &Planned,
    prior: &[f32],
    answer: &mut [f32],
    channel: &mut [f32],
    wf: &mut [f32],
    wu: &mut [u32],
) -> usize
    requires { Ready b.now.plan b.now.burst.grid.now b.now.burst.sigma.now b.now.burst.cells.now answer.old channel.old wf.old wu.old }
    ensures { Listened b.now.plan b.now.unit.now.pts prior.now (length answer.old) b.now.burst.grid.now b.now.burst.sigma.now b.now.burst.cells.now channel.new wf.new wu.new result }
{
    let p = b.plan;
    let g = b.burst;
    let n = channel.len();
    let (pilots, rest) = wf.split_at_mut(3 * places_of(p.source));
    expected(b, prior, answer, &mut rest[..n], channel);
    let l = Loader {
        source: p.source,
        grid: g.grid,
        sigma: g.sigma,
        cells: g.cells,
        expected: channel,
    };
    l.load(wu, pilots)
}
