// load: a list that is too short, or more symbols than a burst has, gives 0, since C has no Option, and leaves the work
// lists as they were.
ghost use Rattle.std.specs.Prelude.{◌≤◌};
ghost use Rattle.load.specs.Fit.{Room};
ghost use Rattle.probes.specs.Loading.{Small, Sourced, Long, Misses, Loading};

use probes::LoadSettings;

#[unsafe(no_mangle)]
pub extern "C" fn probe_load(
    s: LoadSettings,
    grid: &[f32],
    sigma: &[f32],
    cells: &[f32],
    expected: &[f32],
    w: &mut [u32],
    pf: &mut [f32],
) -> usize
    ensures { Loading s grid.now sigma.now cells.now expected.now w.old pf.old w.new pf.new result }
{
    probes::probe_load(s, grid, sigma, cells, expected, w, pf)
}
