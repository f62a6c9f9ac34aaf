// demap: by a table that the caller made. What has no answer gives 0, since C has no Option, and a list that is too
// short is left as it was.
ghost use Rattle.std.specs.Prelude.{◌≡◌, ◌&&◌, leb, length};
ghost use Rattle.spread.specs.Flat.{flat};
ghost use Rattle.demap.specs.Demap.{likelihoods};
ghost use Rattle.demap.specs.Decide.{decide_of};
ghost use Rattle.probes.specs.Within.{Put};
ghost use Rattle.probes.specs.Demapping.{cell_of};

use probes::FlatCell;

#[unsafe(no_mangle)]
pub extern "C" fn probe_demap(pts: &[f32; 128], bps: usize, r: FlatCell, out: &mut [f32]) -> u32
    ensures { Put (leb bps 6 && leb bps (length out.old)) bps (likelihoods (cell_of r) pts.now bps) out.old result out.new }
{
    probes::probe_demap(pts, bps, r, out)
}

// The variances are not read.
#[unsafe(no_mangle)]
pub extern "C" fn probe_decide(pts: &[f32; 128], bps: usize, r: FlatCell, out: &mut [f32]) -> u32
    ensures { Put (leb bps 6 && leb 2 (length out.old)) 2 (flat (decide_of (cell_of r).y (cell_of r).h pts.now bps)) out.old result out.new }
{
    probes::probe_decide(pts, bps, r, out)
}
