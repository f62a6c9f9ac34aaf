// demap: by a table that the caller made. What has no answer gives 0, since C has no Option, and a list that is too
// short is left as it was.
ghost use Rattle.std.specs.Prelude.{◌≡◌, ◌&&◌, leb, length};
ghost use Rattle.spread.specs.Flat.{flat};
ghost use Rattle.demap.specs.Demap.{likelihoods};
ghost use Rattle.demap.specs.Decide.{decide_of};
ghost use Rattle.probes.specs.Within.{Put};
ghost use Rattle.probes.specs.Demapping.{cell_of};

use demap::Cell;
use dsp::Complex;
use points::Points;

// demap's Cell: y, the estimate h and its error, and the noise.
#[repr(C)]
#[derive(Clone, Copy)]
pub struct FlatCell {
    pub y_re: f32,
    pub y_im: f32,
    pub h_re: f32,
    pub h_im: f32,
    pub mse: f32,
    pub sigma2: f32,
}

impl From<FlatCell> for Cell {
    ghost from_gives = { λ received cell. cell ≡ cell_of received };

    fn from(r: FlatCell) -> Cell {
        Cell {
            y: Complex::new(r.y_re, r.y_im),
            h: Complex::new(r.h_re, r.h_im),
            mse: r.mse,
            sigma2: r.sigma2,
        }
    }
}

pub fn probe_demap(pts: &[f32; 128], bps: usize, r: FlatCell, out: &mut [f32]) -> u32
    ensures { Put (leb bps 6 && leb bps (length out.old)) bps (likelihoods (cell_of r) pts.now bps) out.old result out.new }
{
    if bps > 6 || out.len() < bps {
        return 0;
    }
    demap::demap(Cell::from(r), &Points { bps, pts: *pts }, out);
    1
}

// The variances are not read.
pub fn probe_decide(pts: &[f32; 128], bps: usize, r: FlatCell, out: &mut [f32]) -> u32
    ensures { Put (leb bps 6 && leb 2 (length out.old)) 2 (flat (decide_of (cell_of r).y (cell_of r).h pts.now bps)) out.old result out.new }
{
    if bps > 6 || out.len() < 2 {
        return 0;
    }
    let c = Cell::from(r);
    demap::decide_among(c.y, c.h, pts, bps).put(out, 0);
    1
}
