// The soft point of every cell.
ghost use Rattle.std.specs.Prelude.{◌≡◌, ◌++◌, ◌*◌, ◌≤◌, length, drop};
ghost use Rattle.expect.specs.Expect.{soft_cells};

use points::Points;
use soft::soft_point;

// A cell's priors stand at `cell * bps`, its three numbers at `3 * cell`. By number, and not by a chunk of either list:
// tried with `chunks_exact_mut`, after which a proof knows the length of `out` alone and not what was written. Of
// lists that were cut to ncell cells only a quotient of a length, by bps or 3, would give ncell.
#[tactic(auto, using(crate::proofs::Loops::cells, crate::proofs::Written::cell_step, crate::proofs::Written::soft_cell_lem, crate::proofs::Laws::length_cell), unfolding(crate::specs::Expect::soft_cells))]
pub fn soft_cells(unit: &Points, ncell: usize, sl: &[f32], out: &mut [f32])
    requires { (ncell * unit.now.bps ≤ length sl.now) × (ncell * 3 ≤ length out.old) }
    ensures { out.new ≡ soft_cells unit.now.pts unit.now.bps ncell sl.now ++ drop (ncell * 3) out.old }
{
    let bps = unit.bps;
    for cell in 0..ncell {
        let at = cell * bps;
        let to = at + bps;
        soft_point(&sl[at..to], unit).put(out, cell);
    }
}
