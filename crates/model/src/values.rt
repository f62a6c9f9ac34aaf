// What a layout gives the estimator, and the values that a model's indices stand for.
ghost use Rattle.std.specs.Prelude.{◌≡◌};
ghost use Rattle.model.specs.Values.{numerology_of, window_of, fd_grid, fd_value, tm_value};

use est::Numerology;
use layout::Layout;
use near::Window;

pub fn numerology(l: Layout) -> Numerology
    ensures { result ≡ numerology_of l }
{
    Numerology {
        n: l.n,
        cp: l.cp,
        nc: l.nc,
        gw: l.gw,
        est_lg: l.est_lg,
    }
}

// Three parts of a `Setting`, as below: a whole one would ask more of a caller.
pub fn window(l: Layout, ng: usize, k: usize) -> Window
    ensures { result ≡ window_of l ng k }
{
    Window {
        nc: l.nc,
        ng,
        gw: l.gw,
        cw: l.cw,
        k,
    }
}

// refine.rs: of `Pilots::Sparse` or `Pilots::Robust`.
#[tactic(auto, unfolding(crate::specs::Values::fd_grid))]
fn fd_grid(l: Layout, sparse: bool) -> [f64; 3]
    ensures { result ≡ fd_grid l sparse }
{
    if sparse {
        return l.fd_sparse;
    }
    l.fd
}

// Doppler of index i: of the burst's grid, and past its end the last of the robust one.
#[tactic(auto, unfolding(crate::specs::Values::fd_value))]
pub fn fd_value(l: Layout, sparse: bool, i: u32) -> f64
    ensures { result ≡ fd_value l sparse i }
{
    let grid = fd_grid(l, sparse);
    let robust = l.fd;
    grid.get(i as usize).copied().unwrap_or(robust[2])
}

// Delay span of index j, and past the end the last.
#[tactic(auto, unfolding(crate::specs::Values::tm_value))]
pub fn tm_value(l: Layout, j: u32) -> f64
    ensures { result ≡ tm_value l j }
{
    let grid = l.tm;
    grid.get(j as usize).copied().unwrap_or(grid[2])
}
