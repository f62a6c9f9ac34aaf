// phy: channel_power and the single estimate. Settings, grid and both variances come apart, and the work area as two
// lists: the C interface.
ghost use Rattle.refine.specs.Refine.{burst};
ghost use Rattle.asides.specs.Told.{power_numbers, single_numbers, ProbedPower, ProbedSingle};

use crate::told::{Told, Values, tell};
use est::Estimate;
use refine::{BurstGrid, Settings};

impl Values for f32 {
    ghost numbers = { power_numbers };

    fn values(self) -> [f32; 3] {
        [self, 0.0, 0.0]
    }
}

// Estimate (re, im) and error.
impl Values for Estimate {
    ghost numbers = { single_numbers };

    fn values(self) -> [f32; 3] {
        [self.h.re, self.h.im, self.mse]
    }
}

#[unsafe(no_mangle)]
pub extern "C" fn probe_channel_power(
    s: Settings,
    grid: &[f32],
    sigma: &[f32],
    cells: &[f32],
    prior: &[f32],
    wf: &mut [f32],
    wu: &mut [u32],
) -> Told
    ensures { ProbedPower (burst s grid.now sigma.now cells.now) prior.now wf.old wf.new wu.old wu.new result }
{
    let b = BurstGrid {
        settings: s,
        grid,
        sigma,
        cells,
    };
    tell(phy::channel_power(&b, prior, wf, wu))
}

#[unsafe(no_mangle)]
pub extern "C" fn probe_single_estimate(
    s: Settings,
    grid: &[f32],
    sigma: &[f32],
    cells: &[f32],
    prior: &[f32],
    carrier: usize,
    symbol: usize,
    wf: &mut [f32],
    wu: &mut [u32],
) -> Told
    ensures { ProbedSingle (burst s grid.now sigma.now cells.now) prior.now carrier symbol wf.old wf.new wu.old wu.new result }
{
    let b = BurstGrid {
        settings: s,
        grid,
        sigma,
        cells,
    };
    tell(phy::estimate(&b, prior, carrier, symbol, wf, wu))
}
