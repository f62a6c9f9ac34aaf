// phy: the whole refinement. Settings, grid and both variances come apart, and the work area as two lists: the C
// interface.
ghost use Rattle.std.specs.Prelude.{◌≡◌};
ghost use Rattle.refine.specs.Refine.{burst};
ghost use Rattle.asides.specs.Told.{report_of, ProbedRefinement};

use cause::Cause;
use refine::{BurstGrid, Refined, Settings};

// 0, both indices of the model, how many likelihoods are not a number, and the scale; or the cause's number and zeros.
// The number stands beside them, and the indices are numbers, since the C interface needs it.
#[repr(C)]
#[derive(Clone, Copy)]
pub struct Report {
    pub number: u32,
    pub fd: u32,
    pub tm: u32,
    pub spoilt: u32,
    pub scale: f32,
}

fn report_of(answer: Result<Refined, Cause>) -> Report
    ensures { result ≡ report_of answer }
{
    match answer {
        Err(cause) => Report {
            number: u32::from(cause),
            fd: 0,
            tm: 0,
            spoilt: 0,
            scale: 0.0,
        },
        Ok(m) => Report {
            number: 0,
            fd: m.model.fd,
            tm: m.model.tm,
            spoilt: m.spoilt,
            scale: m.model.scale,
        },
    }
}

// Its body is `probe_single_estimate`'s but for names: both are names that C calls, each with its own parameters.
#[unsafe(no_mangle)]
pub extern "C" fn probe_refine(
    s: Settings,
    grid: &[f32],
    sigma: &[f32],
    cells: &[f32],
    prior: &[f32],
    answer: &mut [f32],
    channel: &mut [f32],
    wf: &mut [f32],
    wu: &mut [u32],
) -> Report
    ensures { ProbedRefinement (burst s grid.now sigma.now cells.now) prior.now
        answer.old answer.new channel.old channel.new wf.old wf.new wu.old wu.new result }
{
    let b = BurstGrid {
        settings: s,
        grid,
        sigma,
        cells,
    };
    report_of(phy::refine(&b, prior, answer, channel, wf, wu))
}
