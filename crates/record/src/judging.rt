// A burst's numbers refined, and what comes of it in bytes.
ghost use Rattle.std.specs.Prelude.{◌+◌, ◌*◌, ◌≤◌, length};
ghost use Rattle.cause.specs.Causes.{number_of};
ghost use Rattle.refine.specs.Received.{burst_of};
ghost use Rattle.wire.specs.Sizes.{sizes_of};
ghost use Rattle.record.specs.Judging.{burst_in, prior_in, Short, Whole, Refining, Judges};

use cause::Cause;
use refine::{BurstGrid, Refined};
use wire::{Fields, put_answer, put_numbers, sizes_of};

// A record of 8,192 bytes has at most 2,043 numbers past boost, pilot gain and p_h. Cell variances and grid take
// ncell + 2 × ng × nc of them, so that 3 × ncell is at most 2,043, nbits twice and the work area's nbits + 12 × ng × nc
// six times as much.

// With a work area of its own.
fn refine_alone(
    b: &BurstGrid,
    prior: &[f32],
    answer: &mut [f32; 4086],
    channel: &mut [f32; 2043],
) -> Result<Refined, Cause>
    requires { Short b.now.settings }
    ensures { Refining (burst_of b.now) prior.now result answer.old answer.new channel.old channel.new }
{
    let mut wf = [0.0; 12258];
    let mut wu = [0; 12258];
    phy::refine(b, prior, answer, channel, &mut wf, &mut wu)
}

// The numbers stand in the record's order: boost, pilot gain, p_h, carrier variances, cell variances, grid, priors.
fn refine_numbers(
    f: Fields,
    nums: &[f32],
    answer: &mut [f32; 4086],
    channel: &mut [f32; 2043],
) -> Result<Refined, Cause>
    requires { Whole f nums.now }
    ensures { Refining (burst_in f nums.now) (prior_in f nums.now) result
        answer.old answer.new channel.old channel.new }
{
    let z = sizes_of(f);
    let (first, rest) = nums.split_at(3);
    let (sigma, rest) = rest.split_at(z.nc);
    let (cells, rest) = rest.split_at(z.ncell);
    let (grid, prior) = rest.split_at(2 * z.grid);
    let b = BurstGrid {
        settings: f.settings(first[0], first[1], first[2]),
        grid,
        sigma,
        cells,
    };
    refine_alone(&b, prior, answer, channel)
}

// A refused burst leaves both outputs as they were.
#[tactic(auto, using(crate::proofs::Cutting::few))]
pub(crate) fn judge(
    f: Fields,
    nums: &[f32],
    out: &mut [u8],
    channel: &mut [u8],
) -> Result<(), Cause>
    requires whole { Whole f nums.now }
    requires out_room { 10 + 4 * (sizes_of f).nbits ≤ length out.old }
    requires channel_room { 4 * (3 * (sizes_of f).ncell) ≤ length channel.old }
    ensures { Judges (burst_in f nums.now) (prior_in f nums.now) (number_of result)
        out.old out.new channel.old channel.new }
{
    let mut answer = [0.0; 4086];
    let mut estimates = [0.0; 2043];
    let r = refine_numbers(f, nums, &mut answer, &mut estimates)?;
    let z = sizes_of(f);
    let answer = &answer[..z.nbits];
    let estimates = &estimates[..3 * z.ncell];
    put_answer(r, answer, out);
    put_numbers(estimates, channel);
    Ok(())
}
