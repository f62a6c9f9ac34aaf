// The whole path, from prior to likelihood.
ghost use Rattle.std.specs.Prelude.{◌≡◌, ◌+◌, ◌*◌, ◌≤◌, length, take, drop};
ghost use Rattle.load.specs.Fit.{places};
ghost use Rattle.model.specs.Select.{select_model};
ghost use Rattle.refine.specs.Refine.{Fit, Refines};
ghost use Rattle.refine.specs.Received.{burst_of};
ghost use Rattle.refine.specs.Back.{Agrees, Symbols, Under};
ghost use Rattle.refine.specs.Front.{cell_length};
ghost use Rattle.refine.specs.Whole.{pilots_in, starts_in, soft_heard, InWork, ExactFit, Rejudged, RefinesExactly};

use crate::bit_order::to_bit_order;
use crate::burst_grid::BurstGrid;
use crate::judging::Heard;
use crate::listening::{listen, places_of};
use crate::planned::Planned;
use crate::settings::{plan_of, unit_points};
use crate::sizes::{nbits, ncell};
use crate::spoilt::spoilt;
use crate::symbols::spreading_of;
use load::Pilots;
use model::Model;

// The chosen model, and how many likelihoods are not a number. That the model's indices fit a byte is a clause where
// bytes are made: a ghost field would put its proof into `refined_of`, which mirrors the source.
#[derive(Clone, Copy)]
pub struct Refined {
    pub model: Model,
    pub spoilt: u32,
}

// The lists that are lent to be written stay parameters, here and in the crates above: document 01 lends the work area
// as two lists, of f32 and of u32, and answer and channel list apart. Tried on a function of two lists: where a struct
// holds them, each function that is lent the struct has to promise, besides what it wrote, that the struct still holds
// the caller's lists, at the length that they had. Where they are only read they become `Pilots` at once (`of_lists`).

// From the np pilots of the work lists.
fn judge_loaded<'b>(
    b: &Planned<'b>,
    np: usize,
    wf: &[f32],
    wu: &[u32],
    channel: &mut [f32],
    answer: &mut [f32],
) -> Model
    requires work { Agrees b.now.plan × InWork b.now.plan np wf.now wu.now × (length channel.old ≡ cell_length b.now.plan) }
    requires symbols { Symbols b.now.plan.source b.now.plan.shape b.now.burst.grid.now b.now.burst.cells.now channel.old answer.old }
    ensures { (result ≡ select_model b.now.plan.setting (pilots_in b.now.plan np wf.now wu.now) (starts_in b.now.plan wu.now))
        × Under b.now.plan result (pilots_in b.now.plan np wf.now wu.now) (starts_in b.now.plan wu.now) b.now.unit.now.pts (soft_heard b.now.plan wf.now) b.now.burst.grid.now b.now.burst.cells.now channel.old answer.old channel.new answer.new }
{
    let p = b.plan;
    let n = places_of(p.source);
    let s = p.source;
    let a = 3 * n;
    let to = a + channel.len();
    let pilots = Pilots::of_lists(wu, wf, n, s.ng, np);
    let g = b.burst;
    let h = Heard {
        plan: p,
        pilots,
        unit: b.unit,
        spreading: spreading_of(p.shape, &wf[a..to]),
        grid: g.grid,
        cells: g.cells,
    };
    h.judge_burst(channel, answer)
}

// Over lists of just the burst's length: the likelihoods in slot order.
fn judge_again(
    b: &BurstGrid,
    prior: &[f32],
    answer: &mut [f32],
    channel: &mut [f32],
    wf: &mut [f32],
    wu: &mut [u32],
) -> Model
    requires { ExactFit (burst_of b.now) answer.old channel.old wf.old wu.old }
    ensures { Rejudged (burst_of b.now) prior.now result answer.new channel.new }
{
    let unit = unit_points(b.settings);
    let p = Planned {
        plan: plan_of(b.settings),
        unit: &unit,
        burst: *b,
    };
    let np = listen(&p, prior, answer, channel, wf, wu);
    judge_loaded(&p, np, wf, wu, channel, answer)
}

fn refine_exact(
    b: &BurstGrid,
    prior: &[f32],
    answer: &mut [f32],
    channel: &mut [f32],
    wf: &mut [f32],
    wu: &mut [u32],
) -> Refined
    requires { ExactFit (burst_of b.now) answer.old channel.old wf.old wu.old }
    ensures { RefinesExactly (burst_of b.now) prior.now result answer.new channel.new }
{
    let model = judge_again(b, prior, answer, channel, wf, wu);
    let n = answer.len();
    to_bit_order(&mut wf[..n], answer);
    Refined {
        model,
        spoilt: spoilt(answer),
    }
}

pub fn refine(
    b: &BurstGrid,
    prior: &[f32],
    answer: &mut [f32],
    channel: &mut [f32],
    wf: &mut [f32],
    wu: &mut [u32],
) -> Refined
    requires { Fit (burst_of b.now) answer.old channel.old wf.old wu.old }
    ensures { Refines (burst_of b.now) prior.now result answer.old answer.new channel.old channel.new }
{
    let n = nbits(b.settings);
    let c = 3 * ncell(b.settings);
    refine_exact(b, prior, &mut answer[..n], &mut channel[..c], wf, wu)
}
