// What the data symbols of a burst are judged by, and one of them judged.
ghost use Rattle.std.specs.Prelude.{◌≡◌, ◌*◌, ◌≤◌, length};
ghost use Rattle.load.specs.Fit.{ncell, places};
ghost use Rattle.judge.specs.Fit.{FitSpreading, FitSpreading-prop, Fits, Fits-prop};

use crate::spreading::Spreading;
use est::Estimator;
use expect::Shape;
use load::Source;
use points::Points;

// Where the cells lie and how they were sent, the estimator, the points that likelihoods are about, what a spread
// burst's symbols are equalised by, and what was received: the grid, and the variances of its data cells.
// Its methods take t, a data symbol, and the symbol's row, three numbers a cell, as two parameters: `estimate_row`
// writes the row, so that a struct of both would have to promise that it still holds the caller's list; and one for the
// steps that only read it would hold all of this besides, to reach dc, gain and points. What bounds t, a cell's number
// and the lists that are lent is a clause of each: they are one call's.
#[derive(Drop)]
pub struct Judge<'a> {
    pub source: Source,
    pub shape: Shape,
    pub estimator: Estimator<'a>,
    pub points: &'a Points,
    pub spreading: Option<Spreading<'a>>,
    pub grid: &'a [f32],
    pub cells: &'a [f32],
    ghost fits: { Fits source estimator } by { Fits-prop source estimator },
    ghost bits: { points.now.bps ≡ shape.bps },
    ghost spreads: { FitSpreading source shape spreading } by { FitSpreading-prop source shape spreading },
    ghost in_grid: { 2 * places source ≤ length grid.now },
    ghost in_cells: { ncell source ≤ length cells.now },
}

impl Judge<'_> {
    ghost use Rattle.std.specs.Prelude.{◌+◌, ◌*◌, ◌<◌, ◌≤◌, List, length, Float};
    ghost use Rattle.load.specs.Fit.{ncell};
    ghost use Rattle.judge.specs.Symbol.{JudgedUpto};

    // Data symbol t. The channel list holds the expected values of its cells, and then their estimates. Past the
    // symbol's own numbers channel and answer are left as they are.
    #[tactic(auto, using(crate::proofs::Held::spans))]
    pub fn symbol(&self, t: usize, channel: &mut [f32], answer: &mut [f32])
        requires symbol { self.now.source.map.hdr_end + t < self.now.source.ng }
        requires room { (ncell self.now.source * 3 ≤ length channel.old) × (ncell self.now.source * self.now.shape.bps ≤ length answer.old) }
        ensures { (e a : List Float) → JudgedUpto self.now (t * self.now.source.dc) e a channel.old answer.old → JudgedUpto self.now (t * self.now.source.dc + self.now.source.dc) e a channel.new answer.new }
    {
        let dc = self.source.dc;
        let w = dc * 3;
        let v = dc * self.shape.bps;
        let row_at = t * w;
        let row = &mut channel[row_at..row_at + w];
        self.estimate_row(t, row);
        let out_at = t * v;
        let out = &mut answer[out_at..out_at + v];
        match &self.spreading {
            Some(s) => self.despread_row(s, t, row, out),
            None => self.demap_row(t, row, out),
        }
    }
}
