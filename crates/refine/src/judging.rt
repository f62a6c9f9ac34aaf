// From the loaded pilots to the likelihoods in slot order.
ghost use Rattle.std.specs.Prelude.{◌≡◌};
ghost use Rattle.load.specs.Pilots.{listed};
ghost use Rattle.judge.specs.Fit.{Fits};
ghost use Rattle.model.specs.Select.{select_model};
ghost use Rattle.refine.specs.Back.{Judgeable, JudgedWith, JudgedUnder};

use crate::settings::Plan;
use crate::symbols::judge_symbols;
use est::Estimator;
use judge::{Judge, Spreading, fit};
use load::Pilots;
use model::Model;
use points::Points;

// What was heard of a burst: its pilots, what a spread burst's symbols are equalised by, the points that its
// likelihoods are about, and what was received. 'w is the work lists' lifetime, 'b the burst's.
#[derive(Drop)]
pub struct Heard<'w, 'b> {
    pub plan: Plan,
    pub pilots: Pilots<'w>,
    pub spreading: Option<Spreading<'w>>,
    pub unit: &'b Points,
    pub grid: &'b [f32],
    pub cells: &'b [f32],
}

// `Judgeable` is a clause, since it bounds the lists that are lent too.
impl Heard<'_, '_> {
    // By an estimator.
    fn judge_with(self, e: &Estimator, channel: &mut [f32], answer: &mut [f32])
        requires judgeable { Judgeable self channel.old answer.old }
        requires fits { Fits self.plan.source e.now }
        ensures { JudgedWith self.entry e.now channel.old answer.old channel.new answer.new }
    {
        let p = self.plan;
        let j = Judge {
            source: p.source,
            shape: p.shape,
            estimator: *e,
            points: self.unit,
            spreading: self.spreading,
            grid: self.grid,
            cells: self.cells,
        };
        judge_symbols(&j, channel, answer);
    }

    // Under model m.
    pub fn judge_under(self, m: Model, channel: &mut [f32], answer: &mut [f32])
        requires { Judgeable self channel.old answer.old }
        ensures { JudgedUnder self.entry m channel.old answer.old channel.new answer.new }
    {
        let p = self.plan;
        let (f, t) = fit(p.setting, m);
        // By its fields, here and in listed: a function that made it would ask each caller for the six facts of an
        // `Estimator`, and promise its seven fields again.
        let e = Estimator {
            pilots: self.pilots,
            rf: t.rf(),
            rt: t.rt(),
            scales: f.u,
            window: f.w,
            p_h: p.source.p_h,
            mse_scale: f.scale,
        };
        self.judge_with(&e, channel, answer);
    }

    // Under the model that the pilots bear out best.
    pub fn judge_burst(self, channel: &mut [f32], answer: &mut [f32]) -> Model
        requires { Judgeable self channel.old answer.old }
        ensures model { result ≡ select_model self.entry.plan.setting (listed self.entry.pilots) self.entry.pilots.start.now }
        ensures judged { JudgedUnder self.entry result channel.old answer.old channel.new answer.new }
    {
        let m = model::select_model(&self.pilots, self.plan.setting);
        self.judge_under(m, channel, answer);
        m
    }
}
