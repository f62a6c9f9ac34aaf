// The best of nine models.
ghost use Rattle.std.specs.Prelude.{◌≡◌};
ghost use Rattle.load.specs.Pilots.{listed};
ghost use Rattle.model.specs.Values.{FitModels};
ghost use Rattle.model.specs.Score.{Fit};
ghost use Rattle.model.specs.Select.{scale_of, select_model};

use crate::trial::{Setting, Trial, Tried, score};
use crate::values::{fd_value, tm_value};
use load::Pilots;

// A model by its indices, 3 3 where none was borne out, and the factor on its errors.
// Numbers, and not an Option: C is handed them, and 3 3 stands for values of its own (values.rt). That they are
// at most 3 is no ghost field: the definitions make a model of any two numbers.
#[derive(Clone, Copy)]
pub struct Model {
    pub fd: u32,
    pub tm: u32,
    pub scale: f32,
}

impl Model {
    pub const NONE: Model = Model {
        fd: 3,
        tm: 3,
        scale: 1.0,
    };
}

// The smallest residual so far, and whose it is.
#[derive(Clone, Copy)]
pub struct BestModel {
    pub r: f64,
    pub model: Model,
}

// How much larger the errors were than the model says.
#[tactic(auto, unfolding(crate::specs::Select::scale_of))]
fn scale(t: Tried) -> f32
    ensures { result ≡ scale_of t }
{
    ieee::narrow(ieee::clamp((t.r - t.v) / ieee::max(t.m, 1e-30), 1.0, 10.0))
}

impl BestModel {
    ghost use Rattle.std.specs.Prelude.{◌≡◌};
    ghost use Rattle.model.specs.Select.{better};

    #[tactic(auto, unfolding(crate::specs::Select::better))]
    fn better(self, t: Tried, i: u32, j: u32) -> BestModel
        ensures { result ≡ better i j t self }
    {
        if t.r < self.r {
            let model = Model {
                fd: i,
                tm: j,
                scale: scale(t),
            };
            return BestModel { r: t.r, model };
        }
        self
    }
}

impl Trial<'_> {
    ghost use Rattle.std.specs.Prelude.{◌≡◌};
    ghost use Rattle.load.specs.Pilots.{listed};
    ghost use Rattle.model.specs.Select.{tried, next, select_model};

    // Model t of the nine, fd outside and tm inside.
    pub fn tried(&self, t: u32) -> Tried
        ensures { result ≡ tried self.now.setting (listed self.now.pilots) self.now.pilots.start.now t }
    {
        let s = self.setting;
        let fd = fd_value(s.l, s.sparse, t / 3);
        let tm = tm_value(s.l, t % 3);
        score(&self.pilots, s, fd, tm)
    }

    #[tactic(auto, unfolding(crate::specs::Select::next))]
    fn next(&self, t: u32, b: BestModel) -> BestModel
        ensures { result ≡ next self.now.setting (listed self.now.pilots) self.now.pilots.start.now t b }
    {
        b.better(self.tried(t), t / 3, t % 3)
    }

    // The first of the nine with the smallest residual. A model is known by its number, from 0 on.
    pub fn select_model(&self) -> Model
        ensures { result ≡ select_model self.now.setting (listed self.now.pilots) self.now.pilots.start.now }
    {
        // From infinity, as the source: a residual not below it is no model's.
        let mut best = BestModel {
            r: f64::INFINITY,
            model: Model::NONE,
        };
        for t in 0..9 {
            best = self.next(t, best);
        }
        best.model
    }
}

// Of these pilots.
pub fn select_model(ps: &Pilots, s: Setting) -> Model
    requires { Fit s ps.now × FitModels s.l }
    ensures { result ≡ select_model s (listed ps.now) ps.now.start.now }
{
    let trial = Trial {
        pilots: *ps,
        setting: s,
    };
    trial.select_model()
}
