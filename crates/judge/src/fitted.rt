// The chosen model as the estimates use it: est.rs, `set_model` at the chosen values.
ghost use Rattle.model.specs.Values.{FitModels};
ghost use Rattle.judge.specs.Fitted.{Fitting};

use crate::estimates::Fitted;
use est::Correlations;
use model::{Model, Setting};

// With its correlations.
pub fn fit(s: Setting, m: Model) -> (Fitted, Correlations)
    requires { FitModels s.l }
    ensures { Fitting s m result.0 result.1 }
{
    let fd = model::fd_value(s.l, s.sparse, m.fd);
    let tm = model::tm_value(s.l, m.tm);
    let t = est::set_model(model::numerology(s.l), fd, tm);
    let f = Fitted {
        w: model::window(s.l, s.ng, s.k),
        u: t.scales,
        scale: m.scale,
    };
    (f, t)
}
