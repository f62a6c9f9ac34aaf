// elementary: outside a function's domain the answer is a not-a-number, since C has no Option. Each function is a name
// that C calls, `probe_sin` and `probe_cos` too, whose bodies differ in the function called alone. A gain's code is a
// number, since C may pass any: one past 3 has no gain.
ghost use Rattle.std.specs.Prelude.{◌≡◌, not, leb};
ghost use Rattle.std.specs.Float.Ieee.{lt, le, neg};
ghost use Rattle.elementary.specs.Constants.{zero+, unit, least, most};
ghost use Rattle.elementary.specs.Exp.{exp_at};
ghost use Rattle.elementary.specs.Ln.{ln_at, ln1p_at};
ghost use Rattle.elementary.specs.Circular.{sin_at, cos_at};
ghost use Rattle.elementary.specs.Gain.{gain_at};
ghost use Rattle.probes.specs.Within.{within};

#[tactic(auto, using(crate::proofs::Withins::nan_of32), unfolding(crate::specs::Within::within))]
pub fn probe_exp(x: f32) -> f32
    ensures { result ≡ within (not (lt zero+ x)) (exp_at x) }
{
    if x > 0.0 {
        return f32::NAN;
    }
    elementary::exp(x)
}

#[tactic(auto, using(crate::proofs::Withins::nan_of32), unfolding(crate::specs::Within::within))]
pub fn probe_ln(v: f32) -> f32
    ensures { result ≡ within (not (lt v least)) (ln_at v) }
{
    if v < 1e-30 {
        return f32::NAN;
    }
    elementary::ln(v)
}

#[tactic(auto, using(crate::proofs::Withins::nan_of32), unfolding(crate::specs::Within::within))]
pub fn probe_ln_1p(t: f32) -> f32
    ensures { result ≡ within (not (lt t zero+)) (within (not (lt unit t)) (ln1p_at t)) }
{
    if t < 0.0 || t > 1.0 {
        return f32::NAN;
    }
    elementary::ln_1p(t)
}

#[tactic(auto, using(crate::proofs::Withins::nan_of64), unfolding(crate::specs::Within::within))]
pub fn probe_sin(p: f64) -> f64
    ensures { result ≡ within (not (le most p)) (within (not (le p (neg most))) (sin_at p)) }
{
    if p >= 512.0 || p <= -512.0 {
        return f64::NAN;
    }
    elementary::sin(p)
}

#[tactic(auto, using(crate::proofs::Withins::nan_of64), unfolding(crate::specs::Within::within))]
pub fn probe_cos(p: f64) -> f64
    ensures { result ≡ within (not (le most p)) (within (not (le p (neg most))) (cos_at p)) }
{
    if p >= 512.0 || p <= -512.0 {
        return f64::NAN;
    }
    elementary::cos(p)
}

#[tactic(auto, using(crate::proofs::Withins::nan_of32), unfolding(crate::specs::Within::within))]
pub fn probe_gain(code: u32) -> f32
    ensures { result ≡ within (leb code 3) (gain_at code) }
{
    if code > 3 {
        return f32::NAN;
    }
    elementary::gain(code)
}
