// elementary: outside a function's domain the answer is a not-a-number, since C has no Option. Each function is a name
// that C calls, `probe_sin` and `probe_cos` too, whose bodies differ in the function called alone. A gain's code is a
// number, since C may pass any: one past 3 has no gain.
ghost use Rattle.std.specs.Prelude.{◌≡◌, not, leb};
ghost use Rattle.std.specs.Float.Ieee.{lt, le, neg};
ghost use Rattle.elementary.specs.Constants.{zero+, unit, least, most};
ghost use Rattle.elementary.specs.Exp.{exp_at};
ghost use Rattle.elementary.specs.Ln.{ln_at, ln1p_at};
ghost use Rattle.elementary.specs.Circular.{sin_at, cos_at};
ghost use Rattle.elementary.specs.Gain.{gain_at};
ghost use Rattle.probes.specs.Within.{within};

#[unsafe(no_mangle)]
pub extern "C" fn probe_exp(x: f32) -> f32
    ensures { result ≡ within (not (lt zero+ x)) (exp_at x) }
{
    probes::probe_exp(x)
}

#[unsafe(no_mangle)]
pub extern "C" fn probe_ln(v: f32) -> f32
    ensures { result ≡ within (not (lt v least)) (ln_at v) }
{
    probes::probe_ln(v)
}

#[unsafe(no_mangle)]
pub extern "C" fn probe_ln_1p(t: f32) -> f32
    ensures { result ≡ within (not (lt t zero+)) (within (not (lt unit t)) (ln1p_at t)) }
{
    probes::probe_ln_1p(t)
}

#[unsafe(no_mangle)]
pub extern "C" fn probe_sin(p: f64) -> f64
    ensures { result ≡ within (not (le most p)) (within (not (le p (neg most))) (sin_at p)) }
{
    probes::probe_sin(p)
}

#[unsafe(no_mangle)]
pub extern "C" fn probe_cos(p: f64) -> f64
    ensures { result ≡ within (not (le most p)) (within (not (le p (neg most))) (cos_at p)) }
{
    probes::probe_cos(p)
}

#[unsafe(no_mangle)]
pub extern "C" fn probe_gain(code: u32) -> f32
    ensures { result ≡ within (leb code 3) (gain_at code) }
{
    probes::probe_gain(code)
}
