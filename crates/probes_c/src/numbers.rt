// ieee: every f32 and f64 is taken. A function for each of the two types, since C calls no generic one.
ghost use Rattle.std.specs.Prelude.{◌≡◌};
ghost use Rattle.std.specs.Float.{binary32, binary64};
ghost use Rattle.ieee.specs.Narrow.{narrowed};
ghost use Rattle.ieee.specs.Root.{rooted};
ghost use Rattle.ieee.specs.Order.{max_of, clamp_of, abs_of, is_finite};

#[unsafe(no_mangle)]
pub extern "C" fn probe_narrow(x: f64) -> f32
    ensures { result ≡ narrowed x }
{
    probes::probe_narrow(x)
}

#[unsafe(no_mangle)]
pub extern "C" fn probe_sqrt32(x: f32) -> f32
    ensures { result ≡ rooted binary32 x }
{
    probes::probe_sqrt32(x)
}

#[unsafe(no_mangle)]
pub extern "C" fn probe_sqrt64(x: f64) -> f64
    ensures { result ≡ rooted binary64 x }
{
    probes::probe_sqrt64(x)
}

#[unsafe(no_mangle)]
pub extern "C" fn probe_max32(x: f32, y: f32) -> f32
    ensures { result ≡ max_of x y }
{
    probes::probe_max32(x, y)
}

#[unsafe(no_mangle)]
pub extern "C" fn probe_max64(x: f64, y: f64) -> f64
    ensures { result ≡ max_of x y }
{
    probes::probe_max64(x, y)
}

#[unsafe(no_mangle)]
pub extern "C" fn probe_clamp32(x: f32, lo: f32, hi: f32) -> f32
    ensures { result ≡ clamp_of x lo hi }
{
    probes::probe_clamp32(x, lo, hi)
}

#[unsafe(no_mangle)]
pub extern "C" fn probe_clamp64(x: f64, lo: f64, hi: f64) -> f64
    ensures { result ≡ clamp_of x lo hi }
{
    probes::probe_clamp64(x, lo, hi)
}

#[unsafe(no_mangle)]
pub extern "C" fn probe_abs64(x: f64) -> f64
    ensures { result ≡ abs_of x }
{
    probes::probe_abs64(x)
}

#[unsafe(no_mangle)]
pub extern "C" fn probe_is_finite32(x: f32) -> bool
    ensures { result ≡ is_finite x }
{
    probes::probe_is_finite32(x)
}
