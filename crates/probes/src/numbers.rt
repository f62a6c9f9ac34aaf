// ieee: every f32 and f64 is taken. A function for each of the two types, since C calls no generic one.
ghost use Rattle.std.specs.Prelude.{◌≡◌};
ghost use Rattle.std.specs.Float.{binary32, binary64};
ghost use Rattle.ieee.specs.Narrow.{narrowed};
ghost use Rattle.ieee.specs.Root.{rooted};
ghost use Rattle.ieee.specs.Order.{max_of, clamp_of, abs_of, is_finite};

pub fn probe_narrow(x: f64) -> f32
    ensures { result ≡ narrowed x }
{
    ieee::narrow(x)
}

pub fn probe_sqrt32(x: f32) -> f32
    ensures { result ≡ rooted binary32 x }
{
    ieee::sqrt(x)
}

pub fn probe_sqrt64(x: f64) -> f64
    ensures { result ≡ rooted binary64 x }
{
    ieee::sqrt(x)
}

pub fn probe_max32(x: f32, y: f32) -> f32
    ensures { result ≡ max_of x y }
{
    ieee::max(x, y)
}

pub fn probe_max64(x: f64, y: f64) -> f64
    ensures { result ≡ max_of x y }
{
    ieee::max(x, y)
}

pub fn probe_clamp32(x: f32, lo: f32, hi: f32) -> f32
    ensures { result ≡ clamp_of x lo hi }
{
    ieee::clamp(x, lo, hi)
}

pub fn probe_clamp64(x: f64, lo: f64, hi: f64) -> f64
    ensures { result ≡ clamp_of x lo hi }
{
    ieee::clamp(x, lo, hi)
}

pub fn probe_abs64(x: f64) -> f64
    ensures { result ≡ abs_of x }
{
    ieee::abs(x)
}

pub fn probe_is_finite32(x: f32) -> bool
    ensures { result ≡ is_finite x }
{
    ieee::is_finite(x)
}
