// The answer's likelihoods that are not a number.
ghost use Rattle.std.specs.Prelude.{◌≡◌, ◌≤◌, length, is_nan};
ghost use Rattle.std.specs.List.{filter};
ghost use Rattle.refine.specs.Refine.{spoilt_of};

fn count(xs: &[f32]) -> usize
    ensures exact { result ≡ length (filter (λ x. is_nan x) xs.now) }
    ensures few { result ≤ length xs.now }
{
    xs.iter().filter(|x| x.is_nan()).count()
}

pub fn spoilt(xs: &[f32]) -> u32
    requires { length xs.now ≤ 607662 }
    ensures { result ≡ spoilt_of (length xs.now) xs.now }
{
    count(xs) as u32
}
