ghost use Rattle.std.specs.Prelude.{◌≡◌, ◌≤◌};
ghost use Rattle.elementary.specs.Gain.{gain_at};

// The gain of code q, the f32 nearest 10 ^ (3 q / 80). The code is a number of the header's field, and C's argument.
pub fn gain(code: u32) -> f32
    requires { code ≤ 3 }
    ensures { result ≡ gain_at code }
{
    match code {
        0 => 1.0,
        1 => 1.0901845,
        2 => 1.1885022,
        _ => 1.2956867,
    }
}
