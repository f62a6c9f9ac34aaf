// Answers of several numbers.
ghost use Rattle.std.specs.Prelude.{◌≡◌, ◌++◌, ◌≤◌, length, drop};

// In front of a lent list.
pub fn put<const N: usize>(out: &mut [f32], v: &[f32; N])
    requires { N ≤ length out.old }
    ensures { out.new ≡ v.now ++ drop N out.old }
{
    out[..N].copy_from_slice(v);
}
