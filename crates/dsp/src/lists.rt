// Lists of numbers.
ghost use Rattle.std.specs.Prelude.{◌≡◌, length};

// A copy by turns. std's `copy_from_slice` asks the C library for `memmove` where both lists are lent from outside, and
// a library of this repository needs `memcpy` and `memset` alone.
#[tactic(auto, using(seq::specs::Tab::Laws::tab_none, seq::specs::Tab::Laws::tab_step))]
pub fn copy(src: &[f32], dst: &mut [f32])
    requires { length dst.old ≡ length src.now }
    ensures { dst.new ≡ src.now }
{
    for (i, d) in dst.iter_mut().enumerate() {
        *d = src[i];
    }
}
