// A complex number in a list of numbers, since the C interface lends lists of f32: re, im, re, im, ..
ghost use Rattle.std.specs.Prelude.{◌≡◌, ◌+◌, ◌*◌, ◌≤◌, length};
ghost use Rattle.dsp.specs.Flat.{complex_at, put_at};

use crate::Complex;

impl Complex {
    // Number k of a list; k is its place, and no length.
    pub fn at(xs: &[f32], k: usize) -> Complex
        requires { 2 * k + 2 ≤ length xs.now }
        ensures { result ≡ complex_at xs.now k }
    {
        Complex {
            re: xs[2 * k],
            im: xs[2 * k + 1],
        }
    }

    // In the place of number k.
    pub fn put(self, xs: &mut [f32], k: usize)
        requires { 2 * k + 2 ≤ length xs.old }
        ensures { xs.new ≡ put_at xs.old k self }
    {
        xs[2 * k] = self.re;
        xs[2 * k + 1] = self.im;
    }
}
