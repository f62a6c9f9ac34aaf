// A soft point in a list of numbers, since the work area is lent as a list of f32: re, im, variance, re, im, ..
ghost use Rattle.std.specs.Prelude.{◌≡◌, ◌+◌, ◌*◌, ◌≤◌, length};
ghost use Rattle.soft.specs.Flat.{soft_in, put_soft};

use crate::moments::Soft;
use dsp::Complex;

impl Soft {
    // Number i of a list; i is its place, and no length.
    pub fn at(xs: &[f32], i: usize) -> Soft
        requires { 3 * i + 3 ≤ length xs.now }
        ensures { result ≡ soft_in xs.now i }
    {
        Soft {
            mean: Complex::new(xs[3 * i], xs[3 * i + 1]),
            var: xs[3 * i + 2],
        }
    }

    // In the place of number i.
    pub fn put(self, xs: &mut [f32], i: usize)
        requires { 3 * i + 3 ≤ length xs.old }
        ensures { xs.new ≡ put_soft xs.old i self }
    {
        xs[3 * i] = self.mean.re;
        xs[3 * i + 1] = self.mean.im;
        xs[3 * i + 2] = self.var;
    }
}
