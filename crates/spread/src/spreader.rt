// `Spreader` and `Spreader::new`.
ghost use Rattle.std.specs.Prelude.{◌≡◌, ◌*◌, ◌≤◌, ◌++◌, length, drop};
ghost use Rattle.spread.specs.Spreader.{twiddles_of, forward_of, inverse_of};

use crate::twiddle::twiddles;

// How many complex numbers are spread, and their twiddle factors: room for 109, the most that a symbol has. No
// `ArrayVec`, as in `Points`: C lends all 218 numbers with any m, and the definitions have zeros past the factors.
#[derive(Drop)]
pub struct Spreader {
    pub m: usize,
    pub tw: [f32; 218],
    ghost most: { m ≤ 109 },
}

// m numbers' factors that stand elsewhere: a spreader's, or those that C lends, which are not copied.
#[derive(Clone, Copy)]
pub struct Factors<'a> {
    pub m: usize,
    pub tw: &'a [f32; 218],
    ghost most: { m ≤ 109 },
}

impl Spreader {
    pub fn new(m: usize) -> Spreader
        requires { (1 ≤ m) × (m ≤ 109) }
        ensures { (result.m ≡ m) × (result.tw ≡ twiddles_of m) }
    {
        Spreader { m, tw: twiddles(m) }
    }

    fn factors(&self) -> Factors<'_>
        ensures { (result.m ≡ self.now.m) × (result.tw.now ≡ self.now.tw) }
    {
        Factors {
            m: self.m,
            tw: &self.tw,
        }
    }

    // Forward DFT of the first m complex numbers of v in place; what stands past them is kept.
    pub fn forward(&self, v: &mut [f32])
        requires { 2 * self.now.m ≤ length v.old }
        ensures { v.new ≡ forward_of self.now.m self.now.tw v.old ++ drop (2 * self.now.m) v.old }
    {
        self.factors().forward(v);
    }

    // Inverse DFT of the first m complex numbers of v in place; what stands past them is kept.
    pub fn inverse(&self, v: &mut [f32])
        requires { 2 * self.now.m ≤ length v.old }
        ensures { v.new ≡ inverse_of self.now.m self.now.tw v.old ++ drop (2 * self.now.m) v.old }
    {
        self.factors().inverse(v);
    }
}
