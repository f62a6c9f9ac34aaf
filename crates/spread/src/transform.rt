// `transform`, and `forward` and `inverse` over a lent list.
ghost use Rattle.std.specs.Prelude.{◌≡◌, ◌*◌, ◌<◌, ◌≤◌, ◌++◌, length, drop};
ghost use Rattle.dsp.specs.Flat.{complex_at};
ghost use Rattle.spread.specs.Spreader.{factor, next, unitary, sum_of, transform, forward_of, inverse_of};

use crate::Factors;
use dsp::Complex;

impl Factors<'_> {
    // The index of the next factor: k further on, around m.
    #[tactic(auto, unfolding(crate::specs::Spreader::next))]
    fn next(&self, k: usize, idx: usize) -> usize
        requires { (idx < self.now.m) × (k < self.now.m) }
        ensures { result ≡ next self.now.m k idx }
    {
        let sum = idx + k;
        if sum >= self.m {
            return sum - self.m;
        }
        sum
    }

    // What keeps the power: 1 / √m.
    #[tactic(auto, unfolding(crate::specs::Spreader::unitary))]
    fn unitary(&self) -> f32
        ensures { result ≡ unitary self.now.m }
    {
        1.0 / ieee::sqrt(self.m as f32)
    }

    // Twiddle factor idx, or its conjugate. `inverse` is the source's own flag: it picks one of two factors here, and
    // a closure in its place would need a clause that says what it answers.
    #[tactic(auto, unfolding(crate::specs::Spreader::factor))]
    fn factor(&self, idx: usize, inverse: bool) -> Complex
        requires { idx < 109 }
        ensures { result ≡ factor inverse (complex_at self.now.tw.now idx) }
    {
        let tw = self.tw;
        let w = Complex::at(tw, idx);
        if inverse { w.conj() } else { w }
    }

    // Output k before it is scaled: the sum of a's numbers times their factors.
    #[tactic(auto, using(crate::proofs::Spreading::summing), unfolding(crate::specs::Spreader::turn, crate::specs::Spreader::sum_of))]
    fn sum(&self, inverse: bool, a: &[f32; 218], k: usize) -> Complex
        requires { k < self.now.m }
        ensures { result ≡ sum_of self.now.m self.now.tw.now inverse a.now k }
    {
        let mut acc = Complex::ZERO;
        let mut idx = 0;
        // By number: a walk over `as_chunks::<2>()` is to be cut to m, and reads each pair by `Complex::at` too.
        for j in 0..self.m {
            acc += Complex::at(a, j) * self.factor(idx, inverse);
            idx = self.next(k, idx);
        }
        acc
    }

    // Unitary DFT, or IDFT, of m numbers of a into b. That b, and v below, has room for them is a clause: each is a
    // list that is lent for the call, and a struct of it and the spreader would be made by the caller for this call
    // alone.
    #[tactic(auto, using(crate::proofs::Spreading::writing), unfolding(crate::specs::Spreader::transform))]
    fn transform(&self, inverse: bool, a: &[f32; 218], b: &mut [f32])
        requires { 2 * self.now.m ≤ length b.old }
        ensures { b.new ≡ transform self.now.m self.now.tw.now inverse a.now ++ drop (2 * self.now.m) b.old }
    {
        let s = self.unitary();
        // k is the output's number.
        for k in 0..self.m {
            let acc = self.sum(inverse, a, k);
            acc.scale(s).put(b, k);
        }
    }

    // The same of the first m numbers of v, in their place: a is their copy.
    #[tactic(auto, using(crate::proofs::Spreading::transform_copy))]
    fn in_place(&self, inverse: bool, v: &mut [f32])
        requires { 2 * self.now.m ≤ length v.old }
        ensures { v.new ≡ transform self.now.m self.now.tw.now inverse v.old ++ drop (2 * self.now.m) v.old }
    {
        let n = 2 * self.m;
        let mut a = [0.0f32; 218];
        a[..n].copy_from_slice(&v[..n]);
        self.transform(inverse, &a, v);
    }

    // Forward DFT of the first m complex numbers of v in place; what stands past them is kept.
    #[tactic(auto, unfolding(crate::specs::Spreader::forward_of))]
    pub fn forward(&self, v: &mut [f32])
        requires { 2 * self.now.m ≤ length v.old }
        ensures { v.new ≡ forward_of self.now.m self.now.tw.now v.old ++ drop (2 * self.now.m) v.old }
    {
        self.in_place(false, v);
    }

    // Inverse DFT of the first m complex numbers of v in place; what stands past them is kept.
    #[tactic(auto, unfolding(crate::specs::Spreader::inverse_of))]
    pub fn inverse(&self, v: &mut [f32])
        requires { 2 * self.now.m ≤ length v.old }
        ensures { v.new ≡ inverse_of self.now.m self.now.tw.now v.old ++ drop (2 * self.now.m) v.old }
    {
        self.in_place(true, v);
    }
}
