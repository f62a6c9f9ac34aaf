ghost use Rattle.std.specs.Prelude.{◌≡◌, ◌≤◌, ◌<◌};
ghost use Rattle.soft.specs.Soft.{bit_of};
ghost use Rattle.demap.specs.Demap.{top_of, sum_of};
ghost use Rattle.demap.specs.Shared.{picked_of, CanStep, FoldsHalf};

// A number for each label of so many bits, in the order of the labels. What follows the last is not read; no
// `ArrayVec`, as in `Points`: how many there are follows from bps, and the source's array, which the definitions have,
// is of 64.
#[derive(Clone, Copy)]
pub struct ByLabel {
    pub bps: usize,
    pub at: [f32; 64],
    pub ghost few: { bps ≤ 6 },
}

impl ByLabel {
    // The bit b of the label k, the first one first.
    fn bit(&self, k: usize, b: usize) -> usize
        requires { b < self.now.bps }
        ensures { result ≡ bit_of self.now.bps k b }
    {
        (k >> (self.bps - 1 - b)) % 2
    }

    // From `first` on, a step for each label whose bit b is `bit`: a number that the label's is compared with, and no
    // flag. A half is these two numbers here and below, as in `top_of`: this function alone reads them. That b is
    // below bps keeps `bps - 1 - b` from going below 0.
    fn fold_half<F: Fn(f32, f32) -> f32>(&self, b: usize, bit: usize, first: f32, step: F) -> f32
        requires within { b < self.now.bps }
        requires can { CanStep (F.pre step) self.now.at self.now.bps b bit }
        ensures { FoldsHalf (F.post step) self.now.at self.now.bps b bit first result }
    {
        let mut s = first;
        for (k, &x) in self.at[..points::count(self.bps)].iter().enumerate() {
            if self.bit(k, b) == bit {
                s = step(s, x);
            }
        }
        s
    }

    // The largest number of the labels whose bit b is `bit`.
    pub fn top(&self, b: usize, bit: usize) -> f32
        requires { b < self.now.bps }
        ensures { result ≡ top_of self.now.at self.now.bps b bit }
    {
        self.fold_half(b, bit, f32::NEG_INFINITY, |m, x| ieee::max(m, x))
    }

    // The sum of their likelihoods against m, the largest.
    pub fn sum_against(&self, b: usize, bit: usize, m: f32) -> f32
        requires { (b < self.now.bps) × (m ≡ top_of self.now.at self.now.bps b bit) }
        ensures { result ≡ sum_of self.now.at self.now.bps b bit }
    {
        self.fold_half(b, bit, 0.0, |s, x| s + elementary::exp(x - m))
    }

    // Their sum.
    pub fn sum(&self, b: usize, bit: usize) -> f32
        requires { b < self.now.bps }
        ensures { result ≡ picked_of self.now.at self.now.bps b bit }
    {
        self.fold_half(b, bit, 0.0, |s, x| s + x)
    }
}
