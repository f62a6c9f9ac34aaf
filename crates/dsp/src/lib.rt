// Complex numbers of two f32, after ion-dsp's `Complex`, and where they stand in a list of numbers.
#![tactic(auto)]

ghost use Rattle.std.specs.Prelude.{◌≡◌};
ghost use Rattle.dsp.specs.Arithmetic.{complex, conjᶜ, norm_sqr, scaleᶜ};

mod flat;
mod lists;
mod operators;

pub use lists::copy;

#[derive(Clone, Copy, Default)]
pub struct Complex {
    pub re: f32,
    pub im: f32,
}

impl Complex {
    pub const ZERO: Complex = Complex { re: 0.0, im: 0.0 };

    pub fn new(re: f32, im: f32) -> Complex
        ensures { result ≡ complex re im }
    {
        Complex { re, im }
    }

    pub fn conj(self) -> Complex
        ensures { result ≡ conjᶜ self }
    {
        Complex {
            re: self.re,
            im: -self.im,
        }
    }

    #[tactic(auto, unfolding(crate::specs::Arithmetic::norm_sqr))]
    pub fn norm_sqr(self) -> f32
        ensures { result ≡ norm_sqr self }
    {
        self.re * self.re + self.im * self.im
    }

    pub fn scale(self, k: f32) -> Complex
        ensures { result ≡ scaleᶜ self k }
    {
        Complex {
            re: self.re * k,
            im: self.im * k,
        }
    }
}
