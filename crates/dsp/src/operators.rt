// The operators of `Complex`, each part rounded as the source rounds it.
ghost use Rattle.std.specs.Prelude.{◌≡◌};
ghost use Rattle.dsp.specs.Arithmetic.{◌+ᶜ◌, ◌-ᶜ◌, ◌*ᶜ◌, negᶜ};

use crate::Complex;
use std::ops::{Add, AddAssign, Mul, Neg, Sub};

impl Add for Complex {
    type Output = Complex;

    ghost add_gives = { λ a b r. r ≡ a +ᶜ b };

    fn add(self, o: Complex) -> Complex {
        Complex {
            re: self.re + o.re,
            im: self.im + o.im,
        }
    }
}

impl AddAssign for Complex {
    ghost add_assign_gives = { λ a b r. r ≡ a +ᶜ b };

    fn add_assign(&mut self, o: Complex) {
        self.re += o.re;
        self.im += o.im;
    }
}

impl Sub for Complex {
    type Output = Complex;

    ghost sub_gives = { λ a b r. r ≡ a -ᶜ b };

    fn sub(self, o: Complex) -> Complex {
        Complex {
            re: self.re - o.re,
            im: self.im - o.im,
        }
    }
}

impl Mul for Complex {
    type Output = Complex;

    ghost mul_gives = { λ a b r. r ≡ a *ᶜ b };

    fn mul(self, o: Complex) -> Complex {
        Complex {
            re: self.re * o.re - self.im * o.im,
            im: self.re * o.im + self.im * o.re,
        }
    }
}

impl Neg for Complex {
    type Output = Complex;

    ghost neg_gives = { λ a r. r ≡ negᶜ a };

    fn neg(self) -> Complex {
        Complex {
            re: -self.re,
            im: -self.im,
        }
    }
}
