// beside: decide. A constellation is its code, and a complex number two numbers: the C interface.
ghost use Rattle.dsp.specs.Arithmetic.{complex};
ghost use Rattle.asides.specs.Told.{decision_numbers, ProbedDecision};

use crate::told::{Told, Values, tell};
use dsp::Complex;

impl Values for Complex {
    ghost numbers = { decision_numbers };

    fn values(self) -> [f32; 3] {
        [self.re, self.im, 0.0]
    }
}

#[unsafe(no_mangle)]
pub extern "C" fn probe_decide_entry(code: u32, y_re: f32, y_im: f32, h_re: f32, h_im: f32) -> Told
    ensures { ProbedDecision code (complex y_re y_im) (complex h_re h_im) result }
{
    let y = Complex { re: y_re, im: y_im };
    let h = Complex { re: h_re, im: h_im };
    tell(beside::decide(code, y, h))
}
