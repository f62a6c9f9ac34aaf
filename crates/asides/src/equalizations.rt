// beside: fde. The lists come apart: the C interface.
ghost use Rattle.asides.specs.Told.{equalization_numbers, ProbedEqualization};

use crate::told::{Told, Values, tell};
use equalize::Equalized;

// Mean gain and variance.
impl Values for Equalized {
    ghost numbers = { equalization_numbers };

    fn values(self) -> [f32; 3] {
        [self.mu, self.var, 0.0]
    }
}

#[unsafe(no_mangle)]
pub extern "C" fn probe_fde(y: &[f32], h: &[f32], v: &[f32], gain: f32, z: &mut [f32]) -> Told
    ensures { ProbedEqualization y.now h.now v.now gain z.old z.new result }
{
    tell(beside::fde(y, h, v, gain, z))
}
