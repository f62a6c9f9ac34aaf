// A spread symbol as it was received.
ghost use Rattle.std.specs.Prelude.{◌≡◌, ◌+◌, ◌*◌, ◌≤◌, length};
ghost use Rattle.equalize.specs.Filter.{channel_of};

use dsp::Complex;

// Cells y, their channel estimates h, their variances v of noise and estimation error, and the gain of the data: three
// lists, as document 01 has `fde` lent them. That
// a symbol's carriers lie in its lists is a clause (`Room`) and no ghost field: how many they are is the spreader's to
// say, and z, where the answer goes, is lent beside.
#[derive(Clone, Copy)]
pub struct ReceivedSymbol<'a> {
    pub y: &'a [f32],
    pub h: &'a [f32],
    pub v: &'a [f32],
    pub gain: f32,
}

impl ReceivedSymbol<'_> {
    // g: the channel of carrier j, with the data gain on top.
    #[tactic(auto, unfolding(crate::specs::Filter::channel_of))]
    pub(crate) fn channel(&self, j: usize) -> Complex
        requires { 2 * j + 2 ≤ length self.now.h.now }
        ensures { result ≡ channel_of self.now.h.now self.now.gain j }
    {
        Complex::at(self.h, j).scale(self.gain)
    }
}
