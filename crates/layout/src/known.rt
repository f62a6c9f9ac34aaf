// What is known of a cell. `pilot_value`, `p_sym` and `b_value` are the layout's in the source; here the map holds what
// they read of it.
ghost use Rattle.std.specs.Prelude.{◌≡◌, ◌^◌, ◌<◌};
ghost use Rattle.layout.specs.Fit.{FitMap};
ghost use Rattle.layout.specs.Known.{pilot_sign, pilot_value, p_sym, b_value, known_value};

use crate::map::Map;
use dsp::Complex;
use std::f64::consts::PI;

// Scattered pilot amplitude (+2.5 dB, as DVB-T).
const PILOT_AMP: f32 = 4.0 / 3.0;

impl Map {
    // BPSK from a hash, boosted.
    #[tactic(auto, unfolding(crate::specs::Known::pilot_sign))]
    fn pilot_sign(self, c: usize, g: usize) -> f32
        requires { FitMap self × (c < self.nc) × (g < 2 ^ 16) }
        ensures { result ≡ pilot_sign self c g }
    {
        if bits::mix32((g * self.nc + c) as u32 ^ 0x5eed_1e75) & 1 == 0 {
            PILOT_AMP
        } else {
            -PILOT_AMP
        }
    }

    // Known value of pilot cell (c, g), g from 1 on.
    #[tactic(auto, unfolding(crate::specs::Known::pilot_value))]
    pub fn pilot_value(self, c: usize, g: usize) -> Complex
        requires { FitMap self × (c < self.nc) × (g < 2 ^ 16) }
        ensures { result ≡ pilot_value self c g }
    {
        let v = Complex::new(self.pilot_sign(c, g), 0.0);
        if g >= self.hdr_end {
            v.scale(self.gain)
        } else {
            v
        }
    }

    // Power of one symbol of the robust pattern: unit data cells and boosted pilots.
    #[tactic(auto, using(crate::proofs::Fits::pilots_le, crate::proofs::Fits::pilots_exact), unfolding(crate::specs::Known::p_sym))]
    pub fn p_sym(self) -> f32
        requires { FitMap self }
        ensures { result ≡ p_sym self }
    {
        let pilots = self.robust.pilots(self.nc);
        let data = self.nc - pilots;
        data as f32 + pilots as f32 * PILOT_AMP * PILOT_AMP
    }

    // The reference symbol: every carrier, Newman phases, scaled to `p_sym` and boosted.
    #[tactic(auto, unfolding(crate::specs::Known::b_value, crate::specs::Known::amp_of, crate::specs::Known::phase_of, crate::specs::Fit::FitPhases,))]
    pub fn b_value(self, c: usize, boost: f32) -> Complex
        requires { FitMap self × (c < self.nc) }
        ensures { result ≡ b_value self c boost }
    {
        let amp = ieee::sqrt(self.p_sym() / self.nc as f32) * boost;
        let ph = PI * (c * c) as f64 / self.nc as f64;
        let a = std::num::f32_to_f64_with_nan(amp);
        Complex::new(
            ieee::narrow(a * elementary::cos(ph)),
            ieee::narrow(a * elementary::sin(ph)),
        )
    }

    // The value of a cell that `is_pilot` says is known.
    #[tactic(auto, unfolding(crate::specs::Known::known_value))]
    pub fn known(self, c: usize, g: usize, boost: f32) -> Complex
        requires { FitMap self × (c < self.nc) × (g < 2 ^ 16) }
        ensures { result ≡ known_value self boost c g }
    {
        if g == 0 {
            return self.b_value(c, boost);
        }
        self.pilot_value(c, g)
    }
}
