// The scaled points and their mean energy, after refine.rs, `refine`.
ghost use Rattle.std.specs.Prelude.{◌≡◌};
ghost use Rattle.points.specs.Power.{scaled_of, energy_of, mean_energy_of};

use crate::table::Points;

impl Points {
    // Each of the 64 points times the gain: both of a point's numbers, so every number of the table.
    #[tactic(auto, using(seq::specs::Tab::Laws::tab_none, seq::specs::Tab::Laws::tab_step, seq::specs::Tab::Laws::tab_unread))]
    pub fn scaled(&self, gain: f32) -> Points
        ensures bits { result.bps ≡ self.now.bps }
        ensures table { result.pts ≡ scaled_of self.now.pts gain }
    {
        let mut pts = self.pts;
        for v in pts.iter_mut() {
            *v *= gain;
        }
        Points { bps: self.bps, pts }
    }

    // The sum of the points' powers. By number: over `as_chunks::<2>()` it proves too, but there the pairs are cut to
    // the count first, and each is read by `Complex::at(pair, 0)`, where `point` names it.
    #[tactic(auto, using(crate::proofs::Loops::loops), unfolding(crate::specs::Power::energy_turn, crate::specs::Power::energy_of))]
    pub fn energy(&self) -> f32
        ensures { result ≡ energy_of self.now.pts self.now.bps }
    {
        let mut sum = -0.0f32;
        for k in 0..self.count() {
            sum += self.point(k).norm_sqr();
        }
        sum
    }

    // The mean power of a point at the gain.
    #[tactic(auto, unfolding(crate::specs::Power::mean_energy_of))]
    pub fn mean_energy(&self, gain: f32) -> f32
        ensures { result ≡ mean_energy_of self.now.pts self.now.bps gain }
    {
        let g2 = gain * gain;
        g2 * self.energy() / self.count() as f32
    }
}
