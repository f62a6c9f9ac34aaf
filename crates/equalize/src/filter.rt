// What `fde` and `sic` share: the filter of one carrier, and the floors of what they return.
ghost use Rattle.std.specs.Prelude.{◌≡◌, ◌≤◌};
ghost use Rattle.equalize.specs.Filter.{filter_of, passed_of, mean_of, mu_of, floored_of};

use dsp::Complex;
use spread::Spreader;

// The mean gain of the despread symbols and the variance of what is left: z = mu·x + e.
#[derive(Clone, Copy)]
pub struct Equalized {
    pub mu: f32,
    pub var: f32,
}

// w: the conjugate of g over the power d of all that reaches the carrier.
#[tactic(auto, unfolding(crate::specs::Filter::filter_of))]
pub fn filter(g: Complex, d: f32) -> Complex
    ensures { result ≡ filter_of g d }
{
    g.conj().scale(1.0 / ieee::max(d, 1e-30))
}

// wg: what filter and channel together let through.
#[tactic(auto, unfolding(crate::specs::Filter::passed_of))]
pub fn passed(w: Complex, g: Complex) -> f32
    ensures { result ≡ passed_of w g }
{
    (w * g).re
}

// A sum over the carriers of a symbol, divided by their number.
#[tactic(auto, unfolding(crate::specs::Filter::mean_of))]
pub fn mean(sum: f32, sp: &Spreader) -> f32
    ensures { result ≡ mean_of sum sp.now.m }
{
    sum / (sp.m as f32)
}

// mu, not below 1e-6: the symbols are divided by it.
#[tactic(auto, unfolding(crate::specs::Filter::mu_of))]
pub fn mean_gain(sum: f32, sp: &Spreader) -> f32
    ensures { result ≡ mu_of sum sp.now.m }
{
    ieee::max(mean(sum, sp), 1e-6)
}

// A variance, not below a thousandth of mu's power.
#[tactic(auto, unfolding(crate::specs::Filter::floored_of))]
pub fn floored(var: f32, mu: f32) -> f32
    ensures { result ≡ floored_of var mu }
{
    ieee::max(var, 1e-3 * mu * mu)
}
