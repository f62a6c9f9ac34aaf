// The correlations of a model. Arrays and their counts: `set_model` fills the front of each in place. The kit's
// ArrayVec gives a front only of what it holds: it would be made full and cut by `truncate`, which writes the rest once
// more.
ghost use Rattle.std.specs.Prelude.{◌≤◌};

use crate::model::Scales;

// est.rs, `Estimator`, its `rf` and `rt`, with `lc` and `lg`. The first nrf and nrt numbers count: there is room for
// the most carriers, 109, and the most symbols, 12 to each side.
#[derive(Clone, Copy)]
pub struct Correlations {
    pub(crate) rf: [f64; 219],
    pub(crate) nrf: usize,
    pub(crate) rt: [f64; 49],
    pub(crate) nrt: usize,
    pub scales: Scales,
    ghost few_rf: { nrf ≤ 219 },
    ghost few_rt: { nrt ≤ 49 },
}

impl Correlations {
    ghost use Rattle.std.specs.Prelude.{◌≡◌, length};
    ghost use Rattle.est.specs.Correlations.{along_carriers, along_symbols};

    pub fn rf(&self) -> &[f64]
        ensures long { length result.now ≡ self.now.nrf }
        ensures is { result.now ≡ along_carriers self.now }
    {
        &self.rf[..self.nrf]
    }

    pub fn rt(&self) -> &[f64]
        ensures long { length result.now ≡ self.now.nrt }
        ensures is { result.now ≡ along_symbols self.now }
    {
        &self.rt[..self.nrt]
    }
}
