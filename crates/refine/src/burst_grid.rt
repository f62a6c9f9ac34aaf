// refine.rs, `BurstGrid`: what the data stage saw of a burst, by the lists that hold it.
use crate::settings::Settings;

// The grid as (re, im), and the variances of its noise: sigma2 by carrier, cell_s2 by data cell. The priors stay beside
// it, here and in the crates above: they come from the decoder, the source's `refine` takes them beside its grid, and
// `Independence` compares two lists of them over one burst.
#[derive(Clone, Copy)]
pub struct BurstGrid<'a> {
    pub settings: Settings,
    pub grid: &'a [f32],
    pub sigma: &'a [f32],
    pub cells: &'a [f32],
}
