use dsp::Complex;

// est.rs, `Pilot`: a least-squares sample of the channel at carrier c of symbol g, and its noise variance.
#[derive(Clone, Copy, Default)]
pub struct Pilot {
    pub c: u32,
    pub g: u32,
    pub h: Complex,
    pub var: f32,
}
