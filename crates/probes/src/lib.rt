// The leaf functions for the comparison with the Rust, which `probes_c` exports. None has a `requires`: each says what
// it answers to anything.
#![tactic(auto)]

mod cells;
mod constellations;
mod functions;
mod likelihoods;
mod lists;
mod numbers;
mod pilots;
mod slots;
mod spreading;

pub use cells::{probe_cell_index, probe_data_carrier, probe_is_pilot, probe_known};
pub use constellations::{
    probe_loud, probe_mean_energy, probe_points, probe_scaled, probe_soft_point,
    probe_soft_point_of, probe_softplus,
};
pub use functions::{probe_cos, probe_exp, probe_gain, probe_ln, probe_ln_1p, probe_sin};
pub use likelihoods::{FlatCell, probe_decide, probe_demap};
pub use lists::put;
pub use numbers::{
    probe_abs64, probe_clamp32, probe_clamp64, probe_is_finite32, probe_max32, probe_max64,
    probe_narrow, probe_sqrt32, probe_sqrt64,
};
pub use pilots::{LoadSettings, probe_load};
pub use slots::{
    probe_from_slots, probe_interleave_step, probe_mix32, probe_scramble, probe_slot,
    probe_to_slots,
};
pub use spreading::{probe_forward, probe_spread, probe_twiddles};
