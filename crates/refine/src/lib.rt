// refine.rs, `BurstGrid::refine`: an accepted burst judged again with the decoder's likelihoods as priors.
#![tactic(auto)]

mod bit_order;
mod burst_grid;
mod expected;
mod judging;
mod listening;
mod planned;
mod settings;
mod sizes;
mod spoilt;
mod symbols;
mod whole;

pub use burst_grid::BurstGrid;
pub use judge::fit;
pub use listening::places_of;
pub use planned::Planned;
pub use settings::{Plan, Settings, plan_of, unit_points};
pub use sizes::{nbits, ncell};
pub use whole::{Refined, refine};
