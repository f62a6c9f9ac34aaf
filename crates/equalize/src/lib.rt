// Equalisation of a DFT-spread symbol: est.rs, `fde`, and refine.rs, `sic`.
#![tactic(auto)]

mod canceller;
mod equalizer;
mod filter;
mod received;

pub use canceller::sic;
pub use equalizer::fde;
pub use filter::Equalized;
pub use received::ReceivedSymbol;
