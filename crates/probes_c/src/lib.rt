// The leaf functions of `probes` under their C names, for the comparison with the Rust. Each is said again here, since
// a crate is a library or a static library, and `vectors` and `bursts` use the library.
#![tactic(auto)]

mod cells;
mod constellations;
mod functions;
mod likelihoods;
mod numbers;
mod pilots;
mod slots;
mod spreading;
