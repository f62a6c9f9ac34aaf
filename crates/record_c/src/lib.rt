// The C interface on the burst record: its functions under their C names. They stand apart from `record`, since a crate
// is a library or a static library, and `burst` and `replay` use the library.
#![tactic(auto)]

mod calls;
