// A layout by its number.
ghost use Rattle.std.specs.Prelude.{◌≡◌};
ghost use Rattle.layout.specs.Layouts.{layout_of};

use crate::layouts::{
    HALF, LONG, LONG_WIDE, Layout, NORMAL, NORMAL_WIDE, QUARTER, SIXTH, SLICE, SLIM,
};

// The layout of a number, in the order of the source's `LAYOUTS`. A number and no enum: it is what a header's field
// holds and what the C interface passes, and any number from 8 on is the last.
#[tactic(auto, using(crate::proofs::Each::last), unfolding(crate::specs::Layouts::normal, crate::specs::Layouts::long, crate::specs::Layouts::normal_wide, crate::specs::Layouts::long_wide, crate::specs::Layouts::slice, crate::specs::Layouts::slim, crate::specs::Layouts::half, crate::specs::Layouts::quarter, crate::specs::Layouts::sixth, crate::specs::Layouts::layout_of))]
pub fn layout(number: u32) -> Layout
    ensures { result ≡ layout_of number }
{
    match number {
        0 => NORMAL,
        1 => LONG,
        2 => NORMAL_WIDE,
        3 => LONG_WIDE,
        4 => SLICE,
        5 => SLIM,
        6 => HALF,
        7 => QUARTER,
        _ => SIXTH,
    }
}
