// One unspread burst: layout 7 (5 carriers), 4 data symbols of 3 data cells, 16 points. The grid has 65 * 5 cells.
ghost use Rattle.std.specs.Prelude.{◌<◌};

use cause::Cause;
use refine::{BurstGrid, Refined, Settings};

const SETTINGS: Settings = Settings {
    layout: 7,
    constellation: 2,
    nsym: 4,
    sparse: false,
    spread: false,
    gain_code: 0,
    k: 20,
    boost: 1.0,
    pilot_gain: 1.0,
    p_h: 1.0,
};

// -1 to 255/256, in steps of 1/256: a number of 2..4 by its bits, less 3.
fn fraction(i: u32) -> f32 {
    std::num::f32_from_bits_with_nan(0x4000_0000 + bits::mix32(i) % 512 * 0x4000) - 3.0
}

fn grid() -> [f32; 650] {
    std::array::from_fn(|i| fraction(i as u32))
}

// Bit i sits at one of cell j's slots.
pub fn is_own(i: usize, j: usize) -> bool
    requires { i < 48 }
{
    bits::slot(48, i) / 4 == j
}

// What is believed of bit i: 2 to 31/8, of either sign.
fn belief(i: u32) -> f32 {
    let m = bits::mix32(i ^ 0x0bad_cafe);
    let v = std::num::f32_from_bits_with_nan(0x4000_0000 + m % 16 * 0x8_0000);
    if m / 16 % 2 == 0 { v } else { -v }
}

fn prior(i: usize, negated: Option<usize>) -> f32
    requires { i < 48 }
{
    let v = belief(i as u32);
    if negated.is_some_and(|j| is_own(i, j)) {
        -v
    } else {
        v
    }
}

// The priors, those of one cell's own bits negated, or none.
pub fn priors(negated: Option<usize>) -> [f32; 48] {
    std::array::from_fn(|i| prior(i, negated))
}

pub fn refined(prior: &[f32], answer: &mut [f32], channel: &mut [f32]) -> Result<Refined, Cause> {
    let y = grid();
    let sigma = [1.0f32; 5];
    let cells = [1.0f32; 12];
    let mut wf = [0.0f32; 3948];
    let mut wu = [0u32; 3948];
    let b = BurstGrid {
        settings: SETTINGS,
        grid: &y,
        sigma: &sigma,
        cells: &cells,
    };
    phy::refine(&b, prior, answer, channel, &mut wf, &mut wu)
}
