// The nine layouts.
use crate::pattern::Pattern;

// What differs between the numerologies, as far as the path of a burst reads it. That a layout fits (`FitLayout`, and
// `FitSizes` in it) is a clause and no ghost field: the language refuses `..NORMAL` of a struct that has one, so that
// seven layouts would be written out in full, and the definitions' records of numbers would each carry a proof.
#[derive(Clone, Copy)]
pub struct Layout {
    // FFT length and cyclic prefix, samples at 8 kHz.
    pub n: usize,
    pub cp: usize,
    // Carriers: a whole number of steps of either pattern, and one more.
    pub nc: usize,
    // Pilot patterns: header and robust data symbols; sparse data symbols.
    pub robust: Pattern,
    pub sparse: Pattern,
    pub hdr_syms: usize,
    // Masks on the header's check: data bursts, header-only bursts.
    pub crc_data: u16,
    pub crc_ho: u16,
    // The channel models to choose from: Doppler (Hz) for either pattern, delay span (samples).
    pub fd: [f64; 3],
    pub fd_sparse: [f64; 3],
    pub tm: [f64; 3],
    // The estimator's window, symbols and carriers, and a factor on the time scale of its distance.
    pub gw: usize,
    pub cw: usize,
    pub est_lg: f32,
}

// DVB-T's pattern.
const P12: Pattern = Pattern {
    step: 12,
    shift: 3,
    period: 4,
};

// The narrow layouts' patterns.
const P6: Pattern = Pattern {
    step: 6,
    shift: 3,
    period: 2,
};

const P4: Pattern = Pattern {
    step: 4,
    shift: 2,
    period: 2,
};

// 50 Hz spacing, 4 ms cyclic prefix, 49 carriers.
pub const NORMAL: Layout = Layout {
    n: 160,
    cp: 32,
    nc: 49,
    robust: P12,
    sparse: Pattern {
        step: 24,
        shift: 3,
        period: 8,
    },
    hdr_syms: 4,
    crc_data: 0,
    crc_ho: 0xB7E1,
    fd: [0.3, 1.0, 2.5],
    fd_sparse: [0.3, 1.0, 2.0],
    tm: [8.0, 16.0, 48.0],
    gw: 12,
    cw: 12,
    est_lg: 1.0,
};

// 25 Hz spacing, 10 ms cyclic prefix, 97 carriers: long echoes.
pub const LONG: Layout = Layout {
    n: 320,
    cp: 80,
    nc: 97,
    robust: P12,
    sparse: P12,
    hdr_syms: 2,
    crc_data: 0x5A0F,
    crc_ho: 0xE45B,
    fd: [0.3, 1.0, 2.0],
    fd_sparse: [0.3, 1.0, 2.0],
    tm: [16.0, 40.0, 80.0],
    gw: 12,
    cw: 24,
    est_lg: 1.0,
};

// NORMAL on 55 carriers.
pub const NORMAL_WIDE: Layout = Layout {
    nc: 55,
    robust: Pattern {
        step: 18,
        shift: 3,
        period: 6,
    },
    sparse: Pattern {
        step: 27,
        shift: 3,
        period: 9,
    },
    crc_data: 0x3C96,
    crc_ho: 0x8D2B,
    ..NORMAL
};

// LONG on 109 carriers.
pub const LONG_WIDE: Layout = Layout {
    nc: 109,
    crc_data: 0xC3A5,
    crc_ho: 0x71D8,
    ..LONG
};

// A 650 Hz slice: NORMAL's spacing and prefix on 13 carriers.
pub const SLICE: Layout = Layout {
    nc: 13,
    robust: P6,
    sparse: P12,
    hdr_syms: 18,
    crc_data: 0x6E3A,
    crc_ho: 0x1BC7,
    fd_sparse: [0.3, 1.0, 2.5],
    tm: [8.0, 16.0, 32.0],
    est_lg: 0.15,
    ..NORMAL
};

// 650 Hz: LONG's prefix on 25 carriers, 26.7 Hz apart.
pub const SLIM: Layout = Layout {
    n: 300,
    nc: 25,
    hdr_syms: 8,
    crc_data: 0x96E3,
    crc_ho: 0x2B5C,
    cw: 12,
    ..LONG
};

// 350 Hz: SLICE on 7 carriers.
pub const HALF: Layout = Layout {
    nc: 7,
    sparse: P6,
    hdr_syms: 36,
    crc_data: 0x4D27,
    crc_ho: 0xA9C3,
    ..SLICE
};

// 250 Hz: SLICE on 5 carriers.
pub const QUARTER: Layout = Layout {
    nc: 5,
    robust: P4,
    sparse: P4,
    hdr_syms: 60,
    crc_data: 0x3B95,
    crc_ho: 0xD64E,
    ..SLICE
};

// A sixth of the passband: LONG's spacing and prefix on SLICE's 13 carriers.
pub const SIXTH: Layout = Layout {
    nc: 13,
    robust: P6,
    sparse: P6,
    hdr_syms: 18,
    crc_data: 0x5C71,
    crc_ho: 0xE2B9,
    cw: 12,
    est_lg: 0.15,
    ..LONG
};
