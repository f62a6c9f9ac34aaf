// What the functions here answer, by the code that the list gives them: code, a and b are the numbers of one of its
// lines. A number travels as its bits.
// The codes stay numbers: the list has them so, and an enum of them would be a second table beside the match.

// The low 32 bits, whatever stands above them: `try_from` would refuse what is larger.
fn word(b: u64) -> u32 {
    (b % 0x1_0000_0000) as u32
}

// Short names for std's, at the list's u64: `From` for both types is std's to write.
fn f32_of(b: u64) -> f32 {
    std::num::f32_from_bits_with_nan(word(b))
}

fn bits32(x: f32) -> u64 {
    u64::from(std::num::f32_to_bits_with_nan(x))
}

fn f64_of(b: u64) -> f64 {
    std::num::f64_from_bits_with_nan(b)
}

fn bits64(x: f64) -> u64 {
    std::num::f64_to_bits_with_nan(x)
}

pub fn answer(code: u64, a: u64, b: u64) -> u64 {
    let (x, y) = (f32_of(a), f32_of(b));
    let (p, q) = (f64_of(a), f64_of(b));
    match code {
        0x01 => bits32(probes::probe_narrow(p)),
        0x02 => bits32(probes::probe_sqrt32(x)),
        0x03 => bits64(probes::probe_sqrt64(p)),
        0x04 => bits32(probes::probe_max32(x, y)),
        0x05 => bits64(probes::probe_max64(p, q)),
        0x06 => bits32(probes::probe_exp(x)),
        0x07 => bits32(probes::probe_ln(x)),
        0x08 => bits32(probes::probe_ln_1p(x)),
        0x09 => bits64(probes::probe_sin(p)),
        0x0a => bits64(probes::probe_cos(p)),
        0x0b => bits32(probes::probe_gain(word(a))),
        0x0c => u64::from(probes::probe_mix32(word(a))),
        0x0d => u64::from(probes::probe_scramble(word(a), word(b))),
        0x0e => probes::probe_interleave_step(a as usize) as u64,
        0x0f => probes::probe_slot(a as usize, b as usize) as u64,
        0x10 => bits32(probes::probe_clamp32(x, -y, y)),
        0x11 => bits64(probes::probe_abs64(p)),
        0x12 => u64::from(probes::probe_is_finite32(x)),
        // 13, the one code more that the list has.
        _ => bits32(bits::sign(word(a) as usize, y)),
    }
}
