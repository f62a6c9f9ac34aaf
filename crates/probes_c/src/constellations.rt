// points and soft: a list that does not fit is left as it was, and 0 is answered, since C has no Option. A code is a
// number, since C may pass any: those past 3 name the last constellation.
ghost use Rattle.std.specs.Prelude.{◌≡◌, cond, ◌&&◌, ◌++◌, leb, length, drop};
ghost use Rattle.dsp.specs.Arithmetic.{complex};
ghost use Rattle.points.specs.Constellation.{points_of};
ghost use Rattle.points.specs.Power.{scaled_of, mean_energy_of};
ghost use Rattle.soft.specs.Soft.{softplus_of, soft_point, loud_of};
ghost use Rattle.probes.specs.Within.{Put, flat_soft};

// Answers the bits of a point.
#[unsafe(no_mangle)]
pub extern "C" fn probe_points(code: u32, out: &mut [f32]) -> usize
    ensures { (result ≡ cond (leb 128 (length out.old)) (points_of code).bps 0) × (out.new ≡ cond (leb 128 (length out.old)) ((points_of code).pts ++ drop 128 out.old) out.old) }
{
    probes::probe_points(code, out)
}

#[unsafe(no_mangle)]
pub extern "C" fn probe_scaled(code: u32, gain: f32, out: &mut [f32]) -> u32
    ensures { Put (leb 128 (length out.old)) 128 (scaled_of (points_of code).pts gain) out.old result out.new }
{
    probes::probe_scaled(code, gain, out)
}

#[unsafe(no_mangle)]
pub extern "C" fn probe_mean_energy(code: u32, gain: f32) -> f32
    ensures { result ≡ mean_energy_of (points_of code).pts (points_of code).bps gain }
{
    probes::probe_mean_energy(code, gain)
}

// The points scaled by the gain; mean and variance go to out.
#[unsafe(no_mangle)]
pub extern "C" fn probe_soft_point(code: u32, gain: f32, llr: &[f32], out: &mut [f32]) -> u32
    ensures { Put (leb (points_of code).bps (length llr.now) && leb 3 (length out.old)) 3 (flat_soft (soft_point llr.now (scaled_of (points_of code).pts gain) (points_of code).bps)) out.old result out.new }
{
    probes::probe_soft_point(code, gain, llr, out)
}

// The same of a table that the caller made.
#[unsafe(no_mangle)]
pub extern "C" fn probe_soft_point_of(
    pts: &[f32; 128],
    bps: usize,
    llr: &[f32],
    out: &mut [f32],
) -> u32
    ensures { Put (leb bps 6 && leb bps (length llr.now) && leb 3 (length out.old)) 3 (flat_soft (soft_point llr.now pts.now bps)) out.old result out.new }
{
    probes::probe_soft_point_of(pts, bps, llr, out)
}

#[unsafe(no_mangle)]
pub extern "C" fn probe_softplus(x: f32) -> f32
    ensures { result ≡ softplus_of x }
{
    probes::probe_softplus(x)
}

#[unsafe(no_mangle)]
pub extern "C" fn probe_loud(re: f32, im: f32, es: f32) -> bool
    ensures { result ≡ loud_of (complex re im) es }
{
    probes::probe_loud(re, im, es)
}
