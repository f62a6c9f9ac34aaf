// bits: what has no answer gives 0, since C has no Option, and a list that does not fit is left as it was. n is the
// burst's number of bits: C may lend longer lists, and a prior list may be shorter.
ghost use Rattle.std.specs.Prelude.{◌≡◌, cond, ◌&&◌, leb, ltb, length};
ghost use Rattle.bits.specs.Mix.{mix_of, scramble_of};
ghost use Rattle.bits.specs.Step.{step_of};
ghost use Rattle.bits.specs.Slots.{longest, slot_of, slot_priors, bit_order};
ghost use Rattle.probes.specs.Within.{Put};

#[unsafe(no_mangle)]
pub extern "C" fn probe_mix32(x: u32) -> u32
    ensures { result ≡ mix_of x }
{
    probes::probe_mix32(x)
}

#[unsafe(no_mangle)]
pub extern "C" fn probe_scramble(seed: u32, i: u32) -> u32
    ensures { result ≡ scramble_of seed i }
{
    probes::probe_scramble(seed, i)
}

#[unsafe(no_mangle)]
pub extern "C" fn probe_interleave_step(n: usize) -> usize
    ensures { result ≡ cond (leb n longest) (step_of n) 0 }
{
    probes::probe_interleave_step(n)
}

#[unsafe(no_mangle)]
pub extern "C" fn probe_slot(n: usize, i: usize) -> usize
    ensures { result ≡ cond (leb n longest) (cond (ltb i n) (slot_of n i) 0) 0 }
{
    probes::probe_slot(n, i)
}

#[unsafe(no_mangle)]
pub extern "C" fn probe_to_slots(prior: &[f32], n: usize, out: &mut [f32]) -> u32
    ensures { Put (leb 1 n && leb n longest && leb n (length out.old)) n (slot_priors n prior.now) out.old result out.new }
{
    probes::probe_to_slots(prior, n, out)
}

#[unsafe(no_mangle)]
pub extern "C" fn probe_from_slots(slots: &[f32], n: usize, out: &mut [f32]) -> u32
    ensures { Put (leb 1 n && leb n longest && leb n (length out.old) && leb n (length slots.now)) n (bit_order n slots.now) out.old result out.new }
{
    probes::probe_from_slots(slots, n, out)
}
