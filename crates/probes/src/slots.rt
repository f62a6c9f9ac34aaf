// bits: what has no answer gives 0, since C has no Option, and a list that does not fit is left as it was. n is the
// burst's number of bits: C may lend longer lists, and a prior list may be shorter.
ghost use Rattle.std.specs.Prelude.{◌≡◌, cond, ◌&&◌, leb, ltb, length};
ghost use Rattle.bits.specs.Mix.{mix_of, scramble_of};
ghost use Rattle.bits.specs.Step.{step_of};
ghost use Rattle.bits.specs.Slots.{longest, slot_of, slot_priors, bit_order};
ghost use Rattle.probes.specs.Within.{Put};

pub fn probe_mix32(x: u32) -> u32
    ensures { result ≡ mix_of x }
{
    bits::mix32(x)
}

pub fn probe_scramble(seed: u32, i: u32) -> u32
    ensures { result ≡ scramble_of seed i }
{
    bits::scramble(seed, i)
}

pub fn probe_interleave_step(n: usize) -> usize
    ensures { result ≡ cond (leb n longest) (step_of n) 0 }
{
    if n > 607662 {
        return 0;
    }
    bits::interleave_step(n)
}

pub fn probe_slot(n: usize, i: usize) -> usize
    ensures { result ≡ cond (leb n longest) (cond (ltb i n) (slot_of n i) 0) 0 }
{
    if n > 607662 || i >= n {
        return 0;
    }
    bits::slot(n, i)
}

pub fn probe_to_slots(prior: &[f32], n: usize, out: &mut [f32]) -> u32
    ensures { Put (leb 1 n && leb n longest && leb n (length out.old)) n (slot_priors n prior.now) out.old result out.new }
{
    if n == 0 || n > 607662 || n > out.len() {
        return 0;
    }
    bits::to_slots(prior, n, out);
    1
}

pub fn probe_from_slots(slots: &[f32], n: usize, out: &mut [f32]) -> u32
    ensures { Put (leb 1 n && leb n longest && leb n (length out.old) && leb n (length slots.now)) n (bit_order n slots.now) out.old result out.new }
{
    if n == 0 || n > 607662 || n > out.len() || n > slots.len() {
        return 0;
    }
    bits::from_slots(slots, n, out);
    1
}
