// Which numbers two refinements give the same, by their bits.
ghost use Rattle.std.specs.Prelude.{◌≡◌, ◌<◌, ◌≤◌, ◌+◌, length};

use crate::burst::is_own;

// What a refinement writes of the burst: its likelihoods in bit order, and three channel numbers a cell.
#[derive(Clone, Copy)]
pub struct Numbers {
    pub likelihoods: [f32; 48],
    pub channel: [f32; 36],
}

impl Numbers {
    pub const ZEROS: Numbers = Numbers {
        likelihoods: [0.0; 48],
        channel: [0.0; 36],
    };
}

// What was counted so far: a cell's numbers that are equal and that differ, and the other cells' that differ.
#[derive(Clone, Copy)]
pub struct Count {
    pub equal: u64,
    pub differ: u64,
    pub others: u64,
}

const NONE: Count = Count {
    equal: 0,
    differ: 0,
    others: 0,
};

fn bits(x: f32) -> u32 {
    std::num::f32_to_bits_with_nan(x)
}

// The numbers of a and b, place by place; `own` says which places are the cell's. They are two refinements' lists, of
// two calls, and no columns of one.
fn counts<F: Fn(usize) -> bool>(own: F, a: &[f32], b: &[f32]) -> Count
    requires callable { F.IsAlwaysCallable own }
    requires few { length a.now ≤ 48 }
    ensures equal { result.equal ≤ length a.now }
    ensures differ { result.differ ≤ length a.now }
    ensures others { result.others ≤ length a.now }
{
    let mut n = NONE;
    for (i, (x, y)) in a.iter().zip(b).enumerate() {
        match (own(i), bits(*x) == bits(*y)) {
            (true, true) => n.equal += 1,
            (true, false) => n.differ += 1,
            (false, true) => {}
            (false, false) => n.others += 1,
        }
    }
    n
}

// Two refinements of the burst, and what of them is counted for cell j.
#[derive(Clone, Copy)]
pub struct Pair<'a> {
    pub a: &'a Numbers,
    pub b: &'a Numbers,
}

impl Pair<'_> {
    // The channel lists: three numbers a cell.
    pub fn channels(&self, j: usize) -> Count
        ensures equal { result.equal ≤ 36 }
        ensures differ { result.differ ≤ 36 }
        ensures others { result.others ≤ 36 }
    {
        counts(|i| i / 3 == j, &self.a.channel, &self.b.channel)
    }

    // The likelihoods, in bit order.
    pub fn likelihoods(&self, j: usize) -> Count
        ensures equal { result.equal ≤ 48 }
        ensures differ { result.differ ≤ 48 }
        ensures others { result.others ≤ 48 }
    {
        counts(
            |i| i < 48 && is_own(i, j),
            &self.a.likelihoods,
            &self.b.likelihoods,
        )
    }
}
