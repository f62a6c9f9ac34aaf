ghost use Rattle.std.specs.Prelude.{◌≡◌, ◌^◌, ◌<◌, ◌≤◌};
ghost use Rattle.points.specs.Table.{point_at};

use dsp::Complex;

// 64 points as re, im, re, im, .., of which the first 2^bps are the constellation's and the rest are zero. One list of
// numbers, since C lends such a table and the definitions read one: so a point is read and written by its index. No
// `ArrayVec`: that is written from the front and ends at its length, while points are put at their labels in any
// order, C lends all 128 numbers, and how many count follows from bps.
#[derive(Clone, Copy)]
pub struct Points {
    pub bps: usize,
    pub pts: [f32; 128],
    pub ghost few: { bps ≤ 6 },
}

impl Points {
    // frame.rs, `Points::count`.
    pub fn count(&self) -> usize
        ensures exact { result ≡ 2 ^ self.now.bps }
        ensures few { result ≤ 64 }
    {
        count(self.bps)
    }

    pub fn point(&self, k: usize) -> Complex
        requires { k < 64 }
        ensures { result ≡ point_at self.now.pts k }
    {
        Complex::at(&self.pts, k)
    }
}

// How many labels of so many bits there are.
#[tactic(auto, using(crate::proofs::Counts::at_most_64))]
pub fn count(bps: usize) -> usize
    requires { bps ≤ 6 }
    ensures exact { result ≡ 2 ^ bps }
    ensures few { result ≤ 64 }
{
    1 << bps
}
