// The scrambler of frame.rs.
ghost use Rattle.std.specs.Prelude.{◌≡◌, ◌*◌, ◌%◌, ◌^◌, ◌<◌};
ghost use Rattle.bits.specs.Mix.{mix_of, scramble_of, signed};

// The streams of the data bits and of the header bits.
pub const SEED_DATA: u32 = 0x4865_726d;

pub const SEED_HDR: u32 = 0x6573_4844;

// Rust's `u32::wrapping_mul`. Document 01 wants a helper of its own for it: each product that wraps goes through this
// one, whose contract says so as the definitions write it.
pub fn wrapping_mul(a: u32, b: u32) -> u32
    ensures { result ≡ a * b % 2 ^ 32 }
{
    a.wrapping_mul(b)
}

// frame.rs `mix32`.
#[tactic(auto, unfolding(crate::specs::Mix::mix_of))]
pub fn mix32(x: u32) -> u32
    ensures { result ≡ mix_of x }
{
    let a = x ^ (x >> 16);
    let b = wrapping_mul(a, 0x7feb_352d);
    let c = b ^ (b >> 15);
    let d = wrapping_mul(c, 0x846c_a68b);
    d ^ (d >> 16)
}

// frame.rs `scramble`: bit i of stream `seed`.
#[tactic(auto, unfolding(crate::specs::Mix::scramble_of))]
pub fn scramble(seed: u32, i: u32) -> u32
    ensures { result ≡ scramble_of seed i }
{
    (mix32(wrapping_mul(i, 0x9e37_79b9) ^ seed) >> 7) & 1
}

// The number of data bit i, negated where the stream has a 1, as `refine` scrambles and unscrambles.
#[tactic(auto, unfolding(crate::specs::Mix::signed))]
pub fn sign(i: usize, v: f32) -> f32
    requires { i < 2 ^ 32 }
    ensures { result ≡ signed i v }
{
    if scramble(SEED_DATA, i as u32) == 1 {
        -v
    } else {
        v
    }
}
