// The two binary formats of IEEE 754, so that what they have in common is written once. The kit's `num_traits::Float`
// has the NaN, its test, the order and the format, but no patterns: with it this trait would still stand, over it, for
// those and for the four constants.
ghost use Rattle.std.specs.Prelude.{◌≡◌, ℕ, ◌*◌, ◌≤◌, not, T, Float, is_nan, refl};
ghost use Rattle.std.specs.Float.{nan, Format, binary32, binary64};
ghost use Rattle.std.specs.Float.Ieee.{lt, hid, ones, top, emax, fits, of_bits, to_bits};

pub trait Binary: Copy {
    // In a pattern the weight of the exponent's field, which a significand's leading digit adds to.
    const HIDDEN: u64;

    // In a pattern the weight of the sign.
    const SIGN: u64;

    // The exponent of the largest values.
    const LARGEST: u64;

    // How many of Newton's steps give a root to all digits, mostly.
    const STEPS: u64;

    ghost HIDDEN: { ℕ };

    ghost SIGN: { ℕ };

    ghost LARGEST: { ℕ };

    ghost STEPS: { ℕ };

    ghost format: { Format };

    // The number, which is the same kind of value in both formats.
    ghost value: { Self → Float };

    fn is_below(self, other: Self) -> bool
        ensures { result ≡ lt (value self) (value other) };

    fn is_nan(self) -> bool
        ensures { result ≡ is_nan (value self) };

    // No conversion: std has a NAN at each type, and no trait that names it.
    fn not_a_number() -> Self
        ensures { value result ≡ nan };

    fn to_pattern(self) -> u64
        requires { T (not (is_nan (value self))) }
        ensures pattern { result ≡ to_bits format (value self) }
        ensures held { T (fits format (value self)) };

    fn of_pattern(pattern: u64) -> Self
        requires { pattern ≤ ones format * hid format }
        ensures { value result ≡ of_bits format pattern };

    ghost hidden_is: { HIDDEN ≡ hid format };

    ghost sign_is: { SIGN ≡ top format };

    ghost largest_is: { LARGEST ≡ emax format };
}

impl Binary for f32 {
    const HIDDEN: u64 = 0x80_0000;

    const SIGN: u64 = 0x8000_0000;

    const LARGEST: u64 = 127;

    const STEPS: u64 = 2;

    ghost HIDDEN = { 0x80_0000 };

    ghost SIGN = { 0x8000_0000 };

    ghost LARGEST = { 127 };

    ghost STEPS = { 2 };

    ghost format = { binary32 };

    ghost value = { λ x. x };

    ghost hidden_is = { refl };

    ghost sign_is = { refl };

    ghost largest_is = { refl };

    fn is_below(self, other: f32) -> bool {
        self < other
    }

    fn is_nan(self) -> bool {
        self.is_nan()
    }

    #[tactic(auto, using(crate::proofs::Floats::nan_pattern))]
    fn not_a_number() -> f32 {
        f32::NAN
    }

    fn to_pattern(self) -> u64 {
        self.to_bits() as u64
    }

    #[tactic(auto, using(crate::proofs::Floats::no_nan_pattern))]
    fn of_pattern(pattern: u64) -> f32 {
        f32::from_bits(pattern as u32)
    }
}

impl Binary for f64 {
    const HIDDEN: u64 = 0x10_0000_0000_0000;

    const SIGN: u64 = 0x8000_0000_0000_0000;

    const LARGEST: u64 = 1023;

    const STEPS: u64 = 3;

    ghost HIDDEN = { 0x10_0000_0000_0000 };

    ghost SIGN = { 0x8000_0000_0000_0000 };

    ghost LARGEST = { 1023 };

    ghost STEPS = { 3 };

    ghost format = { binary64 };

    ghost value = { λ x. x };

    ghost hidden_is = { refl };

    ghost sign_is = { refl };

    ghost largest_is = { refl };

    fn is_below(self, other: f64) -> bool {
        self < other
    }

    fn is_nan(self) -> bool {
        self.is_nan()
    }

    #[tactic(auto, using(crate::proofs::Floats::nan_pattern))]
    fn not_a_number() -> f64 {
        f64::NAN
    }

    fn to_pattern(self) -> u64 {
        self.to_bits()
    }

    #[tactic(auto, using(crate::proofs::Floats::no_nan_pattern))]
    fn of_pattern(pattern: u64) -> f64 {
        f64::from_bits(pattern)
    }
}
