// How the data symbols of a burst are sent.
ghost use Rattle.std.specs.Prelude.{◌≡◌};
ghost use Rattle.header.specs.Fields.{mode_bits, mode_from};

#[derive(Clone, Copy, PartialEq, Eq)]
pub struct DataMode {
    pub spread: bool,
    // A number, as in the header: one above 3 is refused there.
    pub gain_code: u8,
}

impl DataMode {
    pub const PLAIN: DataMode = DataMode {
        spread: false,
        gain_code: 0,
    };

    // Three bits of the header, 3..1 of its last four.
    // The names are those of frame.rs: `From<u32>` would not say which bits of which number.
    #[tactic(auto, unfolding(crate::specs::Fields::mode_bits))]
    pub(crate) fn bits(self) -> u32
        ensures { result ≡ mode_bits self }
    {
        u32::from(self.spread) * 2 + u32::from(self.gain_code) * 4
    }

    #[tactic(auto, unfolding(crate::specs::Fields::mode_from))]
    pub(crate) fn from_bits(r: u32) -> DataMode
        ensures { result ≡ mode_from r }
    {
        DataMode {
            spread: r / 2 % 2 == 1,
            gain_code: (r / 4 % 4) as u8,
        }
    }
}
