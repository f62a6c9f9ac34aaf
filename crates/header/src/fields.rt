// The header's fields.
ghost use Rattle.std.specs.Prelude.{◌≡◌, true};
ghost use Rattle.header.specs.Fields.{accepted, data_info, only_info, data_from, only_from};

use crate::mode::DataMode;

// One struct for both kinds of burst, as in header.rs: a call may name fields that do not go together, such as a header
// only that is sparse, which document 01 has refused as `Cause::Fields`; two variants could not hold them. The codes
// are numbers for the same reason: a call may name one that does not exist. Where 32 bits are read, `as` cuts nothing
// off, which the check proves; `try_from` would want an arm for what cannot be.
#[derive(Clone, Copy)]
pub struct Header {
    // 0 = QPSK, 1 = 8PSK, 2 = 16QAM, 3 = 64QAM (0 in a header-only burst).
    pub constellation: u8,
    // Data symbols, 1 to 1,023 (0 in a header-only burst).
    pub nsym: u16,
    pub user: u16,
    // 16 bits more of a header-only burst (0 otherwise).
    pub extra: u16,
    // The sparse pilot pattern (data bursts only).
    pub sparse: bool,
    // How the data symbols are sent (data bursts only).
    pub mode: DataMode,
}

impl Header {
    // No field is too wide, and part 11 of document 01 accepts them together.
    #[tactic(auto, unfolding(crate::specs::Fields::accepted))]
    pub(crate) fn accepted(self) -> bool
        ensures { result ≡ accepted self }
    {
        let narrow = self.constellation <= 3 && self.nsym <= 1023 && self.mode.gain_code <= 3;
        if self.nsym == 0 {
            let plain = self.mode == DataMode::PLAIN;
            return narrow && self.constellation == 0 && !self.sparse && plain;
        }
        narrow && self.extra == 0
    }

    // The same 32 bits are read in two ways, so that neither is a `From<u32>`: here a data burst's.
    #[tactic(auto, unfolding(crate::specs::Fields::data_from))]
    pub(crate) fn data_from(info: u32) -> Header
        ensures { result ≡ data_from info }
    {
        Header {
            constellation: (info / 1073741824) as u8,
            nsym: (info / 1048576 % 1024) as u16,
            user: (info / 16 % 65536) as u16,
            extra: 0,
            sparse: info % 2 == 1,
            mode: DataMode::from_bits(info),
        }
    }

    // A header-only burst's.
    #[tactic(auto, unfolding(crate::specs::Fields::only_from))]
    pub(crate) fn only_from(info: u32) -> Header
        ensures { result ≡ only_from info }
    {
        Header {
            constellation: 0,
            nsym: 0,
            user: (info / 16 % 65536) as u16,
            extra: (info / 1073741824 * 16384 + info / 1048576 % 1024 * 16 + info % 16) as u16,
            sparse: false,
            mode: DataMode::PLAIN,
        }
    }

    // The 32 bits of information of a data burst.
    #[tactic(auto, using(crate::proofs::Information::roomy), unfolding(crate::specs::Fields::data_info))]
    pub(crate) fn data_info(self) -> u32
        requires { accepted self ≡ true }
        ensures { result ≡ data_info self }
    {
        let top = u32::from(self.constellation) * 1073741824 + u32::from(self.nsym) * 1048576;
        top + u32::from(self.user) * 16 + (self.mode.bits() + u32::from(self.sparse))
    }

    // The 32 bits of information of a header-only burst.
    #[tactic(auto, unfolding(crate::specs::Fields::only_info))]
    pub(crate) fn only_info(self) -> u32
        ensures { result ≡ only_info self }
    {
        let e = u32::from(self.extra);
        e / 16384 * 1073741824 + e / 16 % 1024 * 1048576 + u32::from(self.user) * 16 + e % 16
    }
}
