// The six bytes of fields before the numbers.
ghost use Rattle.std.specs.Prelude.{◌≡◌, ◌≤◌, length};
ghost use Rattle.wire.specs.Record as spec;
ghost use Rattle.wire.specs.Sizes.{plain};

use refine::Settings;

// As the record has them. Layout and codes are numbers, as in `Settings`: a record may name a layout that does not
// exist, and the table of causes refuses it as `Cause::Layout`.
#[derive(Clone, Copy)]
pub struct Fields {
    pub layout: u32,
    pub constellation: u32,
    pub nsym: usize,
    pub sparse: bool,
    pub spread: bool,
    pub gain_code: u32,
    pub k: usize,
    pub priors: usize,
}

// The six bytes as one number.
#[tactic(auto, unfolding(crate::specs::Record::head))]
pub fn head(record: &[u8]) -> u64
    requires { 6 ≤ length «record».now }
    ensures { result ≡ spec.head «record».now }
{
    let r = &record[..6];
    u64::from_be_bytes([0, 0, r[0], r[1], r[2], r[3], r[4], r[5]])
}

impl Fields {
    // What the fields say, with the numbers that stand first after them.
    #[tactic(auto, unfolding(crate::specs::Record::settings_of))]
    pub fn settings(self, boost: f32, pilot_gain: f32, p_h: f32) -> Settings
        ensures { result ≡ spec.settings_of self boost pilot_gain p_h }
    {
        Settings {
            layout: self.layout,
            constellation: self.constellation,
            nsym: self.nsym,
            sparse: self.sparse,
            spread: self.spread,
            gain_code: self.gain_code,
            k: self.k,
            boost,
            pilot_gain,
            p_h,
        }
    }

    // Before those numbers are read: the record may be too short for them. Neither the table's first rows nor the sizes
    // look at the three, but both take `Settings`, which is the flat struct that C passes; a struct of the other seven
    // would have to be copied into it field by field.
    pub(crate) fn plain(self) -> Settings
        ensures { result ≡ plain self }
    {
        self.settings(f32::NAN, f32::NAN, f32::NAN)
    }
}

// Not a `From<u64>`, which would not say that the number is the six bytes.
#[tactic(auto, unfolding(crate::specs::Record::fields_of))]
pub fn fields_of(head: u64) -> Fields
    ensures { result ≡ spec.fields_of head }
{
    Fields {
        layout: (head / 0x1000_0000_0000) as u32,
        constellation: (head / 0x400_0000_0000 % 4) as u32,
        nsym: (head / 0x1_0000_0000 % 1024) as usize,
        sparse: head / 0x8000_0000 % 2 == 1,
        spread: head / 0x4000_0000 % 2 == 1,
        gain_code: (head / 0x1000_0000 % 4) as u32,
        k: (head / 0x40_0000 % 64) as usize,
        priors: (head / 4 % 0x10_0000) as usize,
    }
}
