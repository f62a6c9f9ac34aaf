// How many stored answers were read, and how many of them differ.
ghost use Rattle.std.specs.Prelude.{◌≡◌, ◌+◌, ◌≤◌, ◌<◌, ◌^◌, if◌then◌else◌};

#[derive(Clone, Copy)]
pub struct Tally {
    pub read: u64,
    pub differ: u64,
}

impl Tally {
    pub const NONE: Tally = Tally { read: 0, differ: 0 };

    // One more was read, the same or not.
    pub fn counted(self, same: bool) -> Tally
        requires read { self.read + 1 < 2 ^ 64 }
        requires differ { self.differ ≤ self.read }
        ensures read { result.read ≡ self.read + 1 }
        ensures differ { result.differ ≡ (if same then self.differ else self.differ + 1) }
    {
        Tally {
            read: self.read + 1,
            differ: self.differ + u64::from(!same),
        }
    }
}
