// How often a host was asked.
ghost use Rattle.std.specs.Prelude.{◌≡◌, ◌-◌};

/// How often each kind of call was made of the files. A count at 2^64 - 1 stays there.
#[derive(Clone, Copy, Debug, PartialEq, Eq)]
pub struct Counts {
    pub creates: u64,
    pub removes: u64,
    pub writes: u64,
    pub syncs: u64,
    /// Names, lengths and reads.
    pub looks: u64,
}

impl Counts {
    /// No call was made.
    pub fn new() -> Counts
        ensures { result ≡ record { creates = 0; removes = 0; writes = 0; syncs = 0; looks = 0 } }
    {
        Counts {
            creates: 0,
            removes: 0,
            writes: 0,
            syncs: 0,
            looks: 0,
        }
    }

    /// How much more it is than this.
    pub fn since(self, earlier: Counts) -> Counts
        ensures { result ≡ record { creates = self.creates - earlier.creates; removes = self.removes - earlier.removes; writes = self.writes - earlier.writes; syncs = self.syncs - earlier.syncs; looks = self.looks - earlier.looks } }
    {
        Counts {
            creates: self.creates.saturating_sub(earlier.creates),
            removes: self.removes.saturating_sub(earlier.removes),
            writes: self.writes.saturating_sub(earlier.writes),
            syncs: self.syncs.saturating_sub(earlier.syncs),
            looks: self.looks.saturating_sub(earlier.looks),
        }
    }
}
