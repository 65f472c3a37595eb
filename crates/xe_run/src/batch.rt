//! How many steps a turn has at most.
ghost use Rattle.xe_run.specs.Batch.{IsBatch};

/// How many steps a turn has at most: 1 to 1000.
#[derive(Drop)]
pub(crate) struct Batch {
    pub(crate) most: u32,
    ghost in_range: { IsBatch most },
}

impl Batch {
    ghost use Rattle.std.specs.Prelude.{◌≡◌, ◌≤◌, min};

    /// So many steps.
    pub(crate) fn new(most: u64) -> Batch
        requires { IsBatch most }
        ensures { result.most ≡ most }
    {
        Batch { most: most as u32 }
    }

    /// How many steps the next turn has at most, where so many are left.
    pub(crate) fn next(&self, left: u64) -> u32
        requires { 1 ≤ left }
        ensures value { result ≡ min self.now.most left }
        ensures some { 1 ≤ result }
        ensures few { result ≤ 1000 }
    {
        u64::from(self.most).min(left) as u32
    }

    /// How many steps a turn has at most.
    pub(crate) fn most(&self) -> u32
        ensures value { result ≡ self.now.most }
        ensures some { 1 ≤ result }
    {
        self.most
    }
}
