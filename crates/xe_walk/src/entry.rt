//! Entries of page tables, and the RAM that tells them.

/// An entry that a walk used.
#[derive(Clone, Copy, PartialEq, Eq, Debug, Default)]
pub struct Used {
    /// Its physical address.
    pub pa: u64,
    /// In bytes: 4 or 8.
    pub size: u8,
    pub value: u64,
}

/// The RAM as it is seen now.
pub trait Phys {
    ghost use Rattle.std.specs.Prelude.{ℕ, List, ◌≡◌, ◌⊎◌};
    ghost use Rattle.xe_base.specs.Ram.{Area};
    ghost use Rattle.xe_walk.specs.Entry.{entry_of, counted};

    /// The RAM. No call changes it.
    ghost ram: { Self → List Area };

    /// How many entries were read. It stands still at its last value, 2^64 - 1.
    ghost reads: { Self → ℕ };

    /// The entry of 4 or 8 bytes there, the lowest byte first; None exactly where one of its bytes is
    /// outside RAM.
    fn entry(&mut self, pa: u64, size: u8) -> Option<u64>
        requires { (size ≡ 4) ⊎ (size ≡ 8) }
        ensures value { result ≡ entry_of (ram self.old) pa size }
        ensures same { ram self.new ≡ ram self.old }
        ensures counted { reads self.new ≡ counted (reads self.old) };
}
