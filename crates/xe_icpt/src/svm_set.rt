//! The set of SVM intercepts (AMD64 APM volume 2, "Intercept Operation").

ghost use Rattle.std.specs.Prelude.{◌≡◌, ◌≢◌, ◌↔◌, ℕ, ◌+◌, ◌<◌, ◌≤◌, ◌||◌, ◌&&◌, nat_le, [], ◌∷◌, ◌++◌, length, true, false, Option};
ghost use Rattle.std.specs.Int.RustNames.{bit_or};
ghost use Rattle.bitflags.specs.Sets.{without};

use crate::exit::Exit;
use crate::intercepts::Intercepts;
use crate::point::Point;
use crate::port_bitmap::{has_one_of, no_ports, set_ports};
use crate::svm_name::SvmName;
use crate::svm_table::{exit_of, name_of};
use arrayvec::ArrayVec;
use bitflags::Flags;
use std::marker::Model;

/// A model-specific register with a direction of access.
#[derive(Clone, Copy, PartialEq, Eq, Debug, Default)]
pub struct MsrPair {
    pub number: u32,
    pub write: bool,
}

/// A set of SVM intercepts: names, a bitmap of the 65,536 ports, and at most 64 pairs of an MSR
/// and a direction.
///
/// Ports and pairs matter where the names IOIO and MSR are set. The processor's maps have more: bits
/// for three ports past FFFFh, and an MSR outside their ranges exits always. Here there are 65,536
/// ports and the listed pairs alone, so that a scenario can name all that exits: a byte of an access
/// past port FFFFh counts as port 0 and up, and an MSR that isn't listed is never intercepted.
#[derive(Drop)]
pub struct SvmSet {
    names: SvmName,
    ports: [u64; 1024],
    msrs: ArrayVec<MsrPair, 64>,
}

impl Model for SvmSet {
    ghost use Rattle.xe_icpt.specs.PortBitmap.{ports_of};
    ghost use Rattle.xe_icpt.specs.SvmSet.{Svm, stored};

    ghost Value = { Svm };

    ghost coded = { stored };

    ghost view = { λ s. record { names = s.names.0; ports = ports_of s.ports; msrs = s.msrs.items } };
}

impl SvmSet {
    ghost use Rattle.std.specs.FinSet.{empty, union};
    ghost use Rattle.xe_icpt.specs.Ports.{ports_between};
    ghost use Rattle.xe_icpt.specs.SvmSet.{bits_of, has_msr, svm_asks};

    /// The set that intercepts nothing.
    pub fn new() -> SvmSet
        ensures { result ≡ record { names = 0; ports = empty; msrs = [] } }
    {
        SvmSet {
            names: SvmName::empty(),
            ports: no_ports(),
            msrs: ArrayVec::new(),
        }
    }

    /// Adds these names.
    pub fn set(&mut self, name: SvmName)
        ensures { self.new ≡ record self.old { names = bit_or self.old.names (bits_of name) } }
    {
        self.names.insert(name);
    }

    /// Takes these names away.
    pub fn clear(&mut self, name: SvmName)
        ensures { self.new ≡ record self.old { names = without 64 self.old.names (bits_of name) } }
    {
        self.names.remove(name);
    }

    /// Adds the ports from `low` to `high`.
    pub fn ports(&mut self, low: u16, high: u16)
        requires { low ≤ high }
        ensures { self.new ≡ record self.old { ports = union self.old.ports (ports_between low high) } }
    {
        set_ports(&mut self.ports, low, high);
    }

    /// Adds an MSR with a direction; the answer is false exactly where 64 other pairs are held.
    pub fn msr(&mut self, number: u32, write: bool) -> bool
        ensures refused { (result ≡ false) ↔ ((has_msr self.old.msrs number write ≡ false) × (length self.old.msrs ≡ 64)) }
        ensures held { has_msr self.old.msrs number write ≡ true → self.new ≡ self.old }
        ensures full { result ≡ false → self.new ≡ self.old }
        ensures added { has_msr self.old.msrs number write ≡ false → result ≡ true → self.new ≡ record self.old { msrs = self.old.msrs ++ record { number = number; write = write } ∷ [] } }
    {
        let pair = MsrPair { number, write };
        if self.has_msr(pair) {
            return true;
        }
        if self.msrs.is_full() {
            return false;
        }
        self.msrs.push(pair);
        true
    }

    /// Whether the pair is held.
    fn has_msr(&self, pair: MsrPair) -> bool
        ensures { result ≡ has_msr self.now.msrs pair.number pair.write }
    {
        self.msrs
            .iter()
            .any(|m| m.number == pair.number && m.write == pair.write)
    }

    /// Whether the port or the MSR of a point is set; true for all other points.
    fn asks(&self, p: &Point) -> bool
        ensures { result ≡ svm_asks self.now p.now }
    {
        match *p {
            Point::Io { port, size, .. } => has_one_of(&self.ports, port, size),
            Point::Msr { number, write } => self.has_msr(MsrPair { number, write }),
            // All others are intercepted by their name alone.
            _ => true,
        }
    }
}

impl Intercepts for SvmSet {
    ghost use Rattle.xe_icpt.specs.SvmSet.{svm_hit};

    ghost hits = { svm_hit };

    fn check(&self, p: &Point) -> Option<Exit> {
        if self.names.contains(name_of(p)) && self.asks(p) {
            Some(exit_of(p))
        } else {
            None
        }
    }
}
