//! The general registers at the widths that an instruction reads and writes.

ghost use Rattle.std.specs.Prelude.{◌≡◌, ◌<◌, ◌≤◌, ◌^◌, ◌*◌, ◌%◌, IsTrue};
ghost use Rattle.xe_base.specs.Registers.{is_high_byte, register_value, with_low, with_high_byte, written, with_register, is_size};
ghost use Rattle.xe_base.specs.State.{is_long};

use crate::cpu::Cpu;

/// Without REX the numbers 4 to 7 of a byte register name AH, CH, DH and BH.
fn is_high_byte(size: u8, has_rex: bool, index: u8) -> bool
    ensures { result ≡ is_high_byte size has_rex index }
{
    size == 1 && !has_rex && 4 <= index && index <= 7
}

/// The low bits of a number of so many bytes.
fn cut(value: u64, size: u8) -> u64
    requires { IsTrue (is_size size) }
    ensures { result ≡ value % 2 ^ (8 * size) }
{
    match size {
        1 => value % (1 << 8),
        2 => value % (1 << 16),
        4 => value % (1 << 32),
        8 => value,
        _ => unreachable!(),
    }
}

/// A number with its low bytes replaced.
fn with_low(old: u64, value: u64, size: u8) -> u64
    requires { IsTrue (is_size size) }
    ensures { result ≡ with_low (8 * size) old value }
{
    old - cut(old, size) + cut(value, size)
}

/// A number with its bits 15:8 replaced.
fn with_high_byte(old: u64, value: u64) -> u64
    ensures { result ≡ with_high_byte old value }
{
    old - (old / (1 << 8) % (1 << 8)) * (1 << 8) + value % (1 << 8) * (1 << 8)
}

impl Cpu {
    /// The number in a general register, at a width of 1, 2, 4 or 8 bytes (SDM volume 1,
    /// "General-Purpose Registers"): without REX the numbers 4 to 7 of a byte register are AH, CH, DH and BH.
    #[tactic(auto, unfolding(crate::specs::Registers::register_value))]
    pub fn register(&self, size: u8, has_rex: bool, index: u8) -> u64
        requires size { IsTrue (is_size size) }
        requires index { index < 16 }
        ensures { result ≡ register_value self.now size has_rex index }
    {
        if is_high_byte(size, has_rex, index) {
            self.gpr[index as usize - 4] / (1 << 8) % (1 << 8)
        } else {
            cut(self.gpr[index as usize], size)
        }
    }

    /// Writes a general register at a width of 1, 2, 4 or 8 bytes. Writes of 8 and 16 bits keep the
    /// rest of the register; one of 32 bits clears its upper half in 64-bit mode and keeps it
    /// elsewhere (SDM volume 1, "General-Purpose Registers in 64-Bit Mode"). Outside 64-bit mode no
    /// instruction sees the upper half, and the SDM leaves open what it is afterwards: here it stays.
    #[tactic(auto, unfolding(crate::specs::Registers::with_register))]
    pub fn set_register(&mut self, size: u8, has_rex: bool, index: u8, value: u64)
        requires size { IsTrue (is_size size) }
        requires index { index < 16 }
        ensures { self.new ≡ with_register self.old size has_rex index value }
    {
        if is_high_byte(size, has_rex, index) {
            let old = self.gpr[index as usize - 4];
            self.gpr[index as usize - 4] = with_high_byte(old, value);
        } else {
            let old = self.gpr[index as usize];
            self.gpr[index as usize] = self.written(size, old, value);
        }
    }

    /// What a general register holds after a write.
    fn written(&self, size: u8, old: u64, value: u64) -> u64
        requires { IsTrue (is_size size) }
        ensures { result ≡ written (is_long self.now) size old value }
    {
        if size == 4 && self.is_long() {
            value % (1 << 32)
        } else {
            with_low(old, value, size)
        }
    }
}
