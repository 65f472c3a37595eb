//! The ModRM byte by its fields (SDM volume 2, section 2.1.3 and figure 2-1).

ghost use Rattle.std.specs.Prelude.{◌≡◌, ◌≤◌};
ghost use Rattle.xe_modrm.specs.Operand.{md_of, reg_of, rm_of};

/// A ModRM byte.
#[derive(Clone, Copy, PartialEq, Eq, Debug)]
pub struct ModRmByte {
    pub byte: u8,
}

impl ModRmByte {
    /// Bits 7:6: 3 where the operand is a register, 0 to 2 where it lies in memory.
    pub fn md(self) -> u8
        ensures value { result ≡ md_of self.byte }
        ensures bound { result ≤ 3 }
    {
        self.byte / 64
    }

    /// Bits 5:3: a register, or three more bits of the opcode.
    pub fn reg(self) -> u8
        ensures value { result ≡ reg_of self.byte }
        ensures bound { result ≤ 7 }
    {
        self.byte / 8 % 8
    }

    /// Bits 2:0: a register, or how an address is formed.
    pub fn rm(self) -> u8
        ensures value { result ≡ rm_of self.byte }
        ensures bound { result ≤ 7 }
    {
        self.byte % 8
    }
}
