//! The SIB byte by its fields (SDM volume 2, section 2.1.3 and figure 2-1).

ghost use Rattle.std.specs.Prelude.{◌≡◌, ◌≤◌, ◌^◌, ◌==◌, ◌||◌, IsTrue};
ghost use Rattle.xe_modrm.specs.Operand.{md_of, reg_of, rm_of};

/// A SIB byte.
#[derive(Clone, Copy)]
pub struct SibByte {
    pub byte: u8,
}

impl SibByte {
    /// The factor of the index, 1, 2, 4 or 8, from bits 7:6.
    pub fn scale(self) -> u8
        ensures value { result ≡ 2 ^ md_of self.byte }
        ensures range { IsTrue (result == 1 || result == 2 || result == 4 || result == 8) }
    {
        1 << (self.byte / 64)
    }

    /// Bits 5:3: the index register.
    pub fn index(self) -> u8
        ensures value { result ≡ reg_of self.byte }
        ensures bound { result ≤ 7 }
    {
        self.byte / 8 % 8
    }

    /// Bits 2:0: the base register.
    pub fn base(self) -> u8
        ensures value { result ≡ rm_of self.byte }
        ensures bound { result ≤ 7 }
    {
        self.byte % 8
    }
}
