//! The numbers of the general registers that addresses name apart (SDM volume 2, table 3-1). In 32
//! and 64 bits the same numbers are EBX and RBX and so on.

pub const BX: u8 = 3;

pub const SP: u8 = 4;

pub const BP: u8 = 5;

pub const SI: u8 = 6;

pub const DI: u8 = 7;
