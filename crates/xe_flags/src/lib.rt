//! Results and flags of the arithmetic instructions, at 8, 16, 32 and 64 bits.
//!
//! Each call takes the old flags and answers the new ones. It changes no bit of them but the six status flags:
//! CF 0, PF 2, AF 4, ZF 6, SF 7 and OF 11. The definitions over whole numbers stand in `specs/`, in files named
//! as the modules here.
#![tactic(auto)]

pub mod arithmetic;
pub mod bits;
pub mod conditions;
pub mod decimals;
pub mod double_shifts;
pub mod laws;
pub mod one_operand;
pub mod products;
pub mod quotients;
pub mod scans;
pub mod shifts;
pub mod status;

pub use arithmetic::{AluOp, alu};
pub use bits::{BitOp, bit};
pub use conditions::condition;
pub use decimals::{BcdOp, bcd};
pub use double_shifts::double_shift;
pub use one_operand::{UnOp, unary};
pub use products::mul;
pub use quotients::{DivFault, div};
pub use scans::{ScanOp, scan};
pub use shifts::{ShiftOp, shift};
pub use status::{Status, flag, status_of, with_status, with_zero};

#[cfg(test)]
mod tests;
