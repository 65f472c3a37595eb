//! The parts of an x86 instruction around its opcode: the prefixes before it, and the ModRM byte
//! with what belongs to it (SIB byte and displacement) after it.
#![tactic(auto)]

mod address;
pub mod laws;
mod modrm;
mod modrm_byte;
mod part;
mod prefix;
mod register;
mod sib_byte;
#[cfg(test)]
mod tests;

pub use address::{effective_offset, effective_segment};
pub use modrm::operand;
pub use modrm_byte::ModRmByte;
pub use part::{ModRm, Part, Prefixes};
pub use prefix::prefixes;
