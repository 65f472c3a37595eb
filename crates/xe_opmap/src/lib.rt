//! The opcode maps of x86, and the decoder: from bytes to an instruction of the table.
//!
//! `decode` is proved to be the grammar of `specs/Encoding.antt` over the lines of
//! `specs/Table.antt`; the laws of the encodings stand in `laws`.
#![tactic(auto)]

mod decoder;
mod form;
mod groups;
mod immediate;
mod insn;
mod judge;
pub mod known;
pub mod laws;
mod lookup;
mod names;
mod opcodes;
mod row;
mod sizes;
#[cfg(test)]
mod tests;

pub use decoder::decode;
pub use insn::{Decoded, Insn};
pub use known::Known;
pub use names::row_name;
pub use row::Row;
