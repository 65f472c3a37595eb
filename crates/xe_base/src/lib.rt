//! The plain data that every part of the emulator speaks of: the processor's registers with the
//! rules of a valid state, device accesses and their answers, faults, and words of a width.
#![tactic(auto)]

pub mod access;
pub mod cpu;
pub mod laws;
pub mod little_endian;
pub mod register;
pub mod segment;
pub mod word;

pub use access::{
    Access, Answer, DIVIDE_ERROR, Fault, GENERAL_PROTECTION, INVALID_OPCODE, Made, NoMemory,
    PAGE_FAULT, SEGMENT_NOT_PRESENT, STACK_FAULT, Space,
};
pub use cpu::{BadState, CodeSize, Cpu, Mode};
pub use little_endian::number_of_8;
pub use segment::{Seg, SegName, Table};
pub use word::Word;

#[cfg(test)]
mod tests;
