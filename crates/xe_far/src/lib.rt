//! Far calls, jumps and returns: the rows of the instruction table that load CS.
//!
//! Each step stands beside its definition: that of `transfer` in `specs/Transfer.antt`, and so on.
#![tactic(auto)]

mod code_segment;
pub mod laws;
mod outer;
mod pointer;
mod return_;
mod rows;
#[cfg(test)]
mod tests;
mod transfer;

pub use laws::{rows_keep_states_valid, rows_never_gain_privilege, rows_take_little};
pub use rows::{exec, exec_into, is_row};
