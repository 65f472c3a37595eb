//! Arithmetic and logic: the rows of the instruction table that compute from general registers, status
//! flags and operands in memory.
//!
//! Each row stands beside its definition: that of `alu` in `specs/Alu.antt`, and so on.
#![tactic(auto)]

mod alu;
mod bit;
mod decimal;
mod exchange;
pub mod laws;
mod multiply;
mod rows;
mod shift;
mod sized;
#[cfg(test)]
mod tests;
mod unary;

pub use laws::{rows_change_states_calmly, rows_keep_states_valid, rows_take_little};
pub use rows::{exec, exec_at_once, exec_into, is_row};
