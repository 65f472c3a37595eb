//! Moves: the rows of the instruction table that bring numbers from one place to another, made wider or
//! under a condition, and those that set a flag by itself.
//!
//! Each row stands beside its definition: that of `moves` in `specs/Moves.antt`, and so on.
#![tactic(auto)]

mod condition;
mod extend;
mod flag;
pub mod laws;
mod moves;
mod rows;
pub mod source;
#[cfg(test)]
mod tests;

pub use laws::{rows_change_states_calmly, rows_keep_states_valid, rows_take_little};
pub use rows::{exec, exec_at_once, exec_into, is_row};
