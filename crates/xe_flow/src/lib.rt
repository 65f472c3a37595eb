//! Stack, frames, flags on the stack, near branches, loops and software interrupts.
//!
//! Each row stands beside its definition: that of `branch` in `specs/Branch.antt`, and so on.
#![tactic(auto)]

mod branch;
pub mod flags;
mod frame;
mod interrupt;
pub mod laws;
mod repeat;
mod rows;
mod stack;
#[cfg(test)]
mod tests;

pub use laws::{rows_change_states_calmly, rows_keep_states_valid, rows_take_little};
pub use rows::{exec, exec_at_once, exec_into, is_row};
