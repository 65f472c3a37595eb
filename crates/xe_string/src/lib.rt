//! String instructions, with their repeat prefixes and without: the rows of the instruction table that
//! work on one element after another.
//!
//! One step does one element. Each part stands beside its definition: that of `repeat` in
//! `specs/Repeat.antt`, and so on.
#![tactic(auto)]

mod compare;
mod element;
mod index;
pub mod laws;
mod port;
mod prefix;
mod repeat;
mod rows;
#[cfg(test)]
mod tests;
mod transfer;

pub use laws::{
    rows_change_states_calmly, rows_count_down, rows_keep_states_valid, rows_take_little,
};
pub use rows::{exec, exec_into, is_row};
