//! Ports, control registers, descriptor table registers, model-specific registers and CPUID: the rows of
//! the instruction table that work on the system.
//!
//! Each row stands beside its definition: that of `port` in `specs/Port.antt`, and so on.
#![tactic(auto)]

mod control;
mod cpuid;
pub mod laws;
mod msr;
mod plain;
mod port;
mod rows;
mod table;
#[cfg(test)]
mod tests;

pub use laws::{
    privileged_rows_need_level_0, rows_change_states_calmly, rows_keep_states_valid,
    rows_take_little,
};
pub use rows::{exec, exec_into, is_row};
