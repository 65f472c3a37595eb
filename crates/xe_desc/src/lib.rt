//! Segment registers, descriptor tables, and what programs may ask of descriptors: the rows of the instruction
//! table that read a descriptor and don't change the flow of control.
//!
//! Each row stands beside its definition: that of `load` in `specs/Load.antt`, and so on.
#![tactic(auto)]

pub mod descriptor_table;
pub mod laws;
mod load;
mod query;
mod rows;
mod task;
#[cfg(test)]
mod tests;

pub use laws::{
    descriptors_take_little, queries_change_states_calmly, rows_change_segments_at_most,
    rows_keep_states_valid, rows_take_little,
};
pub use rows::{exec, exec_into, is_row};
