//! Segments: descriptors, linear addresses, and the checks of accesses, of jump targets and of loads.
//!
//! A check is a handful of comparisons on machine words, in each mode of operation. What it answers
//! is a linear address or a loaded segment; or the exception that the processor raises.
#![tactic(auto)]

pub mod accesses;
pub mod attributes;
pub mod descriptor;
pub mod laws;
pub mod loads;
pub mod targets;

pub use accesses::{check_access, linear_address};
pub use descriptor::Descriptor;
pub use loads::check_load;
pub use targets::check_target;

#[cfg(test)]
mod tests;
