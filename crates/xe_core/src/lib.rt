//! Turns of a machine: fetch, decode, the rows of all crates, and what a call reports.
#![tactic(auto)]

pub mod call;
mod fetch;
pub mod laws;
mod rows;

pub use call::{emulate, emulate_into, emulate_with_draft};

#[cfg(test)]
mod tests;
