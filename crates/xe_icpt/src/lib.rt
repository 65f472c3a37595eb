//! Intercepts: the exits that a hypervisor asks for, and the points of an instruction at which one
//! may be taken.
#![tactic(auto)]

pub mod exit;
pub mod intercepts;
pub mod point;
mod port_bitmap;
pub mod svm_name;
pub mod svm_set;
mod svm_table;

pub use exit::Exit;
pub use intercepts::{Intercepts, NoHits};
pub use point::{CrKind, Point, TableName};
pub use svm_name::SvmName;
pub use svm_set::{MsrPair, SvmSet};

#[cfg(test)]
mod tests;
