//! Page walks: from a linear address to a physical one, through the guest's page tables.
//!
//! [`translate`] walks the tables of 32-bit paging, PAE paging and 4-level paging (SDM volume 3,
//! "Paging") over any [`Phys`], which tells the RAM as it is seen now. Nothing is cached and nothing is
//! written: the accessed and dirty bits are the caller's, who is told every entry that was used.
#![tactic(auto)]

pub mod entry;
pub mod format;
pub mod laws;
pub mod rights;
pub mod walk;

pub use entry::{Phys, Used};
pub use format::{Level, levels};
pub use rights::{Kind, Why, limiting};
pub use walk::{Hit, WalkStop, translate};

#[cfg(test)]
mod tests;
