//! The guest's RAM: regions of whole pages with their bytes.
//!
//! A contract sees a [`GuestMem`] as the list of its areas, each a start and its bytes. Addresses
//! are guest physical ones. A call that names bytes has the condition that each of them is RAM;
//! [`GuestMem::is_ram`] tests it, and no bytes at all are RAM at every address. The bytes may go on
//! from one region into the next, where the two touch: there they count as one range.
#![tactic(auto)]

pub mod guest_mem;
mod moves;
pub mod region;
mod search;

pub use guest_mem::GuestMem;
pub use region::{MAX_BYTES, MAX_REGIONS, MemFault, Region};

#[cfg(test)]
mod tests;
