//! What a call answers, by number.

pub(crate) const OK: u32 = 0;

/// There is no machine in the struct.
pub(crate) const NO_MACHINE: u32 = 1;

/// There is a machine in the struct already.
pub(crate) const HAS_MACHINE: u32 = 2;

/// Memory was refused.
pub(crate) const NO_MEMORY: u32 = 3;

/// A region of RAM isn't some whole pages below 2^40, behind the region before it.
pub(crate) const BAD_REGION: u32 = 4;

/// More than 16 regions, or more than 16 MiB in all.
pub(crate) const TOO_LARGE: u32 = 5;

/// The registers break a rule of a valid state.
pub(crate) const BAD_CPU: u32 = 6;

/// An access awaits its answer.
pub(crate) const AWAITING: u32 = 7;

/// A byte isn't RAM.
pub(crate) const NOT_RAM: u32 = 8;

/// No access awaits an answer.
pub(crate) const NOT_ASKED: u32 = 9;

/// The access has its answer already.
pub(crate) const ANSWERED: u32 = 10;

/// The answer is too large for the access, or is none where there is always one.
pub(crate) const BAD_ANSWER: u32 = 11;

/// No intercept has this number.
pub(crate) const BAD_NAME: u32 = 12;

/// The lowest port is above the highest.
pub(crate) const BAD_RANGE: u32 = 13;

/// The list of MSRs is full.
pub(crate) const FULL: u32 = 14;

/// A run of no step.
pub(crate) const BAD_BATCH: u32 = 15;

/// No access has this number.
pub(crate) const BAD_INDEX: u32 = 16;
