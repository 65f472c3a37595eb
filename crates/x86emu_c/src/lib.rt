//! The face to C: `include/x86emu.h` declares the calls that stand here.
//!
//! A machine is a struct of 16 bytes in C's memory, with the pointer of a box that stays Rattle's. Each call on a machine begins by
//! taking the box out of C's struct, and ends by putting it back. The calls add nothing to the library but the mailbox: a bus that has
//! at most one answer, for the access that was asked.
#![tactic(auto)]

mod access;
mod calls;
mod create;
mod emulator;
mod handle;
mod held;
mod intercepts;
mod loose;
mod mailbox;
mod name;
mod obey;
mod registers;
mod report;
mod run;
mod status;
