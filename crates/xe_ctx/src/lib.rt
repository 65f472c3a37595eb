//! One step in progress over a machine, its devices and what is intercepted; and the types that all
//! instructions share.
#![tactic(auto)]

mod at_once;
pub mod bus;
mod chunk;
pub mod ctx;
mod devices;
mod fetch;
pub mod laws;
pub mod machine;
mod memory;
pub mod operand;
mod overlay;
pub mod ports;
pub mod privilege;
pub mod record;
pub mod report;
mod run;
pub mod stack;
pub mod stop;
mod translate;

pub use bus::{Bus, Reply};
pub use ctx::Ctx;
pub use machine::{Machine, NotRam};
pub use operand::Operand;
pub use record::Record;
pub use report::{Outcome, Report};
pub use stop::{Diverged, End, Event, EventKind, Finish, Flow, Handoff, Stop};

#[cfg(test)]
mod fetch_tests;
#[cfg(test)]
mod tests;
