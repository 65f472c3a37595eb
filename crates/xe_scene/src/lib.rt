//! Scenario texts, and the devices that a scenario scripts.
#![tactic(auto)]

mod command;
pub mod laws;
mod names;
mod number;
mod queue;
mod reader;
mod reason;
mod script_bus;
mod text;
mod words;

pub use command::{Command, Commands, Dir, DtName, Item, RegName, Scene, SegReg};
pub use script_bus::ScriptBus;
pub use text::{SceneFault, TEXT_MOST, read_scene};

#[cfg(test)]
mod tests;
