//! From words and a scenario text to a trace and a status: the reading loop, the events of a scene,
//! their text, and the top call.
#![tactic(auto)]

mod access_text;
mod adapters;
mod batch;
mod changes;
mod driver;
mod end_text;
mod event;
mod event_lines;
mod line;
mod memory;
mod mode;
mod outside;
mod play;
mod print;
mod refusal;
mod registers;
mod shown;
mod status;
mod top;
mod turn;
mod whole_text;

pub use adapters::{ReaderSource, WriterSink};
pub use memory::{ListSource, SteadySource, VecSink};
pub use outside::{Failed, Sink, Source};
pub use status::Status;
pub use top::run;

#[cfg(test)]
mod tests;
