//! The outside: where bytes come from, where they go to, and the points of a run that a test may hold.
//!
//! A source and a sink tell a contract which bytes are left and which were taken, where they can, and
//! count their faults; `specs/Outside.antt` says what a read and a write mean. The sources and sinks
//! over memory are exact, and can be made to fail. The adapters over real streams tell what std's
//! reader and writer tell. That a file, a pipe or a terminal hands on every byte is trusted.
#![tactic(auto)]

mod gate;
mod meet_gate;
mod memory_sink;
mod memory_source;
mod sink;
mod source;
mod streams;
mod writing;

pub use gate::{Gate, OpenGate, Point};
pub use meet_gate::MeetGate;
pub use memory_sink::{FixedSink, MemSink};
pub use memory_source::{MemSource, SafeSource};
pub use sink::Sink;
pub use source::{Failed, Source};
pub use streams::{InputSource, OutputSink};
pub use writing::write_all;
