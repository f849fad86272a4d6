//! The outside of the store: where bytes come from and go to, each with a count of faults, and what is told of the commits
//! of workers.
//!
//! A [`Source`] gives bytes and a [`Sink`] takes them. Each may tell contracts which bytes: a source those that
//! are left, a sink those that it took, be they written or held to be written. A `take` or `put` that fails moves no byte and
//! raises the count of faults. Where they are not told, contracts say nothing about them.
//!
//! | Type | What it is |
//! |---|---|
//! | [`BytesSource`], [`BytesSink`] | memory, with a list of the calls that fail |
//! | [`SureSource`], [`SureSink`] | memory, and no call fails |
//! | [`StdSource`], [`StdSink`] | a reader and a writer of std, with their failures counted; the sink gathers its pieces |
//!
//! A [`Gate`] is told of each commit of a race: [`OpenGate`] does nothing, and at [`MeetGate`] two workers are made to meet.
//!
//! [`read_input`] reads a whole input of at most a limit, and [`put_all`] writes a whole piece.
#![tactic(auto)]

mod gate;
mod meet_gate;
mod memory_sink;
mod memory_source;
mod reading;
mod sink;
mod source;
mod standard;
#[cfg(test)]
mod tests;
mod writing;

pub use gate::{Gate, OpenGate};
pub use meet_gate::MeetGate;
pub use memory_sink::{BytesSink, SureSink};
pub use memory_source::{BytesSource, SureSource};
pub use reading::{ReadFault, read_input};
pub use sink::Sink;
pub use source::{Failed, Source};
pub use standard::{StdSink, StdSource};
pub use writing::put_all;
