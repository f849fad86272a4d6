//! Runs of many actors over one store, as lists of events: what may happen, what a report shows of it, and what is claimed
//! of each run.
#![tactic(auto)]

mod event;

pub use event::{Event, Happening};
