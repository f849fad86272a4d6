//! The end of a race: what its clients and its places kept is gathered to one history, and told as a report.
#![tactic(auto)]

mod ended;
mod ending;
mod fault;
mod replay;
mod report;

pub use ended::EndedPart;
pub use ending::{Raced, finish};
pub use fault::RaceFault;
