//! A replay: the lines of a script are played one after another over a new world on one thread, and the line of each
//! answer and dump is put to the sink as soon as it comes, by one piece, and `end` behind them.
//!
//! [`write_report`] writes the lines of a report that is there already.
#![tactic(auto)]

mod fault;
mod lines;
mod report;
mod script;
mod seat;
mod writing;

pub use fault::ReplayFault;
pub use report::write_report;
pub use script::replay;
