//! Reading scripts: the lines one by one, how each is read and how it is written; and a whole script, from its bytes to a plan
//! or to the first fault.
#![tactic(auto)]

mod acts;
mod clients;
mod commands;
mod faults;
mod lines;
mod script;
mod spelling;
mod takes;

pub use script::read_script;
pub use spelling::write_line;
