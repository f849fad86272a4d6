//! A client: an actor, which begins commands that run by their programs, one request at a time, with the pass that notes
//! what it does. The programs are any; its requests are committed wherever its caller says.
#![tactic(auto)]

mod actor;
mod client;
mod steps;

pub use actor::Actor;
pub use client::Client;
