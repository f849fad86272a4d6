//! What each command on the contents of files asks, and how it goes on at a reply: its states, and its rules as functions. The rules of a
//! command stand in a file of `specs` with its name.
#![tactic(auto)]

mod gathered;
mod putting;
mod reading;
mod spread;
mod states;

pub use gathered::Gathered;
pub use putting::{Putting, Sealing};
pub use reading::{Fetching, Reading, placed_chunks};
pub use spread::Spread;
pub use states::{Append, Appending, Blocks, Open, Read};
