//! What each actor keeps of its own steps: a pass has its entries and notes in order, and says when there is room for no more. And
//! the trait of what requests are committed at.
//!
//! An entry goes into the history of a place first, and the receipt for it is all that a pass takes: so a pass has no entry that
//! was not given to a history.
#![tactic(auto)]

mod commits;
mod log;
mod pass;
mod receipt;

pub use commits::{Astray, Commits};
pub use log::Log;
pub use pass::{MOST_BYTES, MOST_MOMENTS, Pass};
pub use receipt::Receipt;
