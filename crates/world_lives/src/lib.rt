//! What is seen of a world: its counts and its history; the order in which all was done, by marks of whose event came next; and what the
//! calls on one op make of it.
#![tactic(auto)]

mod marks;

pub use marks::{Mark, is_short, push_mark};
