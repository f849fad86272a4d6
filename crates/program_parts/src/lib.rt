//! Parts of commands, as functions over any states: in each state a part makes one request, and at the reply it goes on or has come to its
//! result. Two parts are shared by all commands that have them: the walk along a path, and the release of holds that can't be bound any
//! more. The one code here makes the answer of a refusal.
#![tactic(auto)]

mod next;
mod refusals;
mod releasing;
mod walking;

pub use next::Next;
pub use refusals::{dir_refused, refused};
pub use releasing::Releasing;
pub use walking::Walking;
