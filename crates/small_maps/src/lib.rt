//! Small finite maps, each in one sorted vector: the holds that an object lists, the cancels that it keeps, and the rows
//! of a block.
#![tactic(auto)]

mod block_rows;
mod cancels;
mod holds;

pub use block_rows::BlockRows;
pub use cancels::Cancels;
pub use holds::HoldList;
