//! Requests whose needs were shown: a request is made only by its builder, which is shown the tokens that the request needs,
//! and each reply teaches the tokens that later requests need.
#![tactic(auto)]

mod asked;
mod block_requests;
mod disk_requests;
mod file_requests;
mod name_requests;
mod places;
mod readings;
mod teaching;
mod tokens;

pub use asked::Asked;
pub use block_requests::{block_get_block, block_make_block, block_release, block_seal_block};
pub use disk_requests::{disk_get, disk_put};
pub use file_requests::{
    file_attach, file_grant, file_list_blocks, file_make_file, file_release, file_seal_file,
    file_take_token,
};
pub use name_requests::{
    name_bind, name_check_dir, name_grant, name_list, name_look, name_make_dir, name_release,
    name_seal_dir, name_swap, name_unbind,
};
pub use places::place;
pub use readings::{
    attached, block_made, block_sealed, bound, found_dir, got, granted_hold, location, made_hold,
    opened, stored, swapped, unbound,
};
pub use store_rules::{AnyReply, AnyReq};
pub use teaching::{Learned, learn};
pub use tokens::{
    BlockMade, BlockSealed, Fact, Freed, Granted, GrantedRow, Made, MadeDir, MadeFile, RowMade,
    Spent, Stored,
};
