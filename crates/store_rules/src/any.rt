use crate::blocks::{BlockReply, BlockReq};
use crate::disks::{DiskReply, DiskReq};
use crate::files::{FileReply, FileReq};
use crate::names::{NameReply, NameReq};

/// A request to a shard of any layer, or to a disk.
#[derive(Clone, Debug, PartialEq, Eq, Drop)]
pub enum AnyReq {
    Name(NameReq),
    File(FileReq),
    Block(BlockReq),
    Disk(DiskReq),
}

/// A reply of a shard of any layer, or of a disk.
#[derive(Clone, Debug, PartialEq, Eq, Drop)]
pub enum AnyReply {
    Name(NameReply),
    File(FileReply),
    Block(BlockReply),
    Disk(DiskReply),
}
