use tect_ids::{BlkId, DiskId};

/// A disk and a block that has a row on it, in the order of the disks and then of the blocks.
#[derive(Clone, Copy, Debug, PartialEq, Eq, PartialOrd, Ord)]
pub struct DiskBlk {
    pub disk: DiskId,
    pub blk: BlkId,
}
