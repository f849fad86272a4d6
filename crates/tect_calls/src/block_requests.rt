ghost use Rattle.std.specs.Prelude.{◌≡◌, map};
ghost use Rattle.std.specs.List.{IsDistinct};
ghost use Rattle.tect_ids.specs.Keys.{disk_eq};
ghost use Rattle.tect_calls.specs.MadeBlocks.{chunks_of};

use crate::asked::Asked;
use crate::tokens::{BlockMade, Made, Spent, Stored};
use store_rules::{AnyReq, BlockReq};
use tect_ids::{BlkId, Class, FileId, Hold, Items, NewRow, Node};

// The request to a Block shard, all of whose tokens were shown.
fn block_asked(req: BlockReq) -> Asked
    ensures { result ≡ AnyReq.Block req }
{
    Asked {
        req: AnyReq::Block(req),
    }
}

/// Makes a block of `len` bytes, held for a row of a file that was made. Its own rows, on disks that differ, are not placed yet.
pub fn block_make_block(
    blk: BlkId,
    class: Class,
    len: u32,
    file: FileId,
    hold: Hold,
    rows: Items<NewRow>,
    upper: &Made,
) -> Asked
    requires upper { upper.now ≡ Node.File file }
    requires disks { IsDistinct disk_eq (map (λ row. row.disk) rows) }
    ensures { result ≡ AnyReq.Block (BlockReq.MakeBlock blk class len file hold rows) }
{
    block_asked(BlockReq::MakeBlock {
        blk,
        class,
        len,
        file,
        hold,
        rows,
    })
}

/// Seals a block, each of whose rows was stored: `stored` has one token of each, in the order of the rows.
pub fn block_seal_block(blk: BlkId, made: &BlockMade, stored: &[Stored]) -> Asked
    requires made { made.now.blk ≡ blk }
    requires stored { stored.now ≡ chunks_of made.now }
    ensures { result ≡ AnyReq.Block (BlockReq.SealBlock blk) }
{
    block_asked(BlockReq::SealBlock { blk })
}

/// Asks where a block lies.
pub fn block_get_block(blk: BlkId) -> Asked
    ensures { result ≡ AnyReq.Block (BlockReq.GetBlock blk) }
{
    block_asked(BlockReq::GetBlock { blk })
}

/// Releases a spent hold at a block.
pub fn block_release(blk: BlkId, hold: Hold, spent: &Spent) -> Asked
    requires { spent.now ≡ hold }
    ensures { result ≡ AnyReq.Block (BlockReq.Release blk hold) }
{
    block_asked(BlockReq::Release { blk, hold })
}
