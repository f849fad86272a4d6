ghost use Rattle.std.specs.Prelude.{◌≡◌, IfOk, option_map};
ghost use Rattle.std.specs.FinMap.{len, get, keys};
ghost use Rattle.store_rules.specs.Dumps.{block_line, blocks_dump};

use crate::shard::BlockShard;
use store_rules::Block;
use tect_ids::{BlkId, DumpLine, NoMemory};

impl BlockShard {
    /// The lines that a dump shows: one of each block, by identifier.
    pub fn dump(&self) -> Result<Vec<DumpLine>, NoMemory>
        ensures { IfOk result (λ lines. lines.items ≡ blocks_dump self.now) }
    {
        let mut lines = Vec::new(self.alloc);
        for (blk, block) in self.blocks.iter() {
            lines.push(block_line(*blk, block)?)?;
        }
        Ok(lines)
    }

    /// The blocks that the shard has, in the order of their identifiers.
    pub fn blocks(&self) -> Result<Vec<BlkId>, NoMemory>
        ensures { IfOk result (λ blocks. blocks.items ≡ keys self.now) }
    {
        let mut blocks = Vec::with_capacity(self.alloc, self.blocks.len())?;
        for (blk, _block) in self.blocks.iter() {
            blocks.push(*blk)?;
        }
        Ok(blocks)
    }

    /// The line that a dump shows of one block. None where the shard does not have it.
    pub fn dump_one(&self, blk: BlkId) -> Result<Option<DumpLine>, NoMemory>
        ensures { IfOk result (λ line. line ≡ option_map (λ block. block_line (blk, block)) (get self.now blk)) }
    {
        match self.blocks.get(blk) {
            None => Ok(None),
            Some(block) => Ok(Some(block_line(blk, block)?)),
        }
    }
}

fn block_line(blk: BlkId, block: &Block) -> Result<DumpLine, NoMemory>
    ensures { IfOk result (λ line. line ≡ block_line (blk, block.now)) }
{
    Ok(DumpLine::Block {
        blk,
        len: block.len,
        version: block.version,
        // No memory has room for more rows or holds than that.
        rows: u32::try_from(block.rows.len()).or(Err(NoMemory))?,
        holds: u32::try_from(block.holds.len()).or(Err(NoMemory))?,
    })
}
