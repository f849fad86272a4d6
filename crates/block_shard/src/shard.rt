ghost use Rattle.std.specs.Prelude.{◌≡◌, true, IsTrue, IsOk, IfOk, OnOk, OnErr};
ghost use Rattle.std.specs.FinMap.{empty};
ghost use Rattle.block_maps.specs.DiskIndexes.{blks_left};
ghost use Rattle.store_rules.specs.Outcomes.{changes, reply};
ghost use Rattle.store_rules.specs.Blocks.{block_answer, block_change, block_rule, block_step};
ghost use Rattle.block_shard.specs.Index.{blocks_on};

use block_maps::{BlkMap, BlksOnDisk, DiskIndex};
use std::alloc::Global;
use std::marker::Model;
use store_rules::{Block, BlockReply, BlockReq, Outcome};
use tect_ids::{DiskId, NoMemory};

/// A shard of the Block layer: some of the blocks. Which of them have a row on which disk is also kept by disk.
#[derive(Drop)]
pub struct BlockShard {
    pub(crate) alloc: Global,
    pub(crate) blocks: BlkMap<Block>,
    pub(crate) index: DiskIndex,
}

impl Model for BlockShard {
    ghost use Rattle.store_rules.specs.Blocks.{Blocks};
    ghost use Rattle.block_shard.specs.Codes.{blocks_code};
    ghost use Rattle.block_shard.specs.Index.{IsIndexOf};

    ghost Value = { Blocks };

    ghost coded = { blocks_code };

    ghost view = { λ s. s.blocks };

    ghost invariant = { λ s. IsIndexOf s.index s.blocks };
}

impl BlockShard {
    /// A shard with no block. It takes no memory.
    pub fn new(alloc: Global) -> BlockShard
        ensures { result ≡ empty }
    {
        BlockShard {
            alloc,
            blocks: BlkMap::new(alloc),
            index: DiskIndex::new(alloc),
        }
    }

    /// Answers the request by its rule, and makes the rule's change where it is not refused.
    ///
    /// A refusal is an answer like others, and changes nothing. Nor does want of memory, which may come at any request but
    /// `SealBlock` and `Release`: these take none. Blocks are found in logarithmic time.
    pub fn step(&mut self, req: &BlockReq) -> Result<BlockReply, NoMemory>
        ensures answers { IfOk result (λ x. x ≡ reply (block_answer self.old req.now)) }
        ensures steps { OnOk result (self.new ≡ block_step self.old req.now) }
        ensures err { OnErr result (self.new ≡ self.old) }

        // What wants no memory is always answered.
        ensures sure { IsTrue (block_rule req.now).free → IsOk result }
    {
        let outcome = self.decide(req)?;
        if outcome.changes() {
            self.apply(req)?;
        }
        Ok(outcome.into_reply())
    }

    /// What `step` would answer. It changes nothing.
    pub fn reply(&self, req: &BlockReq) -> Result<BlockReply, NoMemory>
        ensures answers { IfOk result (λ x. x ≡ reply (block_answer self.now req.now)) }
        ensures sure { IsTrue (block_rule req.now).free → IsOk result }
    {
        Ok(self.decide(req)?.into_reply())
    }

    /// What `step` would answer, and whether it would change the shard. It changes nothing, and takes memory only for
    /// `GetBlock`.
    pub fn decide(&self, req: &BlockReq) -> Result<Outcome<BlockReply>, NoMemory>
        ensures answers { IfOk result (λ x. x ≡ block_answer self.now req.now) }
        ensures sure { IsTrue (block_rule req.now).free → IsOk result }
    {
        match req {
            BlockReq::MakeBlock { blk, .. } => Ok(self.make_block_outcome(*blk)),
            BlockReq::SealBlock { blk } => Ok(self.seal_block_outcome(*blk)),
            BlockReq::GetBlock { blk } => self.get_block(*blk),
            BlockReq::Grant { blk, .. } => Ok(self.grant_outcome(*blk)),
            BlockReq::Release { blk, hold } => Ok(self.release_outcome(*blk, *hold)),
        }
    }

    /// Makes the change of a request that was decided to change the shard. For want of memory nothing is changed; `SealBlock`
    /// and `Release` take none.
    pub fn apply(&mut self, req: &BlockReq) -> Result<(), NoMemory>
        requires { changes (block_answer self.old req.now) ≡ true }
        ensures ok { OnOk result (self.new ≡ block_change self.old req.now) }
        ensures err { OnErr result (self.new ≡ self.old) }
        ensures sure { IsTrue (block_rule req.now).free → IsOk result }
    {
        match req {
            BlockReq::MakeBlock {
                blk,
                class,
                len,
                file,
                hold,
                rows,
            } => {
                let block = self.new_block(*class, *len, *file, *hold, rows.as_slice())?;
                self.add_block(*blk, block, rows.as_slice())
            }
            BlockReq::SealBlock { blk } => {
                self.seal_block(*blk);
                Ok(())
            }
            BlockReq::GetBlock { .. } => Ok(()),
            BlockReq::Grant { blk, hold, file } => self.grant(*blk, *hold, *file),
            BlockReq::Release { blk, hold } => {
                self.release(*blk, *hold);
                Ok(())
            }
        }
    }

    /// Goes over the blocks that have a row on the disk, in the order of their identifiers. It takes no memory, and its time goes
    /// by these blocks alone but for a look-up.
    pub fn on_disk(&self, disk: DiskId) -> BlksOnDisk<'_>
        ensures { blks_left result ≡ blocks_on self.now disk }
    {
        self.index.on(disk)
    }
}
