use crate::machine::Machine;
use block_shard::BlockShard;
use store_rules::{BlockReply, BlockReq, Outcome};
use tect_calls::{AnyReply, AnyReq};
use tect_ids::{Layer, NoMemory};

impl Machine for BlockShard {
    ghost use Rattle.std.specs.Prelude.{false};
    ghost use Rattle.std.specs.FinMap.{empty};
    ghost use Rattle.store_rules.specs.declared.any.AnyReq.TheVariants.{Block};
    ghost use Rattle.store_rules.specs.declared.any.AnyReply.TheVariants.{Block as block_reply};
    ghost use Rattle.place_kit.specs.Machines.{block_after, block_replies, block_alters, block_leaves, block_is_free};
    ghost use Rattle.tect_ids.specs.declared.ids.Layer.TheVariants as layers;

    type Req = BlockReq;

    type Reply = BlockReply;

    ghost layer = { layers.Blocks };

    ghost wide = { Block };

    ghost wide_reply = { block_reply };

    ghost after = { block_after };

    ghost answer = { block_replies };

    ghost alters = { block_alters };

    ghost opening = { λ rooted. empty };

    ghost rooted = { λ s. false };

    ghost is_free = { λ s. block_is_free };

    ghost leaves = { block_leaves };

    fn layer() -> Layer {
        Layer::Blocks
    }

    // No directory stands in a block shard.
    fn has_root(&self) -> bool {
        let _shard = self;
        false
    }

    fn decide(&self, req: &BlockReq) -> Result<Outcome<BlockReply>, NoMemory> {
        BlockShard::decide(self, req)
    }

    fn apply(&mut self, req: &BlockReq) -> Result<(), NoMemory> {
        BlockShard::apply(self, req)
    }

    fn own(req: BlockReq) -> AnyReq {
        AnyReq::Block(req)
    }

    // A clone may want memory. So what belongs to requests that take none is made anew.
    fn copy_req(req: &BlockReq) -> Result<AnyReq, NoMemory> {
        match *req {
            BlockReq::SealBlock { blk } => Ok(AnyReq::Block(BlockReq::SealBlock { blk })),
            BlockReq::Release { blk, hold } => Ok(AnyReq::Block(BlockReq::Release { blk, hold })),
            _ => Ok(AnyReq::Block(req.clone()?)),
        }
    }

    fn copy_reply(reply: &BlockReply) -> Result<AnyReply, NoMemory> {
        match *reply {
            BlockReply::SealedNow => Ok(AnyReply::Block(BlockReply::SealedNow)),
            BlockReply::Sealed => Ok(AnyReply::Block(BlockReply::Sealed)),
            BlockReply::NoBlock => Ok(AnyReply::Block(BlockReply::NoBlock)),
            BlockReply::Released { was } => Ok(AnyReply::Block(BlockReply::Released { was })),
            _ => Ok(AnyReply::Block(reply.clone()?)),
        }
    }
}
