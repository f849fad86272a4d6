ghost use Rattle.std.specs.Prelude.{◌≡◌, IfOk, OnOk, OnErr};
ghost use Rattle.store_rules.specs.Alone.{opening_of, request_layer};
ghost use Rattle.store_rules.specs.Dumps.{store_dump};
ghost use Rattle.store_rules.specs.Store.{store_reply, store_step};
ghost use Rattle.layers.specs.Machines.{alone, layer_of, lent_as};

use crate::lent::LentMachine;
use block_shard::BlockShard;
use disk_store::Disk;
use file_shard::FileShard;
use name_shard::NameShard;
use std::alloc::Global;
use store_rules::{AnyReply, AnyReq};
use tect_ids::{DumpLine, Layer, NoMemory};

/// All layers, in the order in which a dump shows them.
pub const LAYERS: [Layer; 4] = [Layer::Names, Layer::Files, Layer::Blocks, Layer::Disks];

/// A shard of any layer; one of the Disk layer is a disk.
#[derive(Drop)]
pub enum AnyMachine {
    Name(NameShard),
    File(FileShard),
    Block(BlockShard),
    Disk(Disk),
}

impl AnyMachine {
    /// A shard of a layer before anything was done. Only a name shard can have the root directory; else there is nothing in it,
    /// and it takes no memory.
    pub fn opening(alloc: Global, layer: Layer, rooted: bool) -> Result<AnyMachine, NoMemory>
        ensures state { IfOk result (λ machine. alone machine ≡ opening_of layer rooted) }
        ensures layer { IfOk result (λ machine. layer_of machine ≡ layer) }
    {
        match layer {
            Layer::Names => Ok(AnyMachine::Name(NameShard::new(alloc, rooted)?)),
            Layer::Files => Ok(AnyMachine::File(FileShard::new(alloc))),
            Layer::Blocks => Ok(AnyMachine::Block(BlockShard::new(alloc))),
            Layer::Disks => Ok(AnyMachine::Disk(Disk::new(alloc))),
        }
    }

    /// What `step` would reply to a request of the shard's layer. It changes nothing.
    pub fn reply(&self, req: &AnyReq) -> Result<AnyReply, NoMemory>
        requires { layer_of self.now ≡ request_layer req.now }
        ensures { IfOk result (λ reply. reply ≡ store_reply (alone self.now) req.now) }
    {
        match (self, req) {
            (AnyMachine::Name(shard), AnyReq::Name(req)) => Ok(AnyReply::Name(shard.reply(req)?)),
            (AnyMachine::File(shard), AnyReq::File(req)) => Ok(AnyReply::File(shard.reply(req)?)),
            (AnyMachine::Block(shard), AnyReq::Block(req)) => {
                Ok(AnyReply::Block(shard.reply(req)?))
            }
            (AnyMachine::Disk(disk), AnyReq::Disk(req)) => Ok(AnyReply::Disk(disk.reply(req)?)),
            _ => unreachable!(),
        }
    }

    /// Answers a request of the shard's layer by its rule, and makes the rule's change where it is not refused.
    ///
    /// A refusal is an answer like others, and changes nothing. Nor does want of memory.
    pub fn step(&mut self, req: &AnyReq) -> Result<AnyReply, NoMemory>
        requires { layer_of self.old ≡ request_layer req.now }
        ensures answers { IfOk result (λ reply. reply ≡ store_reply (alone self.old) req.now) }
        ensures steps { OnOk result (alone self.new ≡ store_step (alone self.old) req.now) }
        ensures layer { layer_of self.new ≡ layer_of self.old }
        ensures err { OnErr result (self.new ≡ self.old) }
    {
        match (self, req) {
            (AnyMachine::Name(shard), AnyReq::Name(req)) => Ok(AnyReply::Name(shard.step(req)?)),
            (AnyMachine::File(shard), AnyReq::File(req)) => Ok(AnyReply::File(shard.step(req)?)),
            (AnyMachine::Block(shard), AnyReq::Block(req)) => {
                Ok(AnyReply::Block(shard.step(req)?))
            }
            (AnyMachine::Disk(disk), AnyReq::Disk(req)) => Ok(AnyReply::Disk(disk.step(req)?)),
            _ => unreachable!(),
        }
    }

    /// The lines that a dump shows of the shard.
    pub fn dump(&self) -> Result<Vec<DumpLine>, NoMemory>
        ensures { IfOk result (λ lines. lines.items ≡ store_dump (alone self.now)) }
    {
        match self {
            AnyMachine::Name(shard) => shard.dump(),
            AnyMachine::File(shard) => shard.dump(),
            AnyMachine::Block(shard) => shard.dump(),
            AnyMachine::Disk(disk) => disk.dump(),
        }
    }

    /// The shard, lent. It takes no memory.
    pub fn lend(&self) -> LentMachine<'_>
        ensures { lent_as result ≡ self.now }
    {
        match self {
            AnyMachine::Name(shard) => LentMachine::Name(shard),
            AnyMachine::File(shard) => LentMachine::File(shard),
            AnyMachine::Block(shard) => LentMachine::Block(shard),
            AnyMachine::Disk(disk) => LentMachine::Disk(disk),
        }
    }
}
