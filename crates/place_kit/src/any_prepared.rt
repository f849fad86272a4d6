ghost use Rattle.std.specs.Prelude.{◌≡◌, ◌<◌, ◌≤◌, IfOk, OnOk, OnErr};
ghost use Rattle.passes.specs.Commits.{spare_of};
ghost use Rattle.place_kit.specs.Asked.{asked_in, spare_before, IsReady};

use crate::prepared::Prepared;
use block_shard::BlockShard;
use disk_store::Disk;
use file_shard::FileShard;
use name_shard::NameShard;
use passes::Pass;
use tect_calls::AnyReq;
use tect_ids::NoMemory;

/// A request of any layer before its machine is at hand, and what the entry in the pass needs of it.
#[derive(Drop)]
pub enum AnyPrepared {
    Name(Prepared<NameShard>),
    File(Prepared<FileShard>),
    Block(Prepared<BlockShard>),
    Disk(Prepared<Disk>),
}

impl AnyPrepared {
    /// Copies the request, and makes sure room for its entry in the pass. It may be refused for want of memory. Then the pass is
    /// as it was.
    pub fn new(pass: &mut Pass, req: AnyReq) -> Result<AnyPrepared, NoMemory>
        ensures ready { IfOk result (λ p. IsReady p × (asked_in p ≡ req) × (spare_before p ≡ spare_of pass.old)) }
        ensures room { OnOk result (0 < spare_of pass.new) }
        ensures keeps { spare_of pass.old ≤ spare_of pass.new }
        ensures moments { pass.new.moments.items ≡ pass.old.moments.items }
        ensures same { (pass.new.actor ≡ pass.old.actor) × (pass.new.clock ≡ pass.old.clock) × (pass.new.steps ≡ pass.old.steps)
            × (pass.new.bytes ≡ pass.old.bytes) × (pass.new.running ≡ pass.old.running) }
        ensures enough { 0 < spare_of pass.old → pass.new ≡ pass.old }
        ensures err { OnErr result (pass.new ≡ pass.old) }
    {
        match req {
            AnyReq::Name(req) => Ok(AnyPrepared::Name(Prepared::new(pass, req)?)),
            AnyReq::File(req) => Ok(AnyPrepared::File(Prepared::new(pass, req)?)),
            AnyReq::Block(req) => Ok(AnyPrepared::Block(Prepared::new(pass, req)?)),
            AnyReq::Disk(req) => Ok(AnyPrepared::Disk(Prepared::new(pass, req)?)),
        }
    }

    /// The sure room of the pass before. It takes no memory.
    pub fn spare(&self) -> usize
        ensures { result ≡ spare_before self.now }
    {
        match self {
            AnyPrepared::Name(prepared) => prepared.spare(),
            AnyPrepared::File(prepared) => prepared.spare(),
            AnyPrepared::Block(prepared) => prepared.spare(),
            AnyPrepared::Disk(prepared) => prepared.spare(),
        }
    }
}
