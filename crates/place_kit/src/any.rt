ghost use Rattle.std.specs.Prelude.{◌≡◌, ◌<◌, ◌≤◌, ◌^◌, [], IfOk, OnOk, OnErr, IsOk, ◌↔◌};
ghost use Rattle.tect_ids.specs.Places.{HasPlaces, place_count};
ghost use Rattle.store_rules.specs.Alone.{opening_of, request_layer};
ghost use Rattle.layers.specs.Machines.{lent_as};
ghost use Rattle.entry_words.specs.Labels.{label_at};
ghost use Rattle.passes.specs.Commits.{IsFull};

use crate::any_prepared::AnyPrepared;
use crate::kept::Kept;
use block_shard::BlockShard;
use disk_store::Disk;
use entry_words::{Entry, Label, Refused, label_at};
use file_shard::FileShard;
use layers::LentMachine;
use name_shard::NameShard;
use passes::{Pass, Receipt};
use std::alloc::Global;
use tect_calls::{AnyReply, AnyReq};
use tect_ids::{Counts, Layer, NoMemory, Place};

/// A kept machine of any layer.
#[derive(Drop)]
pub enum AnyKept {
    Name(Kept<NameShard>),
    File(Kept<FileShard>),
    Block(Kept<BlockShard>),
    Disk(Kept<Disk>),
}

impl AnyKept {
    ghost use Rattle.place_kit.specs.Kept.{history_of, label_of, machine_in, machine_of};
    ghost use Rattle.place_kit.specs.Kept.{spare_of as spare_of_kept};
    ghost use Rattle.place_kit.specs.Committing.{AnyCommitted, AnyServed};
    ghost use Rattle.place_kit.specs.Asked.{asked_in, IsReady};

    /// The shard or disk with which a place opens, with nothing done, where each layer has 1 to 64.
    #[tactic(auto, using(crate::proofs::AllKinds::not_rooted))]
    pub fn start(alloc: Global, counts: &Counts, place: Place) -> Result<AnyKept, NoMemory>
        requires places { HasPlaces counts.now }
        requires within { place.0 < place_count counts.now }
        ensures label { IfOk result (λ kept. label_of kept ≡ label_at counts.now place.0) }
        ensures state { IfOk result
            (λ kept. machine_of kept ≡ opening_of (label_at counts.now place.0).layer (label_at counts.now place.0).rooted) }
        ensures history { IfOk result (λ kept. history_of kept ≡ []) }
    {
        let label = label_at(counts, place);
        match label.layer {
            Layer::Names => Ok(AnyKept::Name(Kept::open_names(alloc, place, label.rooted)?)),
            Layer::Files => Ok(AnyKept::File(Kept::open_files(alloc, place))),
            Layer::Blocks => Ok(AnyKept::Block(Kept::open_blocks(alloc, place))),
            Layer::Disks => Ok(AnyKept::Disk(Kept::open_disk(alloc, place))),
        }
    }

    /// Which machine it is. It takes no memory.
    pub fn label(&self) -> Label
        ensures { result ≡ label_of self.now }
    {
        match self {
            AnyKept::Name(kept) => kept.label(),
            AnyKept::File(kept) => kept.label(),
            AnyKept::Block(kept) => kept.label(),
            AnyKept::Disk(kept) => kept.label(),
        }
    }

    /// The entries, in the order of their stamps. It takes no memory.
    pub fn history(&self) -> &[Entry]
        ensures { result.now ≡ history_of self.now }
    {
        match self {
            AnyKept::Name(kept) => kept.history(),
            AnyKept::File(kept) => kept.history(),
            AnyKept::Block(kept) => kept.history(),
            AnyKept::Disk(kept) => kept.history(),
        }
    }

    /// The machine as it is now, lent. It takes no memory.
    pub fn machine(&self) -> LentMachine<'_>
        ensures { lent_as result ≡ machine_in self.now }
    {
        match self {
            AnyKept::Name(kept) => LentMachine::Name(kept.machine()),
            AnyKept::File(kept) => LentMachine::File(kept.machine()),
            AnyKept::Block(kept) => LentMachine::Block(kept.machine()),
            AnyKept::Disk(kept) => LentMachine::Disk(kept.machine()),
        }
    }

    /// For how many commits there is sure room. It takes no memory.
    pub fn spare(&self) -> usize
        ensures { result ≡ spare_of_kept self.now }
    {
        match self {
            AnyKept::Name(kept) => kept.spare(),
            AnyKept::File(kept) => kept.spare(),
            AnyKept::Block(kept) => kept.spare(),
            AnyKept::Disk(kept) => kept.spare(),
        }
    }

    /// Does one transaction of its layer, as the store does in which it stands alone, and adds one and the same entry to the history
    /// and to the pass, stamped above both clocks.
    ///
    /// It is refused as full exactly where the pass is; else it may be refused for want of memory. A refusal changes neither.
    #[tactic(auto, using(crate::proofs::AllKinds::committed))]
    pub fn commit(&mut self, pass: &mut Pass, req: AnyReq) -> Result<AnyReply, Refused>
        requires { (label_of self.old).layer ≡ request_layer req }
        ensures done { IfOk result (AnyCommitted self.old self.new pass.old pass.new req) }
        ensures full { (result ≡ Err (Refused.HistoryFull (label_of self.old).place)) ↔ IsFull pass.old }
        ensures memory { OnErr result (¬ IsFull pass.old → result ≡ Err Refused.NoMemory) }
        ensures err { OnErr result ((self.new ≡ self.old) × (pass.new ≡ pass.old)) }
    {
        match (self, req) {
            (AnyKept::Name(kept), AnyReq::Name(req)) => match kept.commit(pass, req) {
                Ok(reply) => Ok(AnyReply::Name(reply)),
                Err(refused) => Err(refused),
            },
            (AnyKept::File(kept), AnyReq::File(req)) => match kept.commit(pass, req) {
                Ok(reply) => Ok(AnyReply::File(reply)),
                Err(refused) => Err(refused),
            },
            (AnyKept::Block(kept), AnyReq::Block(req)) => match kept.commit(pass, req) {
                Ok(reply) => Ok(AnyReply::Block(reply)),
                Err(refused) => Err(refused),
            },
            (AnyKept::Disk(kept), AnyReq::Disk(req)) => match kept.commit(pass, req) {
                Ok(reply) => Ok(AnyReply::Disk(reply)),
                Err(refused) => Err(refused),
            },
            _ => unreachable!(),
        }
    }

    /// The part of a commit for which the machine is needed: does the transaction, and adds its entry to the history, stamped
    /// above both clocks. This is the atomic step of a commit, the part that is done under the place's lock where it has one.
    /// Beside the reply it gives the receipt of the history, with which the same entry goes into the pass, and nothing else can.
    ///
    /// It may be refused for want of memory. Then nothing is changed.
    #[tactic(auto, using(crate::proofs::AllKinds::served))]
    pub fn serve(
        &mut self,
        pass: &Pass,
        prepared: AnyPrepared,
    ) -> Result<(AnyReply, Receipt), NoMemory>
        requires layer { (label_of self.old).layer ≡ request_layer (asked_in prepared) }
        requires ready { IsReady prepared }
        requires early { pass.now.clock < 2 ^ 63 }
        ensures done { IfOk result (λ r. AnyServed self.old self.new pass.now (asked_in prepared) r.0 r.1) }
        ensures err { OnErr result (self.new ≡ self.old) }
    {
        match (self, prepared) {
            (AnyKept::Name(kept), AnyPrepared::Name(prepared)) => {
                let (reply, receipt) = kept.serve(pass, prepared)?;
                Ok((AnyReply::Name(reply), receipt))
            }
            (AnyKept::File(kept), AnyPrepared::File(prepared)) => {
                let (reply, receipt) = kept.serve(pass, prepared)?;
                Ok((AnyReply::File(reply), receipt))
            }
            (AnyKept::Block(kept), AnyPrepared::Block(prepared)) => {
                let (reply, receipt) = kept.serve(pass, prepared)?;
                Ok((AnyReply::Block(reply), receipt))
            }
            (AnyKept::Disk(kept), AnyPrepared::Disk(prepared)) => {
                let (reply, receipt) = kept.serve(pass, prepared)?;
                Ok((AnyReply::Disk(reply), receipt))
            }
            _ => unreachable!(),
        }
    }
}
