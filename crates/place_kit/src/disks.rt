use crate::machine::Machine;
use disk_store::Disk;
use store_rules::{DiskReply, DiskReq, Outcome};
use tect_calls::{AnyReply, AnyReq};
use tect_ids::{Layer, NoMemory};

impl Machine for Disk {
    ghost use Rattle.std.specs.Prelude.{false};
    ghost use Rattle.std.specs.FinMap.{empty};
    ghost use Rattle.store_rules.specs.declared.any.AnyReq.TheVariants.{Disk as disk_req};
    ghost use Rattle.store_rules.specs.declared.any.AnyReply.TheVariants.{Disk as disk_reply};
    ghost use Rattle.place_kit.specs.Machines.{disk_after, disk_replies, disk_alters, disk_leaves, disk_is_free};
    ghost use Rattle.tect_ids.specs.declared.ids.Layer.TheVariants as layers;

    type Req = DiskReq;

    type Reply = DiskReply;

    ghost layer = { layers.Disks };

    ghost wide = { disk_req };

    ghost wide_reply = { disk_reply };

    ghost after = { disk_after };

    ghost answer = { disk_replies };

    ghost alters = { disk_alters };

    ghost opening = { λ rooted. empty };

    ghost rooted = { λ s. false };

    ghost is_free = { λ s. disk_is_free };

    ghost leaves = { disk_leaves };

    fn layer() -> Layer {
        Layer::Disks
    }

    // No directory stands on a disk.
    fn has_root(&self) -> bool {
        let _disk = self;
        false
    }

    fn decide(&self, req: &DiskReq) -> Result<Outcome<DiskReply>, NoMemory> {
        Disk::decide(self, req)
    }

    fn apply(&mut self, req: &DiskReq) -> Result<(), NoMemory> {
        Disk::apply(self, req)
    }

    fn own(req: DiskReq) -> AnyReq {
        AnyReq::Disk(req)
    }

    fn copy_req(req: &DiskReq) -> Result<AnyReq, NoMemory> {
        Ok(AnyReq::Disk(req.clone()?))
    }

    fn copy_reply(reply: &DiskReply) -> Result<AnyReply, NoMemory> {
        Ok(AnyReply::Disk(reply.clone()?))
    }
}
