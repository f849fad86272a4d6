ghost use Rattle.std.specs.Prelude.{◌≡◌, is_some};
ghost use Rattle.store_rules.specs.Views.{as_parent};

use crate::machine::Machine;
use name_shard::NameShard;
use store_rules::{NameReply, NameReq, Outcome};
use tect_calls::{AnyReply, AnyReq};
use tect_ids::{Layer, NoMemory, ROOT};

impl Machine for NameShard {
    ghost use Rattle.store_rules.specs.declared.any.AnyReq.TheVariants.{Name};
    ghost use Rattle.store_rules.specs.declared.any.AnyReply.TheVariants.{Name as name_reply};
    ghost use Rattle.place_kit.specs.Machines.{name_after, name_replies, name_alters, name_leaves};
    ghost use Rattle.place_kit.specs.Machines.{name_opening, has_root, name_is_free};
    ghost use Rattle.tect_ids.specs.declared.ids.Layer.TheVariants as layers;

    type Req = NameReq;

    type Reply = NameReply;

    ghost layer = { layers.Names };

    ghost wide = { Name };

    ghost wide_reply = { name_reply };

    ghost after = { name_after };

    ghost answer = { name_replies };

    ghost alters = { name_alters };

    ghost opening = { name_opening };

    ghost rooted = { has_root };

    ghost is_free = { λ s. name_is_free };

    ghost leaves = { name_leaves };

    fn layer() -> Layer {
        Layer::Names
    }

    fn has_root(&self) -> bool {
        match NameShard::reply(self, &NameReq::CheckDir { dir: ROOT }) {
            Ok(reply) => is_dir(&reply),
            Err(NoMemory) => false,
        }
    }

    fn decide(&self, req: &NameReq) -> Result<Outcome<NameReply>, NoMemory> {
        NameShard::decide(self, req)
    }

    fn apply(&mut self, req: &NameReq) -> Result<(), NoMemory> {
        NameShard::apply(self, req)
    }

    fn own(req: NameReq) -> AnyReq {
        AnyReq::Name(req)
    }

    // A clone may want memory. So requests and replies that hold no name are made anew, and the others are cloned.
    fn copy_req(req: &NameReq) -> Result<AnyReq, NoMemory> {
        match *req {
            NameReq::CheckDir { dir } => Ok(AnyReq::Name(NameReq::CheckDir { dir })),
            NameReq::Release { dir, hold } => Ok(AnyReq::Name(NameReq::Release { dir, hold })),
            NameReq::SealDir { dir } => Ok(AnyReq::Name(NameReq::SealDir { dir })),
            _ => Ok(AnyReq::Name(req.clone()?)),
        }
    }

    fn copy_reply(reply: &NameReply) -> Result<AnyReply, NoMemory> {
        match *reply {
            NameReply::DirIs { parent, sealed } => {
                Ok(AnyReply::Name(NameReply::DirIs { parent, sealed }))
            }
            NameReply::Refused { why } => Ok(AnyReply::Name(NameReply::Refused { why })),
            NameReply::Released { was } => Ok(AnyReply::Name(NameReply::Released { was })),
            NameReply::SealedNow => Ok(AnyReply::Name(NameReply::SealedNow)),
            _ => Ok(AnyReply::Name(reply.clone()?)),
        }
    }
}

fn is_dir(reply: &NameReply) -> bool
    ensures { result ≡ is_some (as_parent (AnyReply.Name reply.now)) }
{
    matches!(reply, NameReply::DirIs { .. })
}
