use crate::machine::Machine;
use file_shard::FileShard;
use store_rules::{FileReply, FileReq, Outcome};
use tect_calls::{AnyReply, AnyReq};
use tect_ids::{Layer, NoMemory};

impl Machine for FileShard {
    ghost use Rattle.std.specs.Prelude.{false};
    ghost use Rattle.std.specs.FinMap.{empty};
    ghost use Rattle.store_rules.specs.declared.any.AnyReq.TheVariants.{File};
    ghost use Rattle.store_rules.specs.declared.any.AnyReply.TheVariants.{File as file_reply};
    ghost use Rattle.place_kit.specs.Machines.{file_after, file_replies, file_alters, file_leaves, file_is_free};
    ghost use Rattle.tect_ids.specs.declared.ids.Layer.TheVariants as layers;

    type Req = FileReq;

    type Reply = FileReply;

    ghost layer = { layers.Files };

    ghost wide = { File };

    ghost wide_reply = { file_reply };

    ghost after = { file_after };

    ghost answer = { file_replies };

    ghost alters = { file_alters };

    ghost opening = { λ rooted. empty };

    ghost rooted = { λ s. false };

    ghost is_free = { λ s. file_is_free };

    ghost leaves = { file_leaves };

    fn layer() -> Layer {
        Layer::Files
    }

    // No directory stands in a file shard.
    fn has_root(&self) -> bool {
        let _shard = self;
        false
    }

    fn decide(&self, req: &FileReq) -> Result<Outcome<FileReply>, NoMemory> {
        FileShard::decide(self, req)
    }

    fn apply(&mut self, req: &FileReq) -> Result<(), NoMemory> {
        FileShard::apply(self, req)
    }

    fn own(req: FileReq) -> AnyReq {
        AnyReq::File(req)
    }

    // A clone may want memory. So what belongs to requests that take none is made anew.
    fn copy_req(req: &FileReq) -> Result<AnyReq, NoMemory> {
        match *req {
            FileReq::Release { file, hold } => Ok(AnyReq::File(FileReq::Release { file, hold })),
            FileReq::TakeToken { file, token } => {
                Ok(AnyReq::File(FileReq::TakeToken { file, token }))
            }
            FileReq::SealFile { file } => Ok(AnyReq::File(FileReq::SealFile { file })),
            _ => Ok(AnyReq::File(req.clone()?)),
        }
    }

    fn copy_reply(reply: &FileReply) -> Result<AnyReply, NoMemory> {
        match *reply {
            FileReply::Released { was } => Ok(AnyReply::File(FileReply::Released { was })),
            FileReply::Opened => Ok(AnyReply::File(FileReply::Opened)),
            FileReply::SealedNow => Ok(AnyReply::File(FileReply::SealedNow)),
            FileReply::Refused { why } => Ok(AnyReply::File(FileReply::Refused { why })),
            _ => Ok(AnyReply::File(reply.clone()?)),
        }
    }
}
