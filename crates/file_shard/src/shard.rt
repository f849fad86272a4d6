ghost use Rattle.std.specs.Prelude.{◌≡◌, true, IsTrue, IsOk, IfOk, OnOk, OnErr};
ghost use Rattle.std.specs.FinMap.{empty};
ghost use Rattle.store_rules.specs.Outcomes.{changes, reply};
ghost use Rattle.store_rules.specs.Files.{file_answer, file_change, file_rule, file_step};

use key_maps::FileMap;
use std::alloc::Global;
use std::marker::Model;
use store_rules::{File, FileReply, FileReq, FileRow, Outcome};
use tect_ids::NoMemory;

/// A shard of the File layer: some of the files.
#[derive(Drop)]
pub struct FileShard {
    pub(crate) alloc: Global,
    pub(crate) files: FileMap<File>,
}

impl Model for FileShard {
    ghost use Rattle.store_rules.specs.Files.{Files};
    ghost use Rattle.file_shard.specs.Codes.{files_code};

    ghost Value = { Files };

    ghost coded = { files_code };

    ghost view = { λ s. s.files };
}

impl FileShard {
    /// A shard with no file. It takes no memory.
    pub fn new(alloc: Global) -> FileShard
        ensures { result ≡ empty }
    {
        FileShard {
            alloc,
            files: FileMap::new(alloc),
        }
    }

    /// Answers the request by its rule, and makes the rule's change where it is not refused.
    ///
    /// A refusal is an answer like others, and changes nothing: `MakeFile` is answered `HasId` where the file stands; `Grant`,
    /// `ListBlocks` and `SealFile` are refused as `NoFile` where it does not, `TakeToken` also as `Sealed`, and `Attach` as `NoFile`, `Sealed`,
    /// `TokenChanged` with the token that the file has now, or at 4,096 blocks `Full`, whichever comes first. `Release` says
    /// whether the hold was listed.
    ///
    /// Nor does want of memory change anything, which may come at any request but `Release`, `TakeToken` and `SealFile`: these take none.
    /// Files are found in logarithmic time, and only `ListBlocks` goes over a file's rows, those of its own file alone.
    pub fn step(&mut self, req: &FileReq) -> Result<FileReply, NoMemory>
        ensures answers { IfOk result (λ x. x ≡ reply (file_answer self.old req.now)) }
        ensures steps { OnOk result (self.new ≡ file_step self.old req.now) }
        ensures err { OnErr result (self.new ≡ self.old) }

        // What wants no memory is always answered.
        ensures sure { IsTrue (file_rule req.now).free → IsOk result }
    {
        let outcome = self.decide(req)?;
        if outcome.changes() {
            self.apply(req)?;
        }
        Ok(outcome.into_reply())
    }

    /// What `step` would answer. It changes nothing.
    pub fn reply(&self, req: &FileReq) -> Result<FileReply, NoMemory>
        ensures answers { IfOk result (λ x. x ≡ reply (file_answer self.now req.now)) }
        ensures sure { IsTrue (file_rule req.now).free → IsOk result }
    {
        Ok(self.decide(req)?.into_reply())
    }

    /// What `step` would answer, and whether it would change the shard. It changes nothing, and takes memory only for
    /// `ListBlocks`.
    pub fn decide(&self, req: &FileReq) -> Result<Outcome<FileReply>, NoMemory>
        ensures answers { IfOk result (λ x. x ≡ file_answer self.now req.now) }
        ensures sure { IsTrue (file_rule req.now).free → IsOk result }
    {
        match req {
            FileReq::MakeFile { file, .. } => Ok(self.make_file_outcome(*file)),
            FileReq::Grant { file, .. } => Ok(self.grant_outcome(*file)),
            FileReq::Release { file, hold } => Ok(self.release_outcome(*file, *hold)),
            FileReq::TakeToken { file, .. } => Ok(self.take_token_outcome(*file)),
            FileReq::Attach { file, token, .. } => Ok(self.attach_outcome(*file, *token)),
            FileReq::ListBlocks { file } => self.list_blocks(*file),
            FileReq::SealFile { file } => Ok(self.seal_outcome(*file)),
        }
    }

    /// Makes the change of a request that was decided to change the shard. For want of memory nothing is changed; `Release`,
    /// `TakeToken` and `SealFile` take none.
    pub fn apply(&mut self, req: &FileReq) -> Result<(), NoMemory>
        requires { changes (file_answer self.old req.now) ≡ true }
        ensures ok { OnOk result (self.new ≡ file_change self.old req.now) }
        ensures err { OnErr result (self.new ≡ self.old) }
        ensures sure { IsTrue (file_rule req.now).free → IsOk result }
    {
        match req {
            FileReq::MakeFile {
                file,
                hold,
                key,
                token,
            } => self.make_file(*file, *hold, key, *token),
            FileReq::Grant { file, hold, key } => self.grant(*file, *hold, key),
            FileReq::Release { file, hold } => {
                self.release(*file, *hold);
                Ok(())
            }
            FileReq::TakeToken { file, token } => {
                self.take_token(*file, *token);
                Ok(())
            }
            FileReq::Attach {
                file,
                blk,
                len,
                hold,
                ..
            } => {
                let row = FileRow {
                    blk: *blk,
                    len: *len,
                    hold: *hold,
                };
                self.attach(*file, row)
            }
            FileReq::SealFile { file } => {
                self.seal(*file);
                Ok(())
            }
            FileReq::ListBlocks { .. } => Ok(()),
        }
    }
}
