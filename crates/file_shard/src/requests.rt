ghost use Rattle.std.specs.Prelude.{◌≡◌, Some, None, OnOk, OnErr, is_some};
ghost use Rattle.std.specs.FinMap.{get};
ghost use Rattle.map_words.specs.Maps.{set_at};
ghost use Rattle.store_rules.specs.Files.{make_file_answer, make_file_change, grant_file_answer, grant_file_change};
ghost use Rattle.store_rules.specs.Files.{release_file_answer, release_file_change, file_with_hold, file_lists};

use crate::refused::refused;
use crate::shard::FileShard;
use key_maps::FileMap;
use small_maps::HoldList;
use std::alloc::Global;
use store_rules::{File, FileReply, FileRows, Outcome};
use tect_ids::{FileId, Hold, Key, NoMemory, Refusal, Token, Upper};

impl FileShard {
    pub(crate) fn make_file_outcome(&self, file: FileId) -> Outcome<FileReply>
        ensures { result ≡ make_file_answer self.now file }
    {
        if self.files.get(file).is_some() {
            return Outcome::Leaves(FileReply::HasId);
        }
        Outcome::Changes(FileReply::Made)
    }

    pub(crate) fn make_file(
        &mut self,
        file: FileId,
        hold: Hold,
        key: &Key,
        token: Option<Token>,
    ) -> Result<(), NoMemory>
        ensures ok { OnOk result (self.new ≡ make_file_change self.old file hold key.now token) }
        ensures err { OnErr result (self.new ≡ self.old) }
    {
        let mut holds = HoldList::new(self.alloc);
        holds.grant(hold, Upper::Entry(key.clone()?))?;
        let row = File {
            token,
            sealed: false,
            holds,
            rows: FileRows::new(self.alloc),
        };
        match self.files.put(file, row) {
            Ok(_) => Ok(()),
            Err(_) => Err(NoMemory),
        }
    }

    pub(crate) fn grant_outcome(&self, file: FileId) -> Outcome<FileReply>
        ensures { result ≡ grant_file_answer self.now file }
    {
        if self.files.get(file).is_none() {
            return refused(Refusal::NoFile);
        }
        Outcome::Changes(FileReply::Granted)
    }

    pub(crate) fn grant(&mut self, file: FileId, hold: Hold, key: &Key) -> Result<(), NoMemory>
        ensures ok { OnOk result (self.new ≡ grant_file_change self.old file hold key.now) }
        ensures err { OnErr result (self.new ≡ self.old) }
    {
        let key = Upper::Entry(key.clone()?);
        grant_hold(&mut self.files, file, hold, key)
    }

    pub(crate) fn release_outcome(&self, file: FileId, hold: Hold) -> Outcome<FileReply>
        ensures { result ≡ release_file_answer self.now file hold }
    {
        let was = self.lists(file, hold);
        if was {
            Outcome::Changes(FileReply::Released { was })
        } else {
            Outcome::Leaves(FileReply::Released { was })
        }
    }

    // Whether the file lists the hold.
    fn lists(&self, file: FileId, hold: Hold) -> bool
        ensures { result ≡ is_some (file_lists (get self.now file) hold) }
    {
        match self.files.get(file) {
            None => false,
            Some(row) => row.holds.has(hold),
        }
    }

    pub(crate) fn release(&mut self, file: FileId, hold: Hold)
        ensures { self.new ≡ release_file_change self.old file hold }
    {
        release_hold(&mut self.files, file, hold);
    }
}

// Lists the hold with that key where the file stands.
fn grant_hold(
    files: &mut FileMap<File>,
    file: FileId,
    hold: Hold,
    key: Upper,
) -> Result<(), NoMemory>
    ensures listed { OnOk result (files.new ≡ set_at files.old file (file_with_hold (get files.old file) hold (Some key))) }
    ensures unchanged { OnErr result (files.new ≡ files.old) }
{
    match files.get_mut(file) {
        None => Ok(()),
        Some(row) => row.holds.grant(hold, key),
    }
}

// Takes the hold off the file's list where the file stands.
fn release_hold(files: &mut FileMap<File>, file: FileId, hold: Hold)
    ensures { files.new ≡ set_at files.old file (file_with_hold (get files.old file) hold None) }
{
    if let Some(row) = files.get_mut(file) {
        let _ = row.holds.release(hold);
    }
}
