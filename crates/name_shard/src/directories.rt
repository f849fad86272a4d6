ghost use Rattle.std.specs.Prelude.{◌≡◌, Some, None, OnOk, OnErr, is_some};
ghost use Rattle.std.specs.FinMap.{get};
ghost use Rattle.map_words.specs.Maps.{set_at};
ghost use Rattle.store_rules.specs.Names.{make_dir_answer, make_dir_change, grant_dir_answer, grant_dir_change};
ghost use Rattle.store_rules.specs.Names.{release_dir_answer, release_dir_change, dir_with_hold, dir_lists};
ghost use Rattle.store_rules.specs.Names.{seal_dir_answer, seal_dir_change, dir_sealed};

use crate::refused::refused;
use crate::shard::NameShard;
use key_maps::DirMap;
use small_maps::HoldList;
use store_rules::{Directory, NameReply, Outcome};
use tect_ids::{DirId, Hold, Key, NoMemory, Refusal, Upper};

// The requests that change a directory.
impl NameShard {
    pub(crate) fn make_dir_outcome(&self, dir: DirId) -> Outcome<NameReply>
        ensures { result ≡ make_dir_answer self.now dir }
    {
        if self.dirs.get(dir).is_some() {
            return Outcome::Leaves(NameReply::HasId);
        }
        Outcome::Changes(NameReply::Made)
    }

    pub(crate) fn make_dir(
        &mut self,
        dir: DirId,
        parent: DirId,
        hold: Hold,
        key: &Key,
    ) -> Result<(), NoMemory>
        ensures ok { OnOk result (self.new ≡ make_dir_change self.old dir parent hold key.now) }
        ensures err { OnErr result (self.new ≡ self.old) }
    {
        let mut holds = HoldList::new(self.alloc);
        holds.grant(hold, Upper::Entry(key.clone()?))?;
        let directory = Directory {
            parent,
            sealed: false,
            holds,
        };
        match self.dirs.put(dir, directory) {
            Ok(_) => Ok(()),
            Err(_) => Err(NoMemory),
        }
    }

    pub(crate) fn grant_outcome(&self, dir: DirId) -> Outcome<NameReply>
        ensures { result ≡ grant_dir_answer self.now dir }
    {
        if self.dirs.get(dir).is_none() {
            return refused(Refusal::NoDir);
        }
        Outcome::Changes(NameReply::Granted)
    }

    pub(crate) fn grant(&mut self, dir: DirId, hold: Hold, key: &Key) -> Result<(), NoMemory>
        ensures ok { OnOk result (self.new ≡ grant_dir_change self.old dir hold key.now) }
        ensures err { OnErr result (self.new ≡ self.old) }
    {
        let key = Upper::Entry(key.clone()?);
        grant_hold(&mut self.dirs, dir, hold, key)
    }

    pub(crate) fn release_outcome(&self, dir: DirId, hold: Hold) -> Outcome<NameReply>
        ensures { result ≡ release_dir_answer self.now dir hold }
    {
        let was = self.lists(dir, hold);
        if was {
            Outcome::Changes(NameReply::Released { was })
        } else {
            Outcome::Leaves(NameReply::Released { was })
        }
    }

    // Whether the directory lists the hold.
    fn lists(&self, dir: DirId, hold: Hold) -> bool
        ensures { result ≡ is_some (dir_lists (get self.now.dirs dir) hold) }
    {
        match self.dirs.get(dir) {
            None => false,
            Some(directory) => directory.holds.has(hold),
        }
    }

    pub(crate) fn release(&mut self, dir: DirId, hold: Hold)
        ensures { self.new ≡ release_dir_change self.old dir hold }
    {
        release_hold(&mut self.dirs, dir, hold);
    }

    pub(crate) fn seal_outcome(&self, dir: DirId) -> Outcome<NameReply>
        ensures { result ≡ seal_dir_answer self.now dir }
    {
        if self.dirs.get(dir).is_none() {
            return refused(Refusal::NoDir);
        }
        Outcome::Changes(NameReply::SealedNow)
    }

    pub(crate) fn seal(&mut self, dir: DirId)
        ensures { self.new ≡ seal_dir_change self.old dir }
    {
        close(&mut self.dirs, dir);
    }
}

// Lists the hold with that key where the directory stands.
fn grant_hold(
    dirs: &mut DirMap<Directory>,
    dir: DirId,
    hold: Hold,
    key: Upper,
) -> Result<(), NoMemory>
    ensures listed { OnOk result (dirs.new ≡ set_at dirs.old dir (dir_with_hold (get dirs.old dir) hold (Some key))) }
    ensures unchanged { OnErr result (dirs.new ≡ dirs.old) }
{
    match dirs.get_mut(dir) {
        None => Ok(()),
        Some(directory) => directory.holds.grant(hold, key),
    }
}

// Seals the directory where it stands.
fn close(dirs: &mut DirMap<Directory>, dir: DirId)
    ensures { dirs.new ≡ set_at dirs.old dir (dir_sealed (get dirs.old dir)) }
{
    if let Some(directory) = dirs.get_mut(dir) {
        directory.sealed = true;
    }
}

// Takes the hold off the directory's list where the directory stands.
fn release_hold(dirs: &mut DirMap<Directory>, dir: DirId, hold: Hold)
    ensures { dirs.new ≡ set_at dirs.old dir (dir_with_hold (get dirs.old dir) hold None) }
{
    if let Some(directory) = dirs.get_mut(dir) {
        let _ = directory.holds.release(hold);
    }
}
