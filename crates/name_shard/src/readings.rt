ghost use Rattle.std.specs.Prelude.{◌≡◌, map, IfOk};
ghost use Rattle.std.specs.FinMap.{entries};
ghost use Rattle.key_words.specs.Maps.{within};
ghost use Rattle.store_rules.specs.Names.{check_dir_answer, look_answer, list_answer, listed};

use crate::refused::refused;
use crate::shard::NameShard;
use store_rules::{NameReply, Outcome};
use tect_ids::{DirId, Items, Key, Listed, NoMemory, Refusal};

// The requests that change nothing.
impl NameShard {
    pub(crate) fn check_dir(&self, dir: DirId) -> Outcome<NameReply>
        ensures { result ≡ check_dir_answer self.now dir }
    {
        match self.dirs.get(dir) {
            None => refused(Refusal::NoDir),
            Some(directory) => Outcome::Leaves(NameReply::DirIs {
                parent: directory.parent,
                sealed: directory.sealed,
            }),
        }
    }

    pub(crate) fn look(&self, key: &Key) -> Outcome<NameReply>
        ensures { result ≡ look_answer self.now key.now }
    {
        if self.dirs.get(key.dir).is_none() {
            return refused(Refusal::NoDir);
        }
        match self.entries.get(key) {
            None => refused(Refusal::NoName),
            Some(entry) => Outcome::Leaves(NameReply::Found { node: entry.node }),
        }
    }

    pub(crate) fn list(&self, dir: DirId) -> Result<Outcome<NameReply>, NoMemory>
        ensures { IfOk result (λ x. x ≡ list_answer self.now dir) }
    {
        let Some(directory) = self.dirs.get(dir) else {
            return Ok(refused(Refusal::NoDir));
        };
        Ok(Outcome::Leaves(NameReply::Listing {
            sealed: directory.sealed,
            items: self.listed(dir)?,
        }))
    }

    // The entries of the directory, in the order of their names.
    fn listed(&self, dir: DirId) -> Result<Items<Listed>, NoMemory>
        ensures { IfOk result (λ items. items ≡ map listed (entries (within self.now.entries dir))) }
    {
        let mut items = Vec::with_capacity(self.alloc, self.entries.count(dir) as usize)?;
        for (key, entry) in self.entries.within(dir) {
            items.push(Listed {
                name: key.name.clone()?,
                node: entry.node,
            })?;
        }
        Items::from_vec(items)
    }
}
