ghost use Rattle.std.specs.Prelude.{◌≡◌, true, IsTrue, IsOk, IfOk, OnOk, OnErr, if◌then◌else◌};
ghost use Rattle.store_rules.specs.Names.{root_names, no_names, name_rule, name_answer, name_change, name_step};
ghost use Rattle.store_rules.specs.Outcomes.{changes, reply};

use key_maps::{DirMap, EntryTable};
use small_maps::HoldList;
use std::alloc::Global;
use std::marker::Model;
use store_rules::{Directory, DirectoryEntry, NameReply, NameReq, Outcome};
use tect_ids::{DirId, NoMemory, ROOT};

/// A shard of the Name layer: some of the directories, each with all of its entries. No directory comes to have more than
/// 65,536 of them.
#[derive(Drop)]
pub struct NameShard {
    pub(crate) alloc: Global,
    pub(crate) dirs: DirMap<Directory>,
    pub(crate) entries: EntryTable<DirectoryEntry>,
}

impl Model for NameShard {
    ghost use Rattle.store_rules.specs.Names.{Names};
    ghost use Rattle.name_shard.specs.Codes.{names_code};
    ghost use Rattle.name_shard.specs.Limits.{IsWithinLimit};

    ghost Value = { Names };

    ghost coded = { names_code };

    ghost view = { λ s. record { dirs = s.dirs; entries = s.entries } };

    ghost invariant = { λ s. IsWithinLimit s.entries };
}

impl NameShard {
    /// A shard with the root directory, or with none.
    pub fn new(alloc: Global, has_root: bool) -> Result<NameShard, NoMemory>
        ensures { IfOk result (λ s. s ≡ (if has_root then root_names else no_names)) }
    {
        let mut dirs = DirMap::new(alloc);
        if has_root {
            let root = Directory {
                parent: DirId(0),
                sealed: false,
                holds: HoldList::new(alloc),
            };
            if dirs.put(ROOT, root).is_err() {
                return Err(NoMemory);
            }
        }
        Ok(NameShard {
            alloc,
            dirs,
            entries: EntryTable::new(alloc),
        })
    }

    /// Answers the request by its rule, and makes the rule's change where it is not refused.
    ///
    /// A refusal is an answer like others, and changes nothing. Nor does want of memory, which may come at any request but
    /// `CheckDir`, `Look`, `Unbind`, `Release` and `SealDir`: these take none. Names are found in logarithmic time, and only `List`
    /// goes over a directory's entries, those of its own directory alone.
    pub fn step(&mut self, req: &NameReq) -> Result<NameReply, NoMemory>
        ensures answers { IfOk result (λ x. x ≡ reply (name_answer self.old req.now)) }
        ensures steps { OnOk result (self.new ≡ name_step self.old req.now) }
        ensures err { OnErr result (self.new ≡ self.old) }

        // What wants no memory is always answered.
        ensures sure { IsTrue (name_rule req.now).free → IsOk result }
    {
        let outcome = self.decide(req)?;
        if outcome.changes() {
            self.apply(req)?;
        }
        Ok(outcome.into_reply())
    }

    /// What `step` would answer. It changes nothing.
    pub fn reply(&self, req: &NameReq) -> Result<NameReply, NoMemory>
        ensures answers { IfOk result (λ x. x ≡ reply (name_answer self.now req.now)) }
        ensures sure { IsTrue (name_rule req.now).free → IsOk result }
    {
        Ok(self.decide(req)?.into_reply())
    }

    /// What `step` would answer, and whether it would change the shard. It changes nothing, and takes memory only for `List`
    /// and `Swap`.
    pub fn decide(&self, req: &NameReq) -> Result<Outcome<NameReply>, NoMemory>
        ensures answers { IfOk result (λ x. x ≡ name_answer self.now req.now) }
        ensures sure { IsTrue (name_rule req.now).free → IsOk result }
    {
        match req {
            NameReq::CheckDir { dir } => Ok(self.check_dir(*dir)),
            NameReq::Look { key } => Ok(self.look(key)),
            NameReq::List { dir } => self.list(*dir),
            NameReq::MakeDir { dir, .. } => Ok(self.make_dir_outcome(*dir)),
            NameReq::Bind { key, over, .. } => Ok(self.bind_outcome(key, *over)),
            NameReq::Swap {
                dir,
                from,
                to,
                node,
                ..
            } => self.swap_outcome(*dir, from, to, *node),
            NameReq::Unbind { key, want } => Ok(self.unbind_outcome(key, *want)),
            NameReq::Grant { dir, .. } => Ok(self.grant_outcome(*dir)),
            NameReq::Release { dir, hold } => Ok(self.release_outcome(*dir, *hold)),
            NameReq::SealDir { dir } => Ok(self.seal_outcome(*dir)),
        }
    }

    /// Makes the change of a request that was decided to change the shard. For want of memory nothing is changed; `Unbind`,
    /// `Release` and `SealDir` take none.
    pub fn apply(&mut self, req: &NameReq) -> Result<(), NoMemory>
        requires { changes (name_answer self.old req.now) ≡ true }
        ensures ok { OnOk result (self.new ≡ name_change self.old req.now) }
        ensures err { OnErr result (self.new ≡ self.old) }
        ensures sure { IsTrue (name_rule req.now).free → IsOk result }
    {
        match req {
            NameReq::MakeDir {
                dir,
                parent,
                hold,
                key,
            } => self.make_dir(*dir, *parent, *hold, key),
            NameReq::Bind {
                key,
                node,
                hold,
                ..
            } => self.bind(key, *node, *hold),
            NameReq::Swap {
                dir,
                from,
                to,
                node,
                hold,
            } => {
                let entry = DirectoryEntry {
                    node: *node,
                    hold: *hold,
                };
                self.swap(*dir, from, to, entry)
            }
            NameReq::Unbind { key, .. } => {
                self.unbind(key);
                Ok(())
            }
            NameReq::Grant { dir, hold, key } => self.grant(*dir, *hold, key),
            NameReq::Release { dir, hold } => {
                self.release(*dir, *hold);
                Ok(())
            }
            NameReq::SealDir { dir } => {
                self.seal(*dir);
                Ok(())
            }
            NameReq::CheckDir { .. } | NameReq::Look { .. } | NameReq::List { .. } => Ok(()),
        }
    }
}
