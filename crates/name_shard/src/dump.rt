ghost use Rattle.std.specs.Prelude.{◌≡◌, ◌++◌, IfOk, OnOk};
ghost use Rattle.std.specs.FinMap.{keys};
ghost use Rattle.store_rules.specs.Dumps.{dir_line, dir_lines, entry_line, dir_state, names_dump};
ghost use Rattle.name_shard.specs.DirDumps.{dir_dump};

use crate::shard::NameShard;
use store_rules::{Directory, DirectoryEntry};
use tect_ids::{DirId, DirState, DumpLine, Key, NoMemory};

impl NameShard {
    /// The lines that a dump shows: the directories by identifier, each followed by its entries by name.
    pub fn dump(&self) -> Result<Vec<DumpLine>, NoMemory>
        ensures { IfOk result (λ lines. lines.items ≡ names_dump self.now) }
    {
        let mut lines = Vec::new(self.alloc);
        for (dir, directory) in self.dirs.iter() {
            self.dump_dir(&mut lines, *dir, directory)?;
        }
        Ok(lines)
    }

    /// The directories that the shard has, in the order of their identifiers.
    pub fn dirs(&self) -> Result<Vec<DirId>, NoMemory>
        ensures { IfOk result (λ dirs. dirs.items ≡ keys self.now.dirs) }
    {
        let mut dirs = Vec::with_capacity(self.alloc, self.dirs.len())?;
        for (dir, _directory) in self.dirs.iter() {
            dirs.push(*dir)?;
        }
        Ok(dirs)
    }

    /// The lines that a dump shows of one directory: its own and those of its entries, by name. None where the shard does
    /// not have it.
    pub fn dump_one(&self, dir: DirId) -> Result<Vec<DumpLine>, NoMemory>
        ensures { IfOk result (λ lines. lines.items ≡ dir_dump self.now dir) }
    {
        let mut lines = Vec::new(self.alloc);
        if let Some(directory) = self.dirs.get(dir) {
            self.dump_dir(&mut lines, dir, directory)?;
        }
        Ok(lines)
    }

    // Adds the lines of one directory.
    fn dump_dir(
        &self,
        lines: &mut Vec<DumpLine>,
        dir: DirId,
        directory: &Directory,
    ) -> Result<(), NoMemory>
        ensures { OnOk result (lines.new.items ≡ lines.old.items ++ dir_lines self.now (dir, directory.now)) }
    {
        lines.push(self.dir_line(dir, directory)?)?;
        for (key, entry) in self.entries.within(dir) {
            lines.push(self.entry_line(key, entry)?)?;
        }
        Ok(())
    }

    fn dir_line(&self, dir: DirId, directory: &Directory) -> Result<DumpLine, NoMemory>
        ensures { IfOk result (λ line. line ≡ dir_line self.now (dir, directory.now)) }
    {
        Ok(DumpLine::Dir {
            dir,
            parent: directory.parent,
            state: if directory.sealed {
                DirState::Sealed
            } else {
                DirState::Open
            },
            entries: self.entries.count(dir) as u32,
            // No memory has room for more holds than that.
            holds: u32::try_from(directory.holds.len()).or(Err(NoMemory))?,
            moving: None,
        })
    }

    fn entry_line(&self, key: &Key, entry: &DirectoryEntry) -> Result<DumpLine, NoMemory>
        ensures { IfOk result (λ line. line ≡ entry_line (key.now, entry.now)) }
    {
        Ok(DumpLine::Entry {
            key: key.clone()?,
            node: entry.node,
            pin: None,
        })
    }
}
