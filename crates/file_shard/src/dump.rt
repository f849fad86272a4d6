ghost use Rattle.std.specs.Prelude.{◌≡◌, IfOk, option_map};
ghost use Rattle.std.specs.FinMap.{len, get, keys};
ghost use Rattle.store_rules.specs.Dumps.{file_line, files_dump};

use crate::shard::FileShard;
use store_rules::File;
use tect_ids::{DumpLine, FileId, FileState, NoMemory};

impl FileShard {
    /// The lines that a dump shows: one of each file, by identifier.
    pub fn dump(&self) -> Result<Vec<DumpLine>, NoMemory>
        ensures { IfOk result (λ lines. lines.items ≡ files_dump self.now) }
    {
        let mut lines = Vec::new(self.alloc);
        for (file, row) in self.files.iter() {
            lines.push(file_line(*file, row)?)?;
        }
        Ok(lines)
    }

    /// The files that the shard has, in the order of their identifiers.
    pub fn files(&self) -> Result<Vec<FileId>, NoMemory>
        ensures { IfOk result (λ files. files.items ≡ keys self.now) }
    {
        let mut files = Vec::with_capacity(self.alloc, self.files.len())?;
        for (file, _row) in self.files.iter() {
            files.push(*file)?;
        }
        Ok(files)
    }

    /// The line that a dump shows of one file. None where the shard does not have it.
    pub fn dump_one(&self, file: FileId) -> Result<Option<DumpLine>, NoMemory>
        ensures { IfOk result (λ line. line ≡ option_map (λ row. file_line (file, row)) (get self.now file)) }
    {
        match self.files.get(file) {
            None => Ok(None),
            Some(row) => Ok(Some(file_line(file, row)?)),
        }
    }
}

fn file_line(file: FileId, row: &File) -> Result<DumpLine, NoMemory>
    ensures { IfOk result (λ line. line ≡ file_line (file, row.now)) }
{
    Ok(DumpLine::File {
        file,
        state: if row.sealed {
            FileState::Sealed
        } else {
            FileState::Open
        },
        token: row.token,
        // No memory has room for more rows or holds than that.
        blocks: u32::try_from(row.rows.len()).or(Err(NoMemory))?,
        holds: u32::try_from(row.holds.len()).or(Err(NoMemory))?,
    })
}
