ghost use Rattle.std.specs.Prelude.{◌≡◌, map, Some, IfOk, OnOk, OnErr};
ghost use Rattle.std.specs.FinMap.{get};
ghost use Rattle.map_words.specs.Maps.{set_at};
ghost use Rattle.store_rules.specs.Files.{attach_answer, attach_change, file_with_row, has_token};
ghost use Rattle.store_rules.specs.Files.{list_blocks_answer, row_part};

use crate::refused::refused;
use crate::shard::FileShard;
use key_maps::FileMap;
use std::alloc::{AllocError, Global};
use store_rules::{File, FileReply, FileRow, Outcome};
use tect_ids::{FileId, Items, NoMemory, Refusal, RowPart, Token};

// How many blocks a file may have.
const BLOCK_LIMIT: usize = 4_096;

impl FileShard {
    // Refused as `NoFile`, `Sealed`, `TokenChanged` or `Full`, whichever comes first.
    pub(crate) fn attach_outcome(&self, file: FileId, token: Token) -> Outcome<FileReply>
        ensures { result ≡ attach_answer self.now file token }
    {
        let Some(row) = self.files.get(file) else {
            return refused(Refusal::NoFile);
        };
        if row.sealed {
            return refused(Refusal::Sealed);
        }
        if !has_token(row.token, token) {
            return refused(Refusal::TokenChanged { now: row.token });
        }
        let index = row.rows.len();
        if index >= BLOCK_LIMIT {
            return refused(Refusal::Full);
        }
        Outcome::Changes(FileReply::Attached {
            index: index as u32,
        })
    }

    pub(crate) fn attach(&mut self, file: FileId, row: FileRow) -> Result<(), NoMemory>
        ensures ok { OnOk result (self.new ≡ attach_change self.old file row) }
        ensures err { OnErr result (self.new ≡ self.old) }
    {
        add_row(&mut self.files, file, row)
    }

    // Refused as `NoFile` where the file does not stand.
    pub(crate) fn list_blocks(&self, file: FileId) -> Result<Outcome<FileReply>, NoMemory>
        ensures { IfOk result (λ x. x ≡ list_blocks_answer self.now file) }
    {
        let Some(row) = self.files.get(file) else {
            return Ok(refused(Refusal::NoFile));
        };
        Ok(Outcome::Leaves(FileReply::Blocks {
            sealed: row.sealed,
            rows: Items::from_vec(row_parts(self.alloc, row.rows.as_slice())?)?,
        }))
    }
}

// Whether that is the token which the file has.
fn has_token(now: Option<Token>, token: Token) -> bool
    ensures { result ≡ has_token now token }
{
    match now {
        None => false,
        Some(now) => now == token,
    }
}

// Adds the row at the file's end where the file stands.
fn add_row(files: &mut FileMap<File>, file: FileId, new: FileRow) -> Result<(), NoMemory>
    ensures added { OnOk result (files.new ≡ set_at files.old file (file_with_row (get files.old file) new)) }
    ensures unchanged { OnErr result (files.new ≡ files.old) }
{
    match files.get_mut(file) {
        None => Ok(()),
        Some(row) => row.rows.push(new),
    }
}

// What a listing shows of each row.
fn row_parts(alloc: Global, rows: &[FileRow]) -> Result<Vec<RowPart>, AllocError>
    ensures { IfOk result (λ parts. parts.items ≡ map row_part rows.now) }
{
    rows.iter()
        .map(|row| RowPart {
            blk: row.blk,
            len: row.len,
        })
        .collect(alloc)
}
