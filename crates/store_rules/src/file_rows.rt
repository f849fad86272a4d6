ghost use Rattle.std.specs.Prelude.{◌≡◌, ◌==◌, ◌++◌, [], ◌∷◌, OnOk, OnErr, length};

use std::alloc::Global;
use std::marker::Model;
use tect_ids::{BlkId, Hold, NoMemory};

/// A row of a file: a block with its length in bytes, and the hold by which the block lists the file.
#[derive(Clone, Copy, Debug, PartialEq, Eq)]
pub struct FileRow {
    pub blk: BlkId,
    pub len: u32,
    pub hold: Hold,
}

/// The rows of a file, by index from 0. Contracts see a list.
#[derive(Drop)]
pub struct FileRows {
    rows: Vec<FileRow>,
}

impl Model for FileRows {
    ghost use Rattle.std.specs.Prelude.{List};
    ghost use Rattle.std.specs.Coded.{coded_list};
    ghost use Rattle.store_rules.specs.declared.file_rows.FileRow.{FileRow as AnyRow};
    ghost use Rattle.store_rules.specs.Codes.{file_row_code};

    ghost Value = { List AnyRow };

    ghost coded = { coded_list file_row_code };

    ghost view = { λ list. list.rows.items };
}

impl FileRows {
    /// No rows. It takes no memory.
    pub fn new(alloc: Global) -> FileRows
        ensures { result ≡ [] }
    {
        FileRows {
            rows: Vec::new(alloc),
        }
    }

    /// How many rows there are. It takes no memory.
    pub fn len(&self) -> usize
        ensures { result ≡ length self.now }
    {
        self.rows.len()
    }

    pub fn is_empty(&self) -> bool
        ensures { result ≡ (length self.now == 0) }
    {
        self.rows.is_empty()
    }

    /// The rows in their order. It takes no memory.
    pub fn as_slice(&self) -> &[FileRow]
        ensures { result.now ≡ self.now }
    {
        &self.rows
    }

    /// Adds a row at the end. The time does not grow with the number of rows, but for the making of room now and then.
    pub fn push(&mut self, row: FileRow) -> Result<(), NoMemory>
        ensures ok { OnOk result (self.new ≡ self.old ++ (row ∷ [])) }
        ensures err { OnErr result (self.new ≡ self.old) }
    {
        match self.rows.push(row) {
            Ok(()) => Ok(()),
            Err(_) => Err(NoMemory),
        }
    }
}
