ghost use Rattle.std.specs.Prelude.{◌≡◌, Some, OnOk, OnErr};
ghost use Rattle.std.specs.Option.{option_copied};
ghost use Rattle.std.specs.FinMap.{empty, get};
ghost use Rattle.map_words.specs.Maps.{set_at};

use crate::path_key::PathKey;
use ordered_rows::Rows;
use std::alloc::Global;
use std::marker::Model;
use tect_calls::MadeFile;
use tect_ids::{NoMemory, Token};

/// A file that an actor opened, and the token that its open wrote into it.
#[derive(Drop)]
pub struct OpenedFile {
    pub(crate) file: MadeFile,
    pub(crate) token: Token,
}

impl Model for OpenedFile {
    ghost use Rattle.program_forms.specs.Memories as memories;
    ghost use Rattle.memories.specs.Codes.{opened_code};

    ghost Value = { memories.OpenedFile };

    ghost coded = { opened_code };

    ghost view = { λ opened. record { file = opened.file; token = opened.token } };
}

impl OpenedFile {
    /// The file, which was made.
    pub fn file(&self) -> &MadeFile
        ensures { result.now ≡ self.now.file }
    {
        &self.file
    }

    /// The token that an append has to show.
    pub fn token(&self) -> Token
        ensures { result ≡ self.now.token }
    {
        self.token
    }
}

// The files that an actor opened, by path, seen as a finite map.
#[derive(Drop)]
pub struct OpenedFiles {
    rows: Rows<PathKey, OpenedFile>,
}

impl Model for OpenedFiles {
    ghost use Rattle.std.specs.FinMap.{from_sorted};
    ghost use Rattle.ordered_rows.specs.Pairs.{pairs};
    ghost use Rattle.program_forms.specs.Memories as memories;
    ghost use Rattle.memories.specs.Codes.{opened_files_code};

    ghost Value = { memories.OpenedFiles };

    ghost coded = { opened_files_code };

    ghost view = { λ m. from_sorted (pairs m.rows) };
}

#[tactic(auto, using(crate::proofs::OpenedRows::opened_rows))]
impl OpenedFiles {
    // None. It takes no memory.
    pub fn new(alloc: Global) -> OpenedFiles
        ensures { result ≡ empty }
    {
        OpenedFiles {
            rows: Rows::new(alloc),
        }
    }

    // It takes no memory.
    pub fn get(&self, path: &PathKey) -> Option<&OpenedFile>
        ensures { option_copied result ≡ get self.now path.now }
    {
        self.rows.get(path)
    }

    pub fn put(&mut self, path: PathKey, opened: OpenedFile) -> Result<(), NoMemory>
        ensures stored { OnOk result (self.new ≡ set_at self.old path (Some opened)) }
        ensures unchanged { OnErr result (self.new ≡ self.old) }
    {
        match self.rows.put(path, opened) {
            Ok(_) => Ok(()),
            Err(_) => Err(NoMemory),
        }
    }
}
