ghost use Rattle.std.specs.Prelude.{◌≡◌};
ghost use Rattle.std.specs.FinMap.{get};
ghost use Rattle.map_words.specs.Maps.{set_at};
ghost use Rattle.store_rules.specs.Files.{seal_file_answer, seal_file_change, file_sealed};

use crate::refused::refused;
use crate::shard::FileShard;
use key_maps::FileMap;
use store_rules::{File, FileReply, Outcome};
use tect_ids::{FileId, Refusal};

impl FileShard {
    // Refused as `NoFile` where the file does not stand.
    pub(crate) fn seal_outcome(&self, file: FileId) -> Outcome<FileReply>
        ensures { result ≡ seal_file_answer self.now file }
    {
        if self.files.get(file).is_none() {
            return refused(Refusal::NoFile);
        }
        Outcome::Changes(FileReply::SealedNow)
    }

    pub(crate) fn seal(&mut self, file: FileId)
        ensures { self.new ≡ seal_file_change self.old file }
    {
        close(&mut self.files, file);
    }
}

// Seals the file where it stands.
fn close(files: &mut FileMap<File>, file: FileId)
    ensures { files.new ≡ set_at files.old file (file_sealed (get files.old file)) }
{
    if let Some(row) = files.get_mut(file) {
        row.sealed = true;
    }
}
