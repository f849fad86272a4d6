ghost use Rattle.std.specs.Prelude.{◌≡◌, Some};
ghost use Rattle.std.specs.FinMap.{get};
ghost use Rattle.map_words.specs.Maps.{set_at};
ghost use Rattle.store_rules.specs.Files.{take_token_answer, take_token_change, file_with_token};

use crate::refused::refused;
use crate::shard::FileShard;
use key_maps::FileMap;
use store_rules::{File, FileReply, Outcome};
use tect_ids::{FileId, Refusal, Token};

impl FileShard {
    // Refused as `NoFile` where the file does not stand, and as `Sealed` where it is closed to changes.
    pub(crate) fn take_token_outcome(&self, file: FileId) -> Outcome<FileReply>
        ensures { result ≡ take_token_answer self.now file }
    {
        match self.files.get(file) {
            None => refused(Refusal::NoFile),
            Some(row) if row.sealed => refused(Refusal::Sealed),
            Some(_) => Outcome::Changes(FileReply::Opened),
        }
    }

    pub(crate) fn take_token(&mut self, file: FileId, token: Token)
        ensures { self.new ≡ take_token_change self.old file token }
    {
        write_token(&mut self.files, file, token);
    }
}

// Writes the token into the file where it stands.
fn write_token(files: &mut FileMap<File>, file: FileId, token: Token)
    ensures { files.new ≡ set_at files.old file (file_with_token (get files.old file) token) }
{
    if let Some(row) = files.get_mut(file) {
        row.token = Some(token);
    }
}
