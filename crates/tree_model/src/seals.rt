ghost use Rattle.std.specs.Prelude.{◌≡◌};
ghost use Rattle.std.specs.FinMap.{get};
ghost use Rattle.map_words.specs.Maps.{set_at};
ghost use Rattle.tree_model.specs.Tree.{seal_dir_reply, seal_file_reply, with_sealed_dir, with_sealed_file, dir_sealed, file_sealed};

use crate::step::{StepValue, TreeDir, TreeFile, TreeReply};
use crate::tree::{Tree, refuses, shows};
use key_maps::{DirMap, FileMap};
use tect_ids::{DirId, FileId, Refusal};

impl Tree {
    pub(crate) fn seal_dir(&self, dir: DirId) -> TreeReply
        ensures { result ≡ seal_dir_reply self.now dir }
    {
        match self.dirs.get(dir) {
            Some(_) => shows(StepValue::Done),
            None => refuses(Refusal::NoDir),
        }
    }

    pub(crate) fn seal_file(&self, file: FileId) -> TreeReply
        ensures { result ≡ seal_file_reply self.now file }
    {
        match self.files.get(file) {
            Some(_) => shows(StepValue::Done),
            None => refuses(Refusal::NoFile),
        }
    }

    pub(crate) fn close_dir(&mut self, dir: DirId)
        ensures { self.new ≡ with_sealed_dir self.old dir }
    {
        close_dir(&mut self.dirs, dir);
    }

    pub(crate) fn close_file(&mut self, file: FileId)
        ensures { self.new ≡ with_sealed_file self.old file }
    {
        close_file(&mut self.files, file);
    }
}

// Seals the directory where it stands.
fn close_dir(dirs: &mut DirMap<TreeDir>, dir: DirId)
    ensures { dirs.new ≡ set_at dirs.old dir (dir_sealed (get dirs.old dir)) }
{
    if let Some(found) = dirs.get_mut(dir) {
        found.sealed = true;
    }
}

// Seals the file where it stands.
fn close_file(files: &mut FileMap<TreeFile>, file: FileId)
    ensures { files.new ≡ set_at files.old file (file_sealed (get files.old file)) }
{
    if let Some(found) = files.get_mut(file) {
        found.sealed = true;
    }
}
