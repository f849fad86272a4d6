ghost use Rattle.std.specs.Prelude.{◌≡◌, Some, None, IfOk, OnOk, OnErr, true, false, map};
ghost use Rattle.std.specs.FinMap.{get, entries};
ghost use Rattle.key_words.specs.Maps.{within};
ghost use Rattle.tect_ids.specs.Keys.{name_eq};
ghost use Rattle.tree_model.specs.Tree.{opening_tree, tree_reply, tree_change, tree_next, is_ok, at_name, as_listed, set_name};
ghost use Rattle.tree_model.specs.Tree.{check_reply, look_reply, list_reply, make_reply, bind_reply, swap_reply, swap_over};
ghost use Rattle.tree_model.specs.Tree.{unbind_reply, unbind_want, grant_dir_reply, grant_file_reply, with_dir, with_file, renamed};

use crate::blocks::TreeBlocks;
use crate::step::{StepValue, TreeDir, TreeFile, TreeReply, TreeStep};
use key_maps::{DirMap, EntryTable, FileMap, NodeMap};
use std::alloc::Global;
use std::marker::Model;
use tect_ids::{
    DirId, FileId, Items, Key, Listed, Name, NoMemory, Node, OpId, Over, ROOT, Refusal, Token, Want,
};

const ENTRY_LIMIT: u64 = 65_536;

/// The tree: its directories, entries and files, and which of them were ever made.
#[derive(Drop)]
pub struct Tree {
    pub(crate) alloc: Global,
    pub(crate) dirs: DirMap<TreeDir>,
    entries: EntryTable<Node>,
    pub(crate) files: FileMap<TreeFile>,
    made: NodeMap<()>,
}

impl Model for Tree {
    ghost use Rattle.tree_model.specs.Tree.{Tree as AnyTree};
    ghost use Rattle.tree_model.specs.Codes.{tree_code};

    ghost Value = { AnyTree };

    ghost coded = { tree_code };

    ghost view = { λ t. record { dirs = t.dirs; entries = t.entries; files = t.files; made = t.made } };
}

impl Tree {
    /// The tree at the opening: the root alone.
    pub fn start(alloc: Global) -> Result<Tree, NoMemory>
        ensures { IfOk result (λ t. t ≡ opening_tree) }
    {
        let mut dirs = DirMap::new(alloc);
        let root = TreeDir {
            parent: DirId(0),
            sealed: false,
        };
        if dirs.put(ROOT, root).is_err() {
            return Err(NoMemory);
        }
        let mut made = NodeMap::new(alloc);
        if made.put(Node::Dir(ROOT), ()).is_err() {
            return Err(NoMemory);
        }
        Ok(Tree {
            alloc,
            dirs,
            entries: EntryTable::new(alloc),
            files: FileMap::new(alloc),
            made,
        })
    }

    /// Plays the step of that op, and says what the tree says to it. A step that is refused changes nothing, and for want
    /// of memory none does.
    pub fn play(&mut self, op: OpId, step: &TreeStep) -> Result<TreeReply, NoMemory>
        ensures reply { IfOk result (λ x. x ≡ tree_reply self.old op step.now) }
        ensures next { OnOk result (self.new ≡ tree_next self.old op step.now (tree_reply self.old op step.now)) }
        ensures err { OnErr result (self.new ≡ self.old) }
    {
        let reply = self.reply(op, step)?;
        if matches!(&reply, TreeReply::Ok { .. }) {
            self.change(op, step)?;
        }
        Ok(reply)
    }

    // What the tree says to the step of that op.
    fn reply(&self, op: OpId, step: &TreeStep) -> Result<TreeReply, NoMemory>
        ensures { IfOk result (λ x. x ≡ tree_reply self.now op step.now) }
    {
        match step {
            TreeStep::Check { dir } => Ok(self.check(*dir)),
            TreeStep::Look { key } => Ok(self.look(key)),
            TreeStep::List { dir } => self.list(*dir),
            TreeStep::MakeDir { dir, .. } => Ok(self.make(Node::Dir(*dir))),
            TreeStep::MakeFile { file, .. } => Ok(self.make(Node::File(*file))),
            TreeStep::Bind { key, over, .. } => Ok(self.bind(key, *over)),
            TreeStep::Swap {
                dir,
                from,
                to,
                node,
            } => self.swap(*dir, from, to, *node),
            TreeStep::Unbind { key, want } => Ok(self.unbind(key, *want)),
            TreeStep::GrantDir { dir } => Ok(self.grant_dir(*dir)),
            TreeStep::GrantFile { file } => Ok(self.grant_file(*file)),
            TreeStep::Open { file, .. } => Ok(self.open(*file)),
            TreeStep::Attach { file, token, .. } => Ok(self.attach(*file, *token)),
            TreeStep::Blocks { file } => self.blocks(*file),
            TreeStep::Read { file, count } => self.read(*file, *count),
            TreeStep::SealDir { dir } => Ok(self.seal_dir(*dir)),
            TreeStep::SealFile { file } => Ok(self.seal_file(*file)),
        }
    }

    fn check(&self, dir: DirId) -> TreeReply
        ensures { result ≡ check_reply self.now dir }
    {
        match self.dirs.get(dir) {
            Some(found) => shows(StepValue::Parent {
                parent: found.parent,
                sealed: found.sealed,
            }),
            None => refuses(Refusal::NoDir),
        }
    }

    fn look(&self, key: &Key) -> TreeReply
        ensures { result ≡ look_reply self.now key.now }
    {
        if self.dirs.get(key.dir).is_none() {
            return refuses(Refusal::NoDir);
        }
        match self.entries.get(key) {
            Some(node) => shows(StepValue::Node { node: *node }),
            None => refuses(Refusal::NoName),
        }
    }

    fn list(&self, dir: DirId) -> Result<TreeReply, NoMemory>
        ensures { IfOk result (λ x. x ≡ list_reply self.now dir) }
    {
        let Some(found) = self.dirs.get(dir) else {
            return Ok(refuses(Refusal::NoDir));
        };
        Ok(shows(StepValue::Entries {
            sealed: found.sealed,
            items: self.listed(dir)?,
        }))
    }

    // The entries of a directory, in the order of their names.
    fn listed(&self, dir: DirId) -> Result<Items<Listed>, NoMemory>
        ensures { IfOk result (λ items. items ≡ map as_listed (entries (within self.now.entries dir))) }
    {
        let mut items = Vec::with_capacity(self.alloc, self.entries.count(dir) as usize)?;
        for (key, node) in self.entries.within(dir) {
            items.push(Listed {
                name: key.name.clone()?,
                node: *node,
            })?;
        }
        Items::from_vec(items)
    }

    fn make(&self, node: Node) -> TreeReply
        ensures { result ≡ make_reply self.now node }
    {
        match self.made.get(node) {
            Some(()) => refuses(Refusal::Exists),
            None => shows(StepValue::Done),
        }
    }

    fn bind(&self, key: &Key, over: Over) -> TreeReply
        ensures { result ≡ bind_reply self.now key.now over }
    {
        match self.dirs.get(key.dir) {
            None => return refuses(Refusal::NoDir),
            Some(dir) if dir.sealed => return refuses(Refusal::Sealed),
            Some(_) => {}
        }
        match (self.entries.get(key), over) {
            (Some(_), Over::Absent) => refuses(Refusal::Exists),
            (Some(Node::Dir(_)), Over::File) => refuses(Refusal::IsDir),
            (Some(Node::File(_)), Over::File) => shows(StepValue::Done),
            (None, _) if self.entries.count(key.dir) >= ENTRY_LIMIT => refuses(Refusal::Full),
            (None, _) => shows(StepValue::Done),
        }
    }

    #[tactic(auto, using(crate::proofs::Trees::node_same), unfolding(tect_ids::specs::Keys::name_eq))]
    fn swap(&self, dir: DirId, from: &Name, to: &Name, node: Node) -> Result<TreeReply, NoMemory>
        ensures { IfOk result (λ x. x ≡ swap_reply self.now dir from.now to.now node) }
    {
        match self.dirs.get(dir) {
            None => return Ok(refuses(Refusal::NoDir)),
            Some(found) if found.sealed => return Ok(refuses(Refusal::Sealed)),
            Some(_) => {}
        }
        match self.entries.get(&self.key(dir, from)?) {
            Some(old) if *old == node => {}
            old => {
                let now = old.copied();
                return Ok(refuses(Refusal::Changed { now }));
            }
        }
        if from == to {
            return Ok(refuses(Refusal::Exists));
        }
        Ok(swap_over(self.entries.get(&self.key(dir, to)?).copied(), node))
    }

    fn key(&self, dir: DirId, name: &Name) -> Result<Key, NoMemory>
        ensures { IfOk result (λ key. key ≡ at_name dir name.now) }
    {
        Ok(Key {
            dir,
            name: name.clone()?,
        })
    }

    fn unbind(&self, key: &Key, want: Want) -> TreeReply
        ensures { result ≡ unbind_reply self.now key.now want }
    {
        match self.dirs.get(key.dir) {
            None => return refuses(Refusal::NoDir),
            Some(dir) if dir.sealed => return refuses(Refusal::Sealed),
            Some(_) => {}
        }
        unbind_want(self.entries.get(key).copied(), want)
    }

    fn grant_dir(&self, dir: DirId) -> TreeReply
        ensures { result ≡ grant_dir_reply self.now dir }
    {
        match self.dirs.get(dir) {
            Some(_) => shows(StepValue::Done),
            None => refuses(Refusal::NoDir),
        }
    }

    fn grant_file(&self, file: FileId) -> TreeReply
        ensures { result ≡ grant_file_reply self.now file }
    {
        match self.files.get(file) {
            Some(_) => shows(StepValue::Done),
            None => refuses(Refusal::NoFile),
        }
    }

    // Does what the tree said Ok to.
    fn change(&mut self, op: OpId, step: &TreeStep) -> Result<(), NoMemory>
        requires { is_ok (tree_reply self.old op step.now) ≡ true }
        ensures ok { OnOk result (self.new ≡ tree_change self.old op step.now) }
        ensures err { OnErr result (self.new ≡ self.old) }
    {
        match step {
            TreeStep::MakeDir { dir, parent } => self.add_dir(*dir, *parent),
            TreeStep::MakeFile { file, token } => self.add_file(*file, *token),
            TreeStep::Bind { key, node, .. } => self.set_name(key, *node),
            TreeStep::Swap {
                dir,
                from,
                to,
                node,
            } => self.rename(*dir, from, to, *node),
            TreeStep::Unbind { key, .. } => {
                let _ = self.entries.take(key);
                Ok(())
            }
            TreeStep::Open { file, token } => {
                self.set_token(*file, *token);
                Ok(())
            }
            TreeStep::Attach {
                file,
                blk,
                bytes,
                ..
            } => self.add_block(*file, *blk, bytes),
            TreeStep::SealDir { dir } => {
                self.close_dir(*dir);
                Ok(())
            }
            TreeStep::SealFile { file } => {
                self.close_file(*file);
                Ok(())
            }
            TreeStep::Check { .. }
            | TreeStep::Look { .. }
            | TreeStep::List { .. }
            | TreeStep::GrantDir { .. }
            | TreeStep::GrantFile { .. }
            | TreeStep::Blocks { .. }
            | TreeStep::Read { .. } => Ok(()),
        }
    }

    #[tactic(auto, using(crate::proofs::Trees::made_back))]
    fn add_dir(&mut self, dir: DirId, parent: DirId) -> Result<(), NoMemory>
        requires { get self.old.made (Node.Dir dir) ≡ None }
        ensures ok { OnOk result (self.new ≡ with_dir self.old dir parent) }
        ensures err { OnErr result (self.new ≡ self.old) }
    {
        let node = Node::Dir(dir);
        if self.made.put(node, ()).is_err() {
            return Err(NoMemory);
        }
        let made = TreeDir {
            parent,
            sealed: false,
        };
        if self.dirs.put(dir, made).is_err() {
            let _ = self.made.take(node);
            return Err(NoMemory);
        }
        Ok(())
    }

    #[tactic(auto, using(crate::proofs::Trees::made_back))]
    fn add_file(&mut self, file: FileId, token: Option<Token>) -> Result<(), NoMemory>
        requires { get self.old.made (Node.File file) ≡ None }
        ensures ok { OnOk result (self.new ≡ with_file self.old file token) }
        ensures err { OnErr result (self.new ≡ self.old) }
    {
        let node = Node::File(file);
        if self.made.put(node, ()).is_err() {
            return Err(NoMemory);
        }
        let made = TreeFile {
            token,
            sealed: false,
            blocks: TreeBlocks::new(self.alloc),
        };
        if self.files.put(file, made).is_err() {
            let _ = self.made.take(node);
            return Err(NoMemory);
        }
        Ok(())
    }

    fn set_name(&mut self, key: &Key, node: Node) -> Result<(), NoMemory>
        ensures ok { OnOk result (self.new ≡ set_name self.old key.now (Some node)) }
        ensures err { OnErr result (self.new ≡ self.old) }
    {
        self.entries.put(key, node)?;
        Ok(())
    }

    #[tactic(auto, using(crate::proofs::Trees::names_swap))]
    fn rename(&mut self, dir: DirId, from: &Name, to: &Name, node: Node) -> Result<(), NoMemory>
        requires { name_eq from.now to.now ≡ false }
        ensures ok { OnOk result (self.new ≡ renamed self.old dir from.now to.now node) }
        ensures err { OnErr result (self.new ≡ self.old) }
    {
        let from = self.key(dir, from)?;
        let to = self.key(dir, to)?;
        self.entries.put(&to, node)?;
        let _ = self.entries.take(&from);
        Ok(())
    }
}

// What stands at the new name decides.
fn swap_over(now: Option<Node>, node: Node) -> TreeReply
    ensures { result ≡ swap_over now node }
{
    match (now, node) {
        (None, _) | (Some(Node::File(_)), Node::File(_)) => shows(StepValue::Done),
        (Some(Node::Dir(_)), _) => refuses(Refusal::IsDir),
        (Some(Node::File(_)), Node::Dir(_)) => refuses(Refusal::Exists),
    }
}

#[tactic(auto, using(crate::proofs::Trees::node_same))]
fn unbind_want(now: Option<Node>, want: Want) -> TreeReply
    ensures { result ≡ unbind_want now want }
{
    match (now, want) {
        (None, Want::AnyFile) => refuses(Refusal::NoName),
        (Some(Node::Dir(_)), Want::AnyFile) => refuses(Refusal::IsDir),
        (Some(Node::File(_)), Want::AnyFile) => shows(StepValue::Done),
        (Some(node), Want::Exactly(wanted)) if node == wanted => shows(StepValue::Done),
        (_, Want::Exactly(_)) => refuses(Refusal::Changed { now }),
    }
}

pub(crate) fn shows(value: StepValue) -> TreeReply
    ensures { result ≡ TreeReply.Ok value }
{
    TreeReply::Ok { value }
}

pub(crate) fn refuses(why: Refusal) -> TreeReply
    ensures { result ≡ TreeReply.Refused why }
{
    TreeReply::Refused { why }
}
