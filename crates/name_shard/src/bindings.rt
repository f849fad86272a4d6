ghost use Rattle.std.specs.Prelude.{◌≡◌, true, Some, None, IfOk, OnOk, OnErr, is_some};
ghost use Rattle.std.specs.Option.{option_copied};
ghost use Rattle.std.specs.FinMap.{get};
ghost use Rattle.map_words.specs.Maps.{set_at};
ghost use Rattle.tect_ids.specs.Keys.{node_eq};
ghost use Rattle.store_rules.specs.declared.names.NameReply.TheVariants.{Unbound};
ghost use Rattle.store_rules.specs.Names.{bind_answer, bind_over, bind_change, swap_answer, swap_over, swap_change};
ghost use Rattle.store_rules.specs.Names.{unbind_answer, unbind_any, unbind_node, key_in, set_entry};
ghost use Rattle.name_shard.specs.Limits.{HasRoom};
ghost use Rattle.name_shard.specs.Refusals.{dir_refusal};

use crate::refused::refused;
use crate::shard::NameShard;
use key_maps::EntryTable;
use store_rules::{DirectoryEntry, NameReply, Outcome, Replaced};
use tect_ids::{DirId, Hold, Key, Name, NoMemory, Node, Over, Refusal, Want};

// How many entries a directory may have.
const ENTRY_LIMIT: u64 = 65_536;

// The requests that change an entry.
impl NameShard {
    pub(crate) fn bind_outcome(&self, key: &Key, over: Over) -> Outcome<NameReply>
        ensures { result ≡ bind_answer self.now key.now over }
    {
        match self.refusal(key.dir) {
            Some(why) => refused(why),
            None => self.bind_over(key, over),
        }
    }

    // Why the directory takes no change of its entries, if it takes none.
    fn refusal(&self, dir: DirId) -> Option<Refusal>
        ensures { result ≡ dir_refusal (get self.now.dirs dir) }
    {
        match self.dirs.get(dir) {
            None => Some(Refusal::NoDir),
            Some(directory) if directory.sealed => Some(Refusal::Sealed),
            Some(_) => None,
        }
    }

    // What stands at the key decides.
    fn bind_over(&self, key: &Key, over: Over) -> Outcome<NameReply>
        ensures { result ≡ bind_over self.now key.now (get self.now.entries key.now) over }
    {
        let Some(old) = self.entries.get(key) else {
            if self.entries.count(key.dir) >= ENTRY_LIMIT {
                return refused(Refusal::Full);
            }
            return Outcome::Changes(NameReply::Bound { old: None });
        };
        match (over, old.node) {
            (Over::Absent, _) => refused(Refusal::Exists),
            (Over::File, Node::Dir(_)) => refused(Refusal::IsDir),
            (Over::File, Node::File(file)) => Outcome::Changes(NameReply::Bound {
                old: Some(Replaced {
                    file,
                    hold: old.hold,
                }),
            }),
        }
    }

    // The entry has a place: its key stands, or its directory has room.
    pub(crate) fn bind(&mut self, key: &Key, node: Node, hold: Hold) -> Result<(), NoMemory>
        requires { HasRoom self.old.entries key.now }
        ensures ok { OnOk result (self.new ≡ bind_change self.old key.now node hold) }
        ensures err { OnErr result (self.new ≡ self.old) }
    {
        self.entries.put(key, DirectoryEntry { node, hold })?;
        Ok(())
    }

    pub(crate) fn unbind_outcome(&self, key: &Key, want: Want) -> Outcome<NameReply>
        ensures { result ≡ unbind_answer self.now key.now want }
    {
        match (self.refusal(key.dir), want) {
            (Some(why), _) => refused(why),
            (None, Want::AnyFile) => unbind_any(self.entries.get(key)),
            (None, Want::Exactly(node)) => unbind_node(self.entries.get(key), node),
        }
    }

    pub(crate) fn unbind(&mut self, key: &Key)
        ensures { self.new ≡ set_entry self.old key.now None }
    {
        self.entries.take(key);
    }

    pub(crate) fn swap_outcome(
        &self,
        dir: DirId,
        from: &Name,
        to: &Name,
        node: Node,
    ) -> Result<Outcome<NameReply>, NoMemory>
        ensures { IfOk result (λ x. x ≡ swap_answer self.now dir from.now to.now node) }
    {
        let from = key_in(dir, from)?;
        let to = key_in(dir, to)?;
        Ok(self.swap_keys(&from, &to, node))
    }

    fn swap_keys(&self, from: &Key, to: &Key, node: Node) -> Outcome<NameReply>
        requires { to.now.dir ≡ from.now.dir }
        ensures { result ≡ swap_answer self.now from.now.dir from.now.name to.now.name node }
    {
        if let Some(why) = self.refusal(from.dir) {
            return refused(why);
        }
        let Some(renamed) = self.entries.get(from) else {
            return refused(Refusal::Changed { now: None });
        };
        if !is_node(renamed.node, node) {
            return refused(Refusal::Changed {
                now: Some(renamed.node),
            });
        }
        swap_over(self.entries.get(to), node, renamed.hold)
    }

    // The old name stands.
    pub(crate) fn swap(
        &mut self,
        dir: DirId,
        from: &Name,
        to: &Name,
        entry: DirectoryEntry,
    ) -> Result<(), NoMemory>
        requires { is_some (get self.old.entries (key_in dir from.now)) ≡ true }
        ensures ok { OnOk result (self.new ≡ swap_change self.old dir from.now to.now entry.node entry.hold) }
        ensures err { OnErr result (self.new ≡ self.old) }
    {
        let from = key_in(dir, from)?;
        let to = key_in(dir, to)?;
        rename_entry(&mut self.entries, &from, &to, entry)?;
        Ok(())
    }
}

fn key_in(dir: DirId, name: &Name) -> Result<Key, NoMemory>
    ensures { IfOk result (λ key. key ≡ key_in dir name.now) }
{
    Ok(Key {
        dir,
        name: name.clone()?,
    })
}

// What an unbind of any file comes to at what stands at the key.
fn unbind_any(entry: Option<&DirectoryEntry>) -> Outcome<NameReply>
    ensures { result ≡ unbind_any (option_copied entry.entry) }
{
    let Some(entry) = entry else {
        return refused(Refusal::NoName);
    };
    match entry.node {
        Node::Dir(_) => refused(Refusal::IsDir),
        Node::File(_) => unbound(entry),
    }
}

// What an unbind of that node alone comes to at what stands at the key.
fn unbind_node(entry: Option<&DirectoryEntry>, node: Node) -> Outcome<NameReply>
    ensures { result ≡ unbind_node (option_copied entry.entry) node }
{
    let Some(entry) = entry else {
        return refused(Refusal::Changed { now: None });
    };
    if !is_node(entry.node, node) {
        return refused(Refusal::Changed {
            now: Some(entry.node),
        });
    }
    unbound(entry)
}

fn unbound(entry: &DirectoryEntry) -> Outcome<NameReply>
    ensures { result ≡ Outcome.Changes (Unbound entry.now.node entry.now.hold) }
{
    Outcome::Changes(NameReply::Unbound {
        node: entry.node,
        hold: entry.hold,
    })
}

fn is_node(a: Node, b: Node) -> bool
    ensures { result ≡ node_eq a b }
{
    a == b
}

// What a swap comes to at what stands at the new name; the hold is that of the old name.
fn swap_over(over: Option<&DirectoryEntry>, node: Node, hold: Hold) -> Outcome<NameReply>
    ensures { result ≡ swap_over (option_copied over.entry) node hold }
{
    let Some(old) = over else {
        return Outcome::Changes(NameReply::Swapped { hold, old: None });
    };
    match (old.node, node) {
        (Node::Dir(_), _) => refused(Refusal::IsDir),
        (Node::File(_), Node::Dir(_)) => refused(Refusal::Exists),
        (Node::File(file), Node::File(_)) => Outcome::Changes(NameReply::Swapped {
            hold,
            old: Some(Replaced {
                file,
                hold: old.hold,
            }),
        }),
    }
}

// Takes the entry at the old key away and puts one at the new key, or nothing of it for want of memory.
fn rename_entry(
    entries: &mut EntryTable<DirectoryEntry>,
    from: &Key,
    to: &Key,
    entry: DirectoryEntry,
) -> Result<(), NoMemory>
    ensures moved { OnOk result (entries.new ≡ set_at (set_at entries.old from.now None) to.now (Some entry)) }
    ensures unchanged { OnErr result (entries.new ≡ entries.old) }
{
    entries.put(to, entry)?;
    if from != to {
        entries.take(from);
    }
    Ok(())
}
