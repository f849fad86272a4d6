ghost use Rattle.std.specs.Prelude.{◌≡◌, false};
ghost use Rattle.tect_ids.specs.Keys.{name_eq};

use crate::asked::Asked;
use crate::tokens::{Granted, Made, Spent};
use store_rules::{AnyReq, NameReq};
use tect_ids::{DirId, Hold, Key, Name, Node, Over, Want};

// The request to a Name shard, all of whose tokens were shown.
fn name_asked(req: NameReq) -> Asked
    ensures { result ≡ AnyReq.Name req }
{
    Asked {
        req: AnyReq::Name(req),
    }
}

/// Asks whether a directory stands, and for its parent. It takes no memory, as no builder does.
pub fn name_check_dir(dir: DirId) -> Asked
    ensures { result ≡ AnyReq.Name (NameReq.CheckDir dir) }
{
    name_asked(NameReq::CheckDir { dir })
}

/// Asks what an entry names.
pub fn name_look(key: Key) -> Asked
    ensures { result ≡ AnyReq.Name (NameReq.Look key) }
{
    name_asked(NameReq::Look { key })
}

/// Asks for the entries of a directory.
pub fn name_list(dir: DirId) -> Asked
    ensures { result ≡ AnyReq.Name (NameReq.List dir) }
{
    name_asked(NameReq::List { dir })
}

/// Makes a directory, held for an entry of a directory that was made.
pub fn name_make_dir(dir: DirId, parent: DirId, hold: Hold, key: Key, upper: &Made) -> Asked
    requires { upper.now ≡ Node.Dir key.dir }
    ensures { result ≡ AnyReq.Name (NameReq.MakeDir dir parent hold key) }
{
    name_asked(NameReq::MakeDir {
        dir,
        parent,
        hold,
        key,
    })
}

/// Binds an entry to a node by a hold that was granted.
pub fn name_bind(key: Key, node: Node, hold: Hold, over: Over, granted: &Granted) -> Asked
    requires { granted.now ≡ hold }
    ensures { result ≡ AnyReq.Name (NameReq.Bind key node hold over) }
{
    name_asked(NameReq::Bind {
        key,
        node,
        hold,
        over,
    })
}

/// Gives a node another name in its directory, by a hold that was granted. The two names differ.
pub fn name_swap(dir: DirId, from: Name, to: Name, node: Node, granted: &Granted) -> Asked
    requires { name_eq from to ≡ false }
    ensures { result ≡ AnyReq.Name (NameReq.Swap dir from to node granted.now) }
{
    name_asked(NameReq::Swap {
        dir,
        from,
        to,
        node,
        hold: granted.hold,
    })
}

/// Removes an entry.
pub fn name_unbind(key: Key, want: Want) -> Asked
    ensures { result ≡ AnyReq.Name (NameReq.Unbind key want) }
{
    name_asked(NameReq::Unbind { key, want })
}

/// Grants a hold at a directory, for an entry of a directory that was made.
pub fn name_grant(dir: DirId, hold: Hold, key: Key, upper: &Made) -> Asked
    requires { upper.now ≡ Node.Dir key.dir }
    ensures { result ≡ AnyReq.Name (NameReq.Grant dir hold key) }
{
    name_asked(NameReq::Grant { dir, hold, key })
}

/// Releases a spent hold at a directory.
pub fn name_release(dir: DirId, hold: Hold, spent: &Spent) -> Asked
    requires { spent.now ≡ hold }
    ensures { result ≡ AnyReq.Name (NameReq.Release dir hold) }
{
    name_asked(NameReq::Release { dir, hold })
}

/// Seals a directory: its own level is closed to changes. It stays sealed where it was.
pub fn name_seal_dir(dir: DirId) -> Asked
    ensures { result ≡ AnyReq.Name (NameReq.SealDir dir) }
{
    name_asked(NameReq::SealDir { dir })
}
