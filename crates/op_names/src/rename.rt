ghost use Rattle.std.specs.Prelude.{◌≡◌, IfOk};
ghost use Rattle.tect_ids.specs.Keys.{name_eq};
ghost use Rattle.store_rules.specs.declared.any.AnyReq.TheVariants as any;
ghost use Rattle.store_rules.specs.declared.names.NameReq.TheVariants as requests;
ghost use Rattle.store_rules.specs.Names.{key_in};
ghost use Rattle.store_rules.specs.Places.{request_place};
ghost use Rattle.store_rules.specs.Views.{as_found, as_swapped};
ghost use Rattle.tect_calls.specs.Readings.{swapped_freed};
ghost use Rattle.program_parts.specs.Parts.{within};
ghost use Rattle.program_parts.specs.Releases.{then_release};
ghost use Rattle.program_rules.specs.declared.states.Rename.TheVariants.{Release};
ghost use Rattle.program_rules.specs.NamePairs.{pair_of};
ghost use Rattle.program_rules.specs.Rename.{grant_ask, rename_asks, to_grant, found_old, granted, swapped, rename_hears};

use crate::operations::hold_of;
use crate::places::{place_of_dir, place_of_node};
use crate::release;
use memories::Memory;
use program_parts::{Next, Releasing, refused};
use program_rules::{NamePair, Rename};
use store_rules::AnyReply;
use tect_calls::{
    Asked, Freed, Granted, MadeDir, file_grant, granted_hold, name_grant, name_look, name_swap,
};
use tect_ids::{Answer, DirId, Hold, Key, Name, NoMemory, Node, OpId, Place};

// The grant of a hold at a node, for the name in the directory.
fn ask_grant(node: Node, hold: Hold, dir: &MadeDir, name: &Name) -> Result<Asked, NoMemory>
    ensures { IfOk result (λ asked. asked ≡ grant_ask node hold (key_in dir.now name.now)) }
{
    let key = Key {
        dir: dir.dir(),
        name: name.clone()?,
    };
    match node {
        Node::Dir(at) => Ok(name_grant(at, hold, key, dir.made())),
        Node::File(file) => Ok(file_grant(file, hold, key, dir.made())),
    }
}

// The swap of the names.
fn ask_swap(dir: DirId, names: &NamePair, node: Node, hold: &Granted) -> Result<Asked, NoMemory>
    ensures { IfOk result (λ asked. asked ≡ any.Name (requests.Swap dir names.now.from names.now.to node hold.now)) }
{
    let from = names.from().clone()?;
    let to = names.to().clone()?;
    Ok(name_swap(dir, from, to, node, hold))
}

/// Its request, as that op.
pub fn ask(rename: &Rename, op: OpId) -> Result<Asked, NoMemory>
    ensures { IfOk result (λ asked. asked ≡ rename_asks op rename.now) }
{
    match rename {
        Rename::Find { dir, from, .. } => Ok(name_look(Key {
            dir: dir.dir(),
            name: from.clone()?,
        })),
        Rename::Grant { dir, names, node } => ask_grant(*node, hold_of(op), dir, names.to()),
        Rename::Swap {
            dir,
            names,
            node,
            hold,
        } => ask_swap(*dir, names, *node, hold),
        Rename::Release(releasing) => Ok(release::ask(releasing)),
    }
}

/// Where it goes on at the reply to its request.
pub fn hear(rename: Rename, memory: &Memory, op: OpId, reply: &AnyReply) -> Next<Rename, Answer>
    ensures { result ≡ rename_hears (request_place memory.now.counts (rename_asks op rename)) op rename reply.now }
{
    match rename {
        Rename::Find { dir, from, to } => {
            let place = place_of_dir(memory, dir.dir());
            hear_find(dir, from, to, place, reply)
        }
        Rename::Grant { dir, names, node } => {
            let place = place_of_node(memory, node);
            hear_grant(dir, names, node, place, op, reply)
        }
        Rename::Swap {
            dir,
            names,
            node,
            hold,
        } => {
            let place = place_of_dir(memory, dir);
            hear_swap(dir, names, node, hold, place, reply)
        }
        Rename::Release(releasing) => released(releasing.second, releasing.answer),
    }
}

fn hear_find(
    dir: MadeDir,
    from: Name,
    to: Name,
    place: Place,
    reply: &AnyReply,
) -> Next<Rename, Answer>
    ensures { result ≡ found_old place dir from to reply.now (as_found reply.now) }
{
    match reply.as_found() {
        None => {
            let key = Key {
                dir: dir.dir(),
                name: from,
            };
            Next::Comes {
                result: refused(place, key, reply),
            }
        }
        Some(node) => go_to_grant(dir, from, to, node),
    }
}

fn go_to_grant(dir: MadeDir, from: Name, to: Name, node: Node) -> Next<Rename, Answer>
    ensures { result ≡ to_grant dir node (pair_of from to (name_eq from to)) }
{
    match NamePair::new(from, to) {
        None => Next::Comes {
            result: Answer::Done,
        },
        Some(names) => Next::Goes {
            state: Rename::Grant { dir, names, node },
        },
    }
}

fn hear_grant(
    dir: MadeDir,
    names: NamePair,
    node: Node,
    place: Place,
    op: OpId,
    reply: &AnyReply,
) -> Next<Rename, Answer>
    ensures { result ≡ granted place op dir names node reply.now }
{
    match granted_hold(hold_of(op), reply) {
        Some(hold) => Next::Goes {
            state: Rename::Swap {
                dir: dir.dir(),
                names,
                node,
                hold,
            },
        },
        None => Next::Comes {
            result: refused(place, old_key(dir.dir(), names), reply),
        },
    }
}

fn hear_swap(
    dir: DirId,
    names: NamePair,
    node: Node,
    hold: Granted,
    place: Place,
    reply: &AnyReply,
) -> Next<Rename, Answer>
    ensures { result ≡ swapped place dir names node hold reply.now (swapped_freed node (as_swapped reply.now)) }
{
    let releasing = match tect_calls::swapped(node, reply) {
        Some((first, second)) => Releasing {
            first,
            second,
            answer: Answer::Done,
        },
        None => Releasing {
            first: Freed {
                node,
                hold: hold.give_up(),
            },
            second: None,
            answer: refused(place, old_key(dir, names), reply),
        },
    };
    Next::Goes {
        state: Rename::Release(releasing),
    }
}

// Where the old name stands.
fn old_key(dir: DirId, names: NamePair) -> Key
    ensures { result ≡ key_in dir names.from }
{
    Key {
        dir,
        name: names.into_from(),
    }
}

fn released(freed: Option<Freed>, answer: Answer) -> Next<Rename, Answer>
    ensures { result ≡ within Release (then_release freed answer) }
{
    within!(Rename::Release, release::release_first(freed, answer))
}
