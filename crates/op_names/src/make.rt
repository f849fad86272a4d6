ghost use Rattle.std.specs.Prelude.{◌≡◌, IfOk};
ghost use Rattle.store_rules.specs.Places.{request_place};
ghost use Rattle.store_rules.specs.Views.{as_bound};
ghost use Rattle.memories.specs.Knowing.{number_for};
ghost use Rattle.tect_calls.specs.Readings.{bound_freed};
ghost use Rattle.program_parts.specs.Parts.{within};
ghost use Rattle.program_parts.specs.Releases.{then_release};
ghost use Rattle.program_rules.specs.declared.states.Make.TheVariants.{Release};
ghost use Rattle.program_rules.specs.Make.{over_of, node_of, new_ask, make_asks, made, bound, make_hears};

use crate::operations::hold_of;
use crate::places::{place_of_dir, place_of_node};
use crate::release;
use memories::Memory;
use program_parts::{Next, Releasing, refused};
use program_rules::{Make, NewNode};
use store_rules::AnyReply;
use tect_calls::{
    Asked, Freed, Granted, MadeDir, file_make_file, made_hold, name_bind, name_make_dir,
};
use tect_ids::{Answer, DirId, FileId, Hold, Key, Name, NoMemory, Node, OpId, Over, Place};

// What the new name may replace.
fn over(kind: NewNode) -> Over
    ensures { result ≡ over_of kind }
{
    match kind {
        NewNode::File => Over::File,
        NewNode::Dir => Over::Absent,
    }
}

// What has that number.
fn new_node(kind: NewNode, number: u64) -> Node
    ensures { result ≡ node_of kind number }
{
    match kind {
        NewNode::File => Node::File(FileId(number)),
        NewNode::Dir => Node::Dir(DirId(number)),
    }
}

fn ask_new(
    kind: NewNode,
    number: u64,
    hold: Hold,
    dir: &MadeDir,
    name: &Name,
) -> Result<Asked, NoMemory>
    ensures { IfOk result (λ asked. asked ≡ new_ask kind number hold dir.now name.now) }
{
    let key = Key {
        dir: dir.dir(),
        name: name.clone()?,
    };
    match kind {
        NewNode::File => Ok(file_make_file(FileId(number), hold, key, None, dir.made())),
        NewNode::Dir => Ok(name_make_dir(DirId(number), dir.dir(), hold, key, dir.made())),
    }
}

/// Its request, as that op.
pub fn ask(make: &Make, memory: &Memory, op: OpId) -> Result<Asked, NoMemory>
    ensures { IfOk result (λ asked. asked ≡ make_asks op (number_for memory.now op) make.now) }
{
    match make {
        Make::New { kind, dir, name } => {
            ask_new(*kind, memory.number_for(op), hold_of(op), dir, name)
        }
        Make::Bind {
            kind,
            key,
            node,
            hold,
        } => Ok(name_bind(key.clone()?, *node, hold.hold(), over(*kind), hold)),
        Make::Release(releasing) => Ok(release::ask(releasing)),
    }
}

/// Where it goes on at the reply to its request.
pub fn hear(make: Make, memory: &Memory, op: OpId, reply: &AnyReply) -> Next<Make, Answer>
    ensures { result
        ≡ make_hears (request_place memory.now.counts (make_asks op (number_for memory.now op) make)) op (number_for memory.now op)
        make reply.now }
{
    match make {
        Make::New { kind, dir, name } => {
            let node = new_node(kind, memory.number_for(op));
            let key = Key {
                dir: dir.dir(),
                name,
            };
            hear_new(kind, key, node, place_of_node(memory, node), op, reply)
        }
        Make::Bind {
            key,
            node,
            hold,
            ..
        } => {
            let place = place_of_dir(memory, key.dir);
            hear_bind(key, node, hold, place, reply)
        }
        Make::Release(releasing) => released(releasing.second, releasing.answer),
    }
}

fn hear_new(
    kind: NewNode,
    key: Key,
    node: Node,
    place: Place,
    op: OpId,
    reply: &AnyReply,
) -> Next<Make, Answer>
    ensures { result ≡ made place op kind key node reply.now }
{
    match made_hold(hold_of(op), reply) {
        Some(hold) => Next::Goes {
            state: Make::Bind {
                kind,
                key,
                node,
                hold,
            },
        },
        None => Next::Comes {
            result: refused(place, key, reply),
        },
    }
}

fn hear_bind(
    key: Key,
    node: Node,
    hold: Granted,
    place: Place,
    reply: &AnyReply,
) -> Next<Make, Answer>
    ensures { result ≡ bound place key node hold reply.now (bound_freed (as_bound reply.now)) }
{
    match tect_calls::bound(reply) {
        Some(old) => released(old, Answer::Found { node }),
        None => Next::Goes {
            state: Make::Release(Releasing {
                first: Freed {
                    node,
                    hold: hold.give_up(),
                },
                second: None,
                answer: refused(place, key, reply),
            }),
        },
    }
}

fn released(freed: Option<Freed>, answer: Answer) -> Next<Make, Answer>
    ensures { result ≡ within Release (then_release freed answer) }
{
    within!(Make::Release, release::release_first(freed, answer))
}
