ghost use Rattle.std.specs.Prelude.{◌≡◌, IfOk, is_some};
ghost use Rattle.store_rules.specs.Places.{request_place};
ghost use Rattle.store_rules.specs.Views.{as_found, as_parent};
ghost use Rattle.program_rules.specs.Look.{look_starts, look_asks, checked, looked, look_hears};

use crate::places::place_of_dir;
use memories::Memory;
use program_parts::{Next, dir_refused, refused};
use program_rules::Look;
use store_rules::{AnyReply, NameReply};
use tect_calls::{Asked, name_check_dir, name_look};
use tect_ids::{Answer, DirId, Key, Name, NoMemory, Node, Place};

/// A look in that directory, or at it.
pub fn start(name: Option<Name>, dir: DirId) -> Look
    ensures { result ≡ look_starts name dir }
{
    match name {
        None => Look::Check { dir },
        Some(name) => Look::Entry {
            key: Key { dir, name },
        },
    }
}

/// Its request.
pub fn ask(look: &Look) -> Result<Asked, NoMemory>
    ensures { IfOk result (λ asked. asked ≡ look_asks look.now) }
{
    match look {
        Look::Check { dir } => Ok(name_check_dir(*dir)),
        Look::Entry { key } => Ok(name_look(key.clone()?)),
    }
}

/// Where it goes on at the reply to its request.
pub fn hear(look: Look, memory: &Memory, reply: &AnyReply) -> Next<Look, Answer>
    ensures { result ≡ look_hears (request_place memory.now.counts (look_asks look)) look reply.now }
{
    match look {
        Look::Check { dir } => hear_check(dir, place_of_dir(memory, dir), reply),
        Look::Entry { key } => {
            let place = place_of_dir(memory, key.dir);
            hear_look(key, place, reply)
        }
    }
}

fn hear_check(dir: DirId, place: Place, reply: &AnyReply) -> Next<Look, Answer>
    ensures { result ≡ checked place dir reply.now (is_some (as_parent reply.now)) }
{
    let answer = match reply {
        AnyReply::Name(NameReply::DirIs { .. }) => Answer::Found {
            node: Node::Dir(dir),
        },
        _ => dir_refused(place, reply),
    };
    Next::Comes { result: answer }
}

fn hear_look(key: Key, place: Place, reply: &AnyReply) -> Next<Look, Answer>
    ensures { result ≡ looked place key reply.now (as_found reply.now) }
{
    match reply.as_found() {
        None => Next::Comes {
            result: refused(place, key, reply),
        },
        Some(node) => Next::Comes {
            result: Answer::Found { node },
        },
    }
}
