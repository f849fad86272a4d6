ghost use Rattle.std.specs.Prelude.{◌≡◌, IfOk};
ghost use Rattle.store_rules.specs.Places.{request_place};
ghost use Rattle.store_rules.specs.Views.{as_found, is_sealed};
ghost use Rattle.program_rules.specs.Seal.{seal_starts, seal_ask, seal_asks, found, sealed, seal_refusal, seal_hears};

use crate::places::{place_of_dir, place_of_node};
use memories::Memory;
use op_files::file_refused;
use program_parts::{Next, dir_refused, refused};
use program_rules::Seal;
use store_rules::AnyReply;
use tect_calls::{Asked, file_seal_file, name_look, name_seal_dir};
use tect_ids::{Answer, DirId, Key, Name, NoMemory, Node, Place};

/// A seal of what has that name in the directory, or of the directory.
pub fn start(name: Option<Name>, dir: DirId) -> Seal
    ensures { result ≡ seal_starts name dir }
{
    match name {
        None => Seal::Close {
            node: Node::Dir(dir),
        },
        Some(name) => Seal::Find {
            key: Key { dir, name },
        },
    }
}

/// Its request.
pub fn ask(seal: &Seal) -> Result<Asked, NoMemory>
    ensures { IfOk result (λ asked. asked ≡ seal_asks seal.now) }
{
    match seal {
        Seal::Find { key } => Ok(name_look(key.clone()?)),
        Seal::Close { node } => Ok(ask_node(*node)),
    }
}

fn ask_node(node: Node) -> Asked
    ensures { result ≡ seal_ask node }
{
    match node {
        Node::Dir(dir) => name_seal_dir(dir),
        Node::File(file) => file_seal_file(file),
    }
}

/// Where it goes on at the reply to its request.
pub fn hear(seal: Seal, memory: &Memory, reply: &AnyReply) -> Next<Seal, Answer>
    ensures { result ≡ seal_hears (request_place memory.now.counts (seal_asks seal)) seal reply.now }
{
    match seal {
        Seal::Find { key } => {
            let place = place_of_dir(memory, key.dir);
            hear_look(key, place, reply)
        }
        Seal::Close { node } => hear_seal(node, place_of_node(memory, node), reply),
    }
}

fn hear_look(key: Key, place: Place, reply: &AnyReply) -> Next<Seal, Answer>
    ensures { result ≡ found place key reply.now (as_found reply.now) }
{
    match reply.as_found() {
        None => Next::Comes {
            result: refused(place, key, reply),
        },
        Some(node) => Next::Goes {
            state: Seal::Close { node },
        },
    }
}

fn hear_seal(node: Node, place: Place, reply: &AnyReply) -> Next<Seal, Answer>
    ensures { result ≡ sealed place node reply.now (is_sealed reply.now) }
{
    let answer = if reply.is_sealed() {
        Answer::Done
    } else {
        seal_refused(place, node, reply)
    };
    Next::Comes { result: answer }
}

fn seal_refused(place: Place, node: Node, reply: &AnyReply) -> Answer
    ensures { result ≡ seal_refusal place node reply.now }
{
    match node {
        Node::Dir(_) => dir_refused(place, reply),
        Node::File(file) => file_refused(place, file, reply),
    }
}
