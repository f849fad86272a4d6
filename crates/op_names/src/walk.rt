ghost use Rattle.std.specs.Prelude.{◌≡◌, IfOk, IfErr, OnOk, OnErr};
ghost use Rattle.store_rules.specs.Names.{key_in};
ghost use Rattle.store_rules.specs.Views.{as_found};
ghost use Rattle.program_forms.specs.Memories.{learnt};
ghost use Rattle.program_parts.specs.declared.next.Next.TheVariants.{Goes};
ghost use Rattle.program_parts.specs.declared.walking.Walking.TheVariants.{Way, There};
ghost use Rattle.program_parts.specs.Parts.{within};
ghost use Rattle.program_parts.specs.Walks.{walk_on, walked, walk_asks, walk_hears, walk_learns};
ghost use Rattle.program_rules.specs.Operations.{begins_in, operations};
ghost use Rattle.op_names.specs.OneBlock.{WalksWithOneBlock};
ghost use Rattle.op_names.specs.Ways.{walk_end, walk_from};

use crate::operations;
use crate::places::place_of_dir;
use memories::Memory;
use program_parts::{Next, Walking, refused};
use program_rules::{Operation, OperationState};
use store_rules::AnyReply;
use tect_calls::{Asked, MadeDir, found_dir, name_look};
use tect_ids::{Answer, Key, Name, NoMemory, OpId, PathPart, Place};

/// A command that walks, or is in a state of its operation.
pub type Going = Walking<Operation, OperationState>;

/// The walk along these names from that directory, and the operation where they lead. It takes memory for a name of more than 30 bytes
/// alone.
pub fn start(dir: MadeDir, names: PathPart, operation: Operation) -> Result<Going, NoMemory>
    ensures { IfOk result (λ going. going ≡ walk_on begins_in dir names operation) }
{
    let mut rest = names;
    let first = rest.take_first()?;
    Ok(begin(dir, first, rest, operation))
}

// The walk whose first name, if there is one, was taken off.
fn begin(dir: MadeDir, first: Option<Name>, rest: PathPart, operation: Operation) -> Going
    ensures { result ≡ walk_from dir first rest operation }
{
    match first {
        Some(name) => Walking::Way {
            dir,
            name,
            rest,
            operation,
        },
        None => Walking::There {
            state: operations::start(operation, dir),
        },
    }
}

/// Its request, as that op.
pub fn ask(going: &Going, memory: &Memory, op: OpId) -> Result<Asked, NoMemory>
    requires { WalksWithOneBlock going.now }
    ensures { IfOk result (λ asked. asked ≡ walk_asks operations memory.now.counts memory.now.memory op going.now) }
{
    match going {
        Walking::Way { dir, name, .. } => Ok(name_look(Key {
            dir: dir.dir(),
            name: name.clone()?,
        })),
        Walking::There { state } => operations::ask(state, memory, op),
    }
}

/// Where it goes on at the reply to its request, and what the actor learns of it is kept. For want of memory it is given back, and nothing
/// is kept.
pub fn hear(
    going: Going,
    memory: &mut Memory,
    op: OpId,
    reply: &AnyReply,
) -> Result<Next<Going, Answer>, Going>
    ensures ok { IfOk result (λ next. next ≡ walk_hears begins_in operations memory.old.counts memory.old.memory op going
        (walk_asks operations memory.old.counts memory.old.memory op going) reply.now) }
    ensures kept { OnOk result (memory.new ≡ record memory.old {
      memory = learnt (walk_learns operations op going (walk_asks operations memory.old.counts memory.old.memory op going) reply.now)
          memory.old.memory;
    }) }
    ensures err { IfErr result (λ same. same ≡ going) }
    ensures unchanged { OnErr result (memory.new ≡ memory.old) }
{
    match going {
        Walking::Way {
            dir,
            name,
            rest,
            operation,
        } => {
            let place = place_of_dir(memory, dir.dir());
            hear_way(dir, name, rest, operation, place, reply)
        }
        Walking::There { state } => match operations::hear(state, memory, op, reply) {
            Ok(next) => Ok(there(next)),
            Err(state) => Err(Walking::There { state }),
        },
    }
}

// At the reply to the look for a name on the way.
fn hear_way(
    dir: MadeDir,
    name: Name,
    rest: PathPart,
    operation: Operation,
    place: Place,
    reply: &AnyReply,
) -> Result<Next<Going, Answer>, Going>
    ensures ok { IfOk result (λ next. next ≡ walked begins_in place (key_in dir name) rest operation reply.now (as_found reply.now)) }
    ensures err { IfErr result (λ same. same ≡ Way dir name rest operation) }
{
    match found_dir(reply) {
        Some(found) => go_further(dir, name, rest, operation, found),
        None => {
            let dir = dir.dir();
            Ok(Next::Comes {
                result: no_dir(Key { dir, name }, place, reply),
            })
        }
    }
}

// On along the rest of the way, from the directory that was found.
fn go_further(
    dir: MadeDir,
    name: Name,
    rest: PathPart,
    operation: Operation,
    found: MadeDir,
) -> Result<Next<Going, Answer>, Going>
    ensures ok { IfOk result (λ next. next ≡ Goes (walk_on begins_in found rest operation)) }
    ensures err { IfErr result (λ same. same ≡ Way dir name rest operation) }
{
    let mut rest = rest;
    match rest.take_first() {
        Ok(first) => Ok(Next::Goes {
            state: begin(found, first, rest, operation),
        }),
        Err(NoMemory) => Err(Walking::Way {
            dir,
            name,
            rest,
            operation,
        }),
    }
}

// The answer of a command that found no directory on its way.
fn no_dir(key: Key, place: Place, reply: &AnyReply) -> Answer
    ensures { result ≡ walk_end place key reply.now (as_found reply.now) }
{
    match reply.as_found() {
        None => refused(place, key, reply),
        Some(_) => Answer::NotDir,
    }
}

/// Of an operation that runs.
pub fn there(next: Next<OperationState, Answer>) -> Next<Going, Answer>
    ensures { result ≡ within There next }
{
    match next {
        Next::Goes { state } => Next::Goes {
            state: Walking::There { state },
        },
        Next::Comes { result: answer } => Next::Comes { result: answer },
    }
}
