ghost use Rattle.std.specs.Prelude.{◌≡◌, IfOk, IfErr, OnOk, OnErr};
ghost use Rattle.tect_ids.specs.Numbers.{own_hold};
ghost use Rattle.program_forms.specs.Memories.{learnt};
ghost use Rattle.program_rules.specs.Operations.{begins_in, operation_asks, operation_hears, operation_learns};
ghost use Rattle.op_names.specs.OneBlock.{IsOfOneBlock};

use crate::{delete, list, look, make, rename, seal};
use memories::Memory;
use op_files::{append, blocks, open, read};
use program_parts::Next;
use program_rules::{Delete, List, Make, Operation, OperationState, Rename};
use store_rules::AnyReply;
use tect_calls::{Asked, MadeDir};
use tect_ids::{Answer, Hold, Key, NoMemory, OpId};

// An operation in that state of it: where it goes on, or for want of memory as it was.
macro_rules! heard {
    ($state:ident, $heard:expr) => {
        match $heard {
            Ok(next) => Ok(within!(OperationState::$state, next)),
            Err(same) => Err(OperationState::$state(same)),
        }
    };
}

/// The one hold of a command.
pub fn hold_of(op: OpId) -> Hold
    ensures { result ≡ own_hold op }
{
    Hold { op, part: 0 }
}

/// The operation as it begins in that directory.
pub fn start(operation: Operation, dir: MadeDir) -> OperationState
    ensures { result ≡ begins_in operation dir }
{
    match operation {
        Operation::Look { name } => OperationState::Look(look::start(name, dir.dir())),
        Operation::List => OperationState::List(List { dir: dir.dir() }),
        Operation::Make { kind, name } => OperationState::Make(Make::New { kind, dir, name }),
        Operation::Delete { name } => {
            let dir = dir.dir();
            OperationState::Delete(Delete::Unbind {
                key: Key { dir, name },
            })
        }
        Operation::Rename { from, to } => OperationState::Rename(Rename::Find { dir, from, to }),
        Operation::Open { path, name } => {
            OperationState::Open(open::start(path, name, dir.dir()))
        }
        Operation::Blocks { name } => OperationState::Blocks(blocks::start(name, dir.dir())),
        Operation::Read { name } => OperationState::Read(read::start(name, dir.dir())),
        Operation::Seal { name } => OperationState::Seal(seal::start(name, dir.dir())),
    }
}

/// Its request, as that op.
pub fn ask(state: &OperationState, memory: &Memory, op: OpId) -> Result<Asked, NoMemory>
    requires { IsOfOneBlock state.now }
    ensures { IfOk result (λ asked. asked ≡ operation_asks memory.now.counts memory.now.memory op state.now) }
{
    match state {
        OperationState::Look(look) => look::ask(look),
        OperationState::List(list) => Ok(list::ask(list)),
        OperationState::Make(make) => make::ask(make, memory, op),
        OperationState::Delete(delete) => delete::ask(delete),
        OperationState::Rename(rename) => rename::ask(rename, op),
        OperationState::Open(opening) => open::ask(opening, op),
        OperationState::Append(append) => append::ask(append, memory, op),
        OperationState::Blocks(blocks) => blocks::ask(blocks),
        OperationState::Read(read) => read::ask(read),
        OperationState::Seal(seal) => seal::ask(seal),
    }
}

/// Where it goes on at the reply to its request, and what the actor learns of it is kept. For want of memory it is given back, and nothing
/// is kept.
pub fn hear(
    state: OperationState,
    memory: &mut Memory,
    op: OpId,
    reply: &AnyReply,
) -> Result<Next<OperationState, Answer>, OperationState>
    ensures ok { IfOk result (λ next. next ≡ operation_hears memory.old.counts memory.old.memory op state
        (operation_asks memory.old.counts memory.old.memory op state) reply.now) }
    ensures kept { OnOk result (memory.new ≡ record memory.old {
      memory = learnt (operation_learns op state (operation_asks memory.old.counts memory.old.memory op state) reply.now) memory.old.memory;
    }) }
    ensures err { IfErr result (λ same. same ≡ state) }
    ensures unchanged { OnErr result (memory.new ≡ memory.old) }
{
    match state {
        OperationState::Look(look) => Ok(within!(
            OperationState::Look,
            look::hear(look, memory, reply)
        )),
        OperationState::List(list) => heard!(List, list::hear(list, memory, reply)),
        OperationState::Make(make) => Ok(within!(
            OperationState::Make,
            make::hear(make, memory, op, reply)
        )),
        OperationState::Delete(delete) => Ok(within!(
            OperationState::Delete,
            delete::hear(delete, memory, reply)
        )),
        OperationState::Rename(rename) => Ok(within!(
            OperationState::Rename,
            rename::hear(rename, memory, op, reply)
        )),
        OperationState::Open(opening) => heard!(Open, open::hear(opening, memory, op, reply)),
        OperationState::Append(append) => heard!(Append, append::hear(append, memory, op, reply)),
        OperationState::Blocks(blocks) => heard!(Blocks, blocks::hear(blocks, memory, reply)),
        OperationState::Read(read) => heard!(Read, read::hear(read, memory, reply)),
        OperationState::Seal(seal) => Ok(within!(
            OperationState::Seal,
            seal::hear(seal, memory, reply)
        )),
    }
}
