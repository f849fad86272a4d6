ghost use Rattle.std.specs.Prelude.{◌≡◌, ◌+◌, ◌^◌, ◌<◌, if◌then◌else◌, IfOk, IfErr, OnOk, OnErr};
ghost use Rattle.program_calls.specs.Hearing.{IsPlain, GoesOn};
ghost use Rattle.program_forms.specs.Memories.{learnt};
ghost use Rattle.store_rules.specs.Views.{is_made};
ghost use Rattle.op_names.specs.Going.{answer_of, went_on, learns};
ghost use Rattle.op_names.specs.OneBlock.{RunsWithOneBlock};

use crate::start::start;
use crate::walk::{self, Going};
use memories::Memory;
use program_calls::{Programs, Went};
use program_parts::Next;
use std::alloc::Global;
use std::marker::Model;
use std::mem;
use store_rules::AnyReply;
use tect_calls::Asked;
use tect_ids::{Answer, Command, NoMemory, OpId};

/// A running command: it goes on, with the tokens that its next request needs, or has its answer, which is no want of memory or of room.
#[derive(Drop)]
pub struct Running {
    state: Next<Going, Answer>,
}

impl Model for Running {
    ghost use Rattle.program_rules.specs.Served.{Program};
    ghost use Rattle.op_names.specs.RunningInside.{IsRunning};

    ghost Value = { Program };

    ghost view = { λ running. running.state };

    ghost invariant = { IsRunning };
}

// Where a command goes on at the reply to its request, and what the actor learns of it is kept. For want of memory it is given back, and
// nothing is kept.
fn hear_reply(
    state: Next<Going, Answer>,
    memory: &mut Memory,
    op: OpId,
    reply: &AnyReply,
) -> Result<Next<Going, Answer>, Next<Going, Answer>>
    ensures ok { IfOk result (λ next. next ≡ went_on memory.old.counts memory.old.memory op state reply.now) }
    ensures kept { OnOk result (memory.new
        ≡ record memory.old { memory = learnt (learns memory.old.counts memory.old.memory op state reply.now) memory.old.memory }) }
    ensures err { IfErr result (λ same. same ≡ state) }
    ensures unchanged { OnErr result (memory.new ≡ memory.old) }
{
    match state {
        Next::Goes { state } => match walk::hear(state, memory, op, reply) {
            Ok(next) => Ok(next),
            Err(state) => Err(Next::Goes { state }),
        },
        Next::Comes { result: answer } => Ok(Next::Comes { result: answer }),
    }
}

fn put(state: &mut Next<Going, Answer>, next: Next<Going, Answer>)
    ensures { state.new ≡ next }
{
    *state = next;
}

// The serial is taken where the reply says that an object was made.
fn count_made(memory: &mut Memory, reply: &AnyReply)
    requires { memory.old.memory.serial + 1 < 2 ^ 32 }
    ensures { memory.new ≡ record memory.old {
      memory = record memory.old.memory {
        serial = if is_made reply.now then memory.old.memory.serial + 1 else memory.old.memory.serial;
      };
    } }
{
    if reply.is_made() {
        memory.take_serial();
    }
}

impl Running {
    // Goes on at the reply to its request, and what the actor learns of it is kept. For want of memory nothing is changed.
    fn go_on(&mut self, memory: &mut Memory, op: OpId, reply: &AnyReply) -> Result<(), NoMemory>
        ensures ok { OnOk result (self.new ≡ went_on memory.old.counts memory.old.memory op self.old reply.now) }
        ensures kept { OnOk result (memory.new
            ≡ record memory.old { memory = learnt (learns memory.old.counts memory.old.memory op self.old reply.now) memory.old.memory }) }
        ensures err { OnErr result (self.new ≡ self.old) }
        ensures unchanged { OnErr result (memory.new ≡ memory.old) }
    {
        let nothing = Next::Comes {
            result: Answer::Done,
        };
        match hear_reply(mem::replace(&mut self.state, nothing), memory, op, reply) {
            Ok(next) => {
                put(&mut self.state, next);
                Ok(())
            }
            Err(same) => {
                put(&mut self.state, same);
                Err(NoMemory)
            }
        }
    }

    // Gives the answer away, where the command has one.
    fn take_answer(&mut self) -> Option<Answer>
        ensures answer { result ≡ answer_of self.old }
        ensures plain { IsPlain result }
        ensures goes { GoesOn self.old self.new result }
    {
        match &mut self.state {
            Next::Comes { result: answer } => Some(mem::replace(answer, Answer::Done)),
            Next::Goes { .. } => None,
        }
    }
}

impl Programs for Running {
    ghost use Rattle.program_rules.specs.Served.{programs};
    ghost use Rattle.op_names.specs.Looking.{no_serial};

    ghost rules = { programs };

    ghost keeps_serial = { no_serial };

    fn start(
        _alloc: Global,
        memory: &Memory,
        _op: OpId,
        command: Command,
    ) -> Result<Running, NoMemory> {
        Ok(Running {
            state: start(memory, command)?,
        })
    }

    fn next(&mut self, memory: &mut Memory, op: OpId) -> Result<Option<Asked>, NoMemory> {
        match &self.state {
            Next::Goes { state } => Ok(Some(walk::ask(state, memory, op)?)),
            Next::Comes { .. } => Ok(None),
        }
    }

    fn answer(&self) -> Option<&Answer> {
        match &self.state {
            Next::Comes { result: answer } => Some(answer),
            Next::Goes { .. } => None,
        }
    }

    fn hear(&mut self, memory: &mut Memory, op: OpId, reply: &AnyReply) -> Result<Went, NoMemory> {
        match self.go_on(memory, op, reply) {
            Ok(()) => {
                count_made(memory, reply);
                Ok(Went {
                    answer: self.take_answer(),
                    kept: true,
                })
            }
            Err(NoMemory) => {
                count_made(memory, reply);
                Err(NoMemory)
            }
        }
    }
}
