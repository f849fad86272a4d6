ghost use Rattle.std.specs.Prelude.{◌≡◌, ◌+◌, ◌^◌, ◌<◌, IfOk, OnOk, OnErr, IsSome, IsNone, true, false, is_some};
ghost use Rattle.std.specs.Option.{ForSome, option_copied};
ghost use Rattle.store_rules.specs.declared.any.AnyReq.{AnyReq};
ghost use Rattle.tect_ids.specs.Places.{HasPlaces};
ghost use Rattle.memories.specs.Knowing.{IsActor};
ghost use Rattle.world_runs.specs.Actors.{idle_actor, begun, not_begun, program_ask};
ghost use Rattle.clients.specs.ActorState.{op_of, next_op_of};
ghost use Rattle.clients.specs.ActorCalls.{looked, asks_now, says_now, IsPlainOf, Advances, let_go, left_behind};

use memories::Memory;
use program_calls::{Programs, Went};
use program_forms::Standing;
use std::alloc::Global;
use std::marker::Model;
use store_rules::AnyReply;
use tect_calls::Asked;
use tect_ids::{Answer, Command, Counts, NoMemory, OpId, Place};

/// An actor: how many commands it began, whether it stopped for good, what it knows between commands, and where its running
/// command stands.
#[derive(Drop)]
pub struct Actor<P: Programs> {
    alloc: Global,
    number: u32,
    stopped: bool,
    memory: Memory,
    running: Option<Standing<P>>,
    // The answer of an op that was refused, to be lent.
    no_room: Answer,
}

impl<P: Programs> Model for Actor<P> {
    ghost use Rattle.std.specs.Coded.{codes};
    ghost use Rattle.clients.specs.ActorState.{ActorState};
    ghost use Rattle.memories.specs.Codes.{opened_files_code};

    ghost Value = { ActorState P };

    ghost coded = { Prim.hlevel (codes, opened_files_code, P.code) };

    ghost use Rattle.clients.specs.ActorInside.{state_of, HasNoRoom};

    ghost view = { state_of };

    ghost invariant = { HasNoRoom };
}

impl<P: Programs + Drop> Actor<P> {
    /// The actor with that number, from 1 to 65, before it did anything, where each layer has that many shards.
    pub fn start(alloc: Global, actor: u32, counts: Counts) -> Result<Actor<P>, NoMemory>
        requires actor { IsActor actor }
        requires places { HasPlaces counts }
        ensures { IfOk result (λ started. started ≡ record { actor = actor; counts = counts; state = idle_actor }) }
    {
        let memory = Memory::start(alloc, actor, counts)?;
        Ok(Actor {
            alloc,
            number: 0,
            stopped: false,
            memory,
            running: None,
            no_room: Answer::HistoryFull { place: Place(256) },
        })
    }

    /// The op of its last command; number 0 before the first. It takes no memory.
    pub fn op(&self) -> OpId
        ensures op { result ≡ op_of self.now }
        ensures own { ForSome self.now.state.running (λ running. running.op ≡ op_of self.now) }
    {
        OpId {
            actor: self.memory.actor(),
            number: self.number,
        }
    }

    /// Whether its last command goes on. It takes no memory.
    pub fn is_running(&self) -> bool
        ensures { result ≡ is_some self.now.state.running }
    {
        self.running.is_some()
    }

    /// Whether it stopped for good. It takes no memory.
    pub fn has_stopped(&self) -> bool
        ensures { result ≡ self.now.state.stopped }
    {
        self.stopped
    }

    // The op of its next command.
    fn next_op(&self) -> OpId
        requires { self.now.state.number + 1 < 2 ^ 32 }
        ensures { result ≡ next_op_of self.now }
    {
        OpId {
            actor: self.memory.actor(),
            number: self.number + 1,
        }
    }

    /// Begins its next op with that command. For want of memory it stays as it was.
    pub fn begin(&mut self, command: Command) -> Result<(), NoMemory>
        requires idle { IsNone self.old.state.running }
        requires goes_on { self.old.state.stopped ≡ false }
        requires few { self.old.state.number + 1 < 2 ^ 32 }
        requires served { P.rules.serves command ≡ true }
        ensures ok { OnOk result (self.new ≡ record self.old {
          state = begun P.rules self.old.counts self.old.state (next_op_of self.old) command;
        }) }
        ensures err { OnErr result (self.new ≡ self.old) }
    {
        let op = self.next_op();
        let state = P::start(self.alloc, &self.memory, op, command)?;
        self.number += 1;
        self.running = Some(Standing::Goes { state });
        Ok(())
    }

    /// Begins its next op, which has its answer from the first: there is no room to note that it begins. It takes no memory.
    pub fn begin_refused(&mut self)
        requires idle { IsNone self.old.state.running }
        requires goes_on { self.old.state.stopped ≡ false }
        requires few { self.old.state.number + 1 < 2 ^ 32 }
        ensures { self.new ≡ record self.old { state = not_begun self.old.state (next_op_of self.old) } }
    {
        self.number += 1;
        self.running = Some(Standing::NoRoom);
    }

    /// The request that its command makes next, with the tokens that it needs; none where it has its answer, or goes on no
    /// more, or where no command runs. What its command can look up is looked up before, also where memory is wanting then.
    pub fn next(&mut self) -> Result<Option<Asked>, NoMemory>
        ensures asks { IfOk result
            (λ req. req ≡ program_ask P.rules self.old.counts self.old.state.memory self.old.state.running) }
        ensures looked { self.new ≡ looked P.rules self.old }
    {
        let op = self.op();
        match &mut self.running {
            Some(Standing::Goes { state }) => state.next(&mut self.memory, op),
            Some(Standing::Left) | Some(Standing::NoRoom) | None => Ok(None),
        }
    }

    /// Its command goes on at the reply to the request that `next` gave, and is let go where that gave its answer. What the reply
    /// told is kept: all of it, or for want of memory only what has to be kept. For want of memory to go on it stands at `Left`,
    /// and has no answer. In each case a serial is taken where an object was made.
    pub fn advance(&mut self, reply: &AnyReply) -> Result<Went, NoMemory>
        requires asked { IsSome (asks_now P.rules self.old) }
        requires few { self.old.state.memory.serial + 1 < 2 ^ 32 }
        ensures { (req : AnyReq) → asks_now P.rules self.old ≡ Some req → Advances P.rules self.old self.new req reply.now result }
    {
        let op = self.op();
        let Some(Standing::Goes { mut state }) = self.running.take() else {
            unreachable!()
        };
        match state.hear(&mut self.memory, op, reply) {
            Ok(Went { answer: None, kept }) => {
                self.running = Some(Standing::Goes { state });
                Ok(Went { answer: None, kept })
            }
            Ok(went) => Ok(went),
            Err(NoMemory) => {
                self.running = Some(Standing::Left);
                Err(NoMemory)
            }
        }
    }

    /// The answer that its command has come to without a request, and that of an op that was refused. It takes no memory.
    pub fn finished(&self) -> Option<&Answer>
        ensures says { option_copied result ≡ says_now P.rules self.now }
        ensures plain { IsPlainOf self.now.state.running (option_copied result) }
    {
        match &self.running {
            Some(Standing::Goes { state }) => state.answer(),
            Some(Standing::NoRoom) => Some(&self.no_room),
            Some(Standing::Left) | None => None,
        }
    }

    /// Ends its command. It takes no memory.
    pub fn end(&mut self)
        ensures { self.new ≡ let_go self.old }
    {
        self.running = None;
    }

    /// Its command goes on no more, and has no answer. It takes no memory.
    pub fn leave(&mut self)
        ensures { self.new ≡ left_behind self.old }
    {
        if self.running.is_some() {
            self.running = Some(Standing::Left);
        }
    }

    /// Stops for good, with its command unfinished. It takes no memory.
    pub fn stop(&mut self)
        ensures { self.new ≡ record self.old { state = record self.old.state { stopped = true; running = None } } }
    {
        self.stopped = true;
        self.running = None;
    }
}
