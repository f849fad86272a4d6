ghost use Rattle.std.specs.Prelude.{◌≡◌, ◌+◌, ◌^◌, ◌<◌, true, Some, IfOk, IsSome};
ghost use Rattle.std.specs.Option.{option_copied};
ghost use Rattle.store_rules.specs.declared.any.AnyReq.{AnyReq};
ghost use Rattle.program_forms.specs.Kinds.{Programs as Rules, asked_by, next_does, turned};
ghost use Rattle.program_calls.specs.Hearing.{Hears, IsPlain, SaysIn};
ghost use Rattle.program_calls.specs.Keeping.{KeepsSerial};

use crate::went::Went;
use memories::Memory;
use std::alloc::Global;
use store_rules::AnyReply;
use tect_calls::Asked;
use tect_ids::{Answer, Command, NoMemory, OpId};

/// The programs of all commands, over the states of a running command. What each does is told by its rules.
pub trait Programs: Sized {
    ghost rules: { Rules Self };

    /// The state in which a command begins, by what its actor knows.
    fn start(alloc: Global, memory: &Memory, op: OpId, command: Command) -> Result<Self, NoMemory>
        requires served { rules.serves command ≡ true }
        ensures { IfOk result (λ state. state ≡ rules.starts memory.now.counts memory.now.memory command) };

    /// Looks up in the memory what it can, and gives the request that the command makes next, with the tokens that it needs.
    /// None where it has its answer. For want of memory it has looked up all the same.
    fn next(&mut self, memory: &mut Memory, op: OpId) -> Result<Option<Asked>, NoMemory>
        ensures asks { IfOk result (λ asked. asked ≡ asked_by (next_does rules.kind memory.old.counts memory.old.memory op self.old)) }
        ensures state { self.new ≡ (turned rules.kind memory.old.counts memory.old.memory op self.old).state }
        ensures memory { memory.new ≡ record memory.old {
          memory = (turned rules.kind memory.old.counts memory.old.memory op self.old).memory;
        } };

    /// The answer that the command has come to, if it has. It takes no memory.
    fn answer(&self) -> Option<&Answer>
        ensures says { SaysIn rules self.now (option_copied result) }
        ensures plain { IsPlain (option_copied result) };

    /// Goes on at the reply to the request that `next` gave, and gives the answer where that ends the command. The actor keeps
    /// what the reply told: all of it, or for want of memory only what it has to keep. Its serial is taken where the reply says
    /// that an object was made. Where memory is wanting to go on, or for what has to be kept, all else is as before.
    fn hear(&mut self, memory: &mut Memory, op: OpId, reply: &AnyReply) -> Result<Went, NoMemory>
        requires asked { IsSome (asked_by (rules.kind.does memory.old.counts memory.old.memory op self.old)) }
        requires serial { memory.old.memory.serial + 1 < 2 ^ 32 }
        ensures heard { (req : AnyReq) → asked_by (rules.kind.does memory.old.counts memory.old.memory op self.old) ≡ Some req
            → Hears rules memory.old.counts memory.old.memory memory.new.memory op self.old self.new req reply.now result }
        ensures same { memory.new ≡ record memory.old { memory = memory.new.memory } };

    /// What is looked up takes no serial.
    ghost keeps_serial: { KeepsSerial rules };
}
