ghost use Rattle.std.specs.Prelude.{◌≡◌, ℕ, ◌+◌, ◌<◌, ◌≤◌, ◌^◌, [], ◌∷◌, List, IfOk, IfErr, OnOk, IsSome, IsNone, true, false, is_some};
ghost use Rattle.tect_ids.specs.declared.ids.Counts.{Counts};
ghost use Rattle.entry_words.specs.declared.entry.Label.{Label};
ghost use Rattle.world_runs.specs.declared.event.Event.{Event};
ghost use Rattle.world_runs.specs.declared.event.Event.TheVariants as events;
ghost use Rattle.world_runs.specs.declared.event.Happening.TheVariants as happenings;
ghost use Rattle.world_runs.specs.Actors.{Actor};
ghost use Rattle.world_runs.specs.Report.{transactions};
ghost use Rattle.program_calls.specs.declared.turned.Turned.TheVariants.{Going};
ghost use Rattle.players.specs.Players.{op_at, next_at, HasBegun, IsFault, IsPlayer, StepsOnce};

use crate::fault::RacerFault;
use program_calls::{Programs, Turned};
use tect_ids::{Command, NoMemory};

/// Whoever does the lines of one client at a place of type `At`: it begins commands of one actor, and goes on with each of
/// them step by step, by the programs `P`.
pub trait Player<P: Programs, At> {
    /// How many shards each layer has there.
    ghost counts: { At → Counts };

    /// The player and the place belong together.
    ghost fits: { Self → At → Type 0 };

    /// The number of its actor.
    ghost actor: { Self → ℕ };

    /// The events among which its own are.
    ghost history: { Self → At → List Event };

    /// The state of its actor after them.
    ghost state: { Self → At → Actor P };

    /// It grew by these events of its own.
    ghost grows: { Self → At → Self → At → List Event → Type 0 };

    /// At most how many steps its command goes on.
    ghost left: { Self → At → ℕ };

    /// What is so of another machine that was found than the one that was looked for.
    ghost astray: { Counts → Label → Label → Type 0 };

    /// Stands for its contract alone: what is so of each player.
    fn note_laws(&self)
        ensures { IsPlayer P.rules counts fits actor history state grows };

    /// The number of its actor. It takes no memory.
    fn actor(&self) -> u32
        ensures { result ≡ actor self.now };

    /// Whether its last command goes on. It takes no memory.
    fn is_running(&self, at: &At) -> bool
        requires { fits self.now at.now }
        ensures { result ≡ is_some (state self.now at.now).running };

    /// The number of its last command, from 1 on; 0 before the first. It takes no memory.
    fn number(&self, at: &At) -> u32
        requires { fits self.now at.now }
        ensures { result ≡ (state self.now at.now).number };

    /// How many transactions its last command took so far, also after its end. It takes no memory.
    fn transactions(&self, at: &At) -> u32
        requires { fits self.now at.now }
        ensures { result ≡ transactions (history self.now at.now) (op_at (actor self.now) (state self.now at.now)) };

    /// Its next op begins the command, or is refused.
    fn begin(&mut self, at: &mut At, command: Command) -> Result<(), NoMemory>
        requires fits { fits self.old at.old }
        requires idle { IsNone (state self.old at.old).running }
        requires goes_on { (state self.old at.old).stopped ≡ false }
        requires few { (state self.old at.old).number + 1 < 2 ^ 31 }
        requires served { P.rules.serves command ≡ true }
        ensures begins { OnOk result
            (HasBegun (grows self.old at.old self.new at.new) (next_at (actor self.old) (state self.old at.old)) command) }
        ensures fits { OnOk result (fits self.new at.new) }
        ensures counts { counts at.new ≡ counts at.old };

    /// One step of its command: a transaction, after which it goes on, or its end.
    fn step(&mut self, at: &mut At) -> Result<Turned, RacerFault>
        requires fits { fits self.old at.old }
        requires running { IsSome (state self.old at.old).running }
        ensures step { IfOk result (StepsOnce (grows self.old at.old self.new at.new) (op_at (actor self.old) (state self.old at.old))) }
        ensures nearer { IfOk result (λ turned. turned ≡ Going → left self.new at.new < left self.old at.old) }
        ensures fits { OnOk result (fits self.new at.new) }
        ensures counts { counts at.new ≡ counts at.old }
        ensures fault { IfErr result (IsFault astray (counts at.old)) };

    /// Stops for good, with its command unfinished. It takes no memory.
    fn stop(&mut self, at: &mut At)
        requires fits { fits self.old at.old }
        requires running { IsSome (state self.old at.old).running }
        ensures stops { grows self.old at.old self.new at.new
            (events.Own (op_at (actor self.old) (state self.old at.old)) happenings.Stopped ∷ []) }
        ensures fits { fits self.new at.new }
        ensures counts { counts at.new ≡ counts at.old };
}
