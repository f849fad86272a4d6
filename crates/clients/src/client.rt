ghost use Rattle.std.specs.Prelude.{◌≡◌, ◌≢◌, ◌+◌, ◌^◌, ◌<◌, ◌≤◌, ◌++◌, [], ◌∷◌, max, IfOk, OnOk, OnErr, IsSome, IsNone, IsTrue};
ghost use Rattle.std.specs.Prelude.{MatchResult, is_some, true, false, vec_len, vec_capacity};
ghost use Rattle.tect_ids.specs.Places.{HasPlaces};
ghost use Rattle.memories.specs.Knowing.{IsActor};
ghost use Rattle.entry_words.specs.declared.entry.Refused.TheVariants as refusals;
ghost use Rattle.program_forms.specs.Lacks.{no_room};
ghost use Rattle.world_runs.specs.declared.event.Event.TheVariants as events;
ghost use Rattle.world_runs.specs.declared.event.Happening.TheVariants as happenings;
ghost use Rattle.world_runs.specs.Report.{transactions};
ghost use Rattle.clients.specs.Turns.{turned_by};
ghost use Rattle.clients.specs.Lives.{events_in, state_in, op_in, RefusesNext, idle_life, begun_life, refused_life, Begins, stopped_life};
ghost use Rattle.clients.specs.Lives.{IsLife};
ghost use Rattle.clients.specs.Steps.{OwnStep, WentAstray};

use crate::actor::Actor;
use crate::steps::take_step;
use entry_words::Note;
use passes::{Astray, Commits, Pass};
use program_calls::{Programs, Turned};
use std::alloc::Global;
use std::marker::Model;
use tect_ids::{Answer, Command, Counts, NoMemory, OpId, Place};
use world_runs::{Event, Happening};

/// An actor, with the pass that notes what it does. Contracts see what it noted, and the events of its ops that were refused.
#[derive(Drop)]
pub struct Client<P: Programs> {
    counts: Counts,
    actor: Actor<P>,
    pass: Pass,
    refused: Vec<Event>,
    transactions: u64,
}

impl<P: Programs> Model for Client<P> {
    ghost use Rattle.clients.specs.Lives.{ClientLife};

    ghost Value = { ClientLife };

    ghost use Rattle.clients.specs.ClientInside.{life_of, IsClient};

    ghost view = { life_of };

    ghost invariant = { IsClient P.rules };
}

/// The same command once more.
#[tactic(auto, using(entry_words::proofs::WordClones::same_command))]
fn again(command: &Command) -> Result<Command, NoMemory>
    ensures { IfOk result (λ same. same ≡ command.now) }
{
    Ok(command.clone()?)
}

/// Adds an event for which there is room. It takes no memory.
fn push_event(events: &mut Vec<Event>, event: Event)
    requires { vec_len events.old < vec_capacity events.old }
    ensures items { events.new.items ≡ events.old.items ++ event ∷ [] }
    ensures len { vec_len events.new ≡ vec_len events.old + 1 }
    ensures room { vec_capacity events.old ≤ vec_capacity events.new }
{
    if events.push(event).is_err() {
        unreachable!()
    }
}

fn turned_of(answer: Option<Answer>) -> Turned
    ensures { result ≡ turned_by answer }
{
    match answer {
        None => Turned::Going,
        Some(answer) => Turned::Done(answer),
    }
}

impl<P: Programs + Drop> Client<P> {
    /// The client with that actor's number, from 1 to 65, before it did anything, where each layer has that many shards.
    pub fn start(alloc: Global, actor: u32, counts: Counts) -> Result<Client<P>, NoMemory>
        requires actor { IsActor actor }
        requires places { HasPlaces counts }
        ensures { IfOk result (λ client. client ≡ idle_life actor counts) }
    {
        Ok(Client {
            counts,
            actor: Actor::start(alloc, actor, counts)?,
            pass: Pass::start(alloc, actor),
            refused: Vec::new(alloc),
            transactions: 0,
        })
    }

    // What is so of each client.
    fn known(&self)
        ensures { IsLife P.rules self.now }
    {
        let _actor = &self.actor;
    }

    /// The number of its actor. It takes no memory.
    pub fn actor(&self) -> u32
        ensures { result ≡ self.now.actor }
    {
        self.actor.op().actor
    }

    /// How many shards each layer has. It takes no memory.
    pub fn counts(&self) -> Counts
        ensures { result ≡ self.now.counts }
    {
        self.counts
    }

    /// The clock of its pass: no stamp exceeds it. It takes no memory.
    pub fn clock(&self) -> u64
        ensures { result ≡ self.now.clock }
    {
        self.pass.clock()
    }

    /// The op of its last command; number 0 before the first. It takes no memory.
    pub fn op(&self) -> OpId
        ensures op { result ≡ op_in P.rules self.now }
        ensures life { IsLife P.rules self.now }
    {
        self.known();
        self.actor.op()
    }

    /// Whether its last command goes on. It takes no memory.
    pub fn is_running(&self) -> bool
        ensures running { result ≡ is_some (state_in P.rules self.now).running }
        ensures life { IsLife P.rules self.now }
    {
        self.known();
        self.actor.is_running()
    }

    /// How many transactions its last command took so far, also after its end: never more than its pass has moments. It takes
    /// no memory.
    pub fn transactions(&self) -> u64
        ensures count { result ≡ transactions (events_in self.now) (op_in P.rules self.now) }
        ensures few { result ≤ 65536 }
    {
        self.transactions
    }

    /// Whether it may begin a command: its last one has ended, it has not stopped for good, and it began few enough. It takes
    /// no memory.
    pub fn can_begin(&self) -> bool
        ensures idle { IsTrue result → IsNone (state_in P.rules self.now).running }
        ensures goes_on { IsTrue result → (state_in P.rules self.now).stopped ≡ false }
        ensures few { IsTrue result → (state_in P.rules self.now).number + 1 < 2 ^ 31 }
        ensures may { IsNone (state_in P.rules self.now).running → (state_in P.rules self.now).stopped ≡ false
            → (state_in P.rules self.now).number + 1 < 2 ^ 31 → IsTrue result }
    {
        let actor = &self.actor;
        !actor.is_running() && !actor.has_stopped() && actor.op().number < (1 << 31) - 1
    }

    /// Makes the clock of its pass at least that number. It takes no memory.
    pub fn raise(&mut self, clock: u64)
        requires { clock + 1 < 2 ^ 64 }
        ensures raised { self.new ≡ record self.old { clock = max self.old.clock clock } }
        ensures life { IsLife P.rules self.new }
    {
        self.pass.raise(clock);
        self.known();
    }

    /// Begins its next op with that command, and notes it. Where its own history has not room for that and for the op's end,
    /// or its clock has come to the limit, the op is refused: it has its answer, which says so, and nothing is noted. For
    /// want of memory nothing is changed.
    pub fn begin(&mut self, command: Command) -> Result<(), NoMemory>
        requires idle { IsNone (state_in P.rules self.old).running }
        requires goes_on { (state_in P.rules self.old).stopped ≡ false }
        requires few { (state_in P.rules self.old).number + 1 < 2 ^ 31 }
        requires served { P.rules.serves command ≡ true }
        ensures ok { OnOk result (Begins P.rules self.old self.new command) }
        ensures err { OnErr result (self.new ≡ self.old) }
        ensures same { (self.new.counts ≡ self.old.counts) × (self.new.actor ≡ self.old.actor) }
        ensures life { IsLife P.rules self.new }
    {
        let begun = if self.pass.is_full_for_begin() {
            self.refuse(command)
        } else {
            self.note_begin(command)
        };
        self.known();
        begun
    }

    // The next op begins, and there is room to note it.
    fn note_begin(&mut self, command: Command) -> Result<(), NoMemory>
        requires idle { IsNone (state_in P.rules self.old).running }
        requires goes_on { (state_in P.rules self.old).stopped ≡ false }
        requires few { (state_in P.rules self.old).number + 1 < 2 ^ 31 }
        requires served { P.rules.serves command ≡ true }
        requires room { ¬ RefusesNext self.old }
        ensures ok { OnOk result (self.new ≡ begun_life P.rules self.old command) }
        ensures err { OnErr result (self.new ≡ self.old) }
    {
        self.pass.reserve_begin()?;
        let noted = again(&command)?;
        self.actor.begin(command)?;
        self.transactions = 0;
        let op = self.actor.op();
        let note = Note::Began { op, command: noted };
        if self.pass.note(note).is_err() {
            unreachable!()
        }
        Ok(())
    }

    // The next op is refused.
    fn refuse(&mut self, command: Command) -> Result<(), NoMemory>
        requires idle { IsNone (state_in P.rules self.old).running }
        requires goes_on { (state_in P.rules self.old).stopped ≡ false }
        requires few { (state_in P.rules self.old).number + 1 < 2 ^ 31 }
        requires served { P.rules.serves command ≡ true }
        requires full { RefusesNext self.old }
        ensures ok { OnOk result (self.new ≡ refused_life P.rules self.old command) }
        ensures err { OnErr result (self.new ≡ self.old) }
    {
        self.refused.reserve(2)?;
        self.actor.begin_refused();
        self.transactions = 0;
        let op = self.actor.op();
        let what = Happening::NotBegun { command };
        push_event(&mut self.refused, Event::Own { op, what });
        Ok(())
    }

    /// One step of its command: its next request is committed, if it asks one, and the command ends, if the reply gave its
    /// answer, or if it has one without asking. It ends too, with the answer that says so, for want of memory, and where its own
    /// history is full: then no transaction is done, but where the command found no memory to go on at the reply. An op that was
    /// refused ends at once. Where another machine was found than the one looked for, what the client noted and did is unchanged,
    /// and the command goes on no more: its next step ends it, as for want of memory.
    pub fn step<C: Commits>(&mut self, at: &mut C) -> Result<Turned, Astray>
        requires running { IsSome (state_in P.rules self.old).running }
        requires same { C.counts at.old ≡ self.old.counts }
        ensures counts { C.counts at.new ≡ C.counts at.old }
        ensures step { MatchResult result (OwnStep P.rules C.done at.old at.new self.old self.new)
            (λ e. WentAstray P.rules C.done at.old at.new self.old self.new (refusals.Astray e.want e.found)) }
        ensures same { (self.new.counts ≡ self.old.counts) × (op_in P.rules self.new ≡ op_in P.rules self.old) }
        ensures life { IsLife P.rules self.new }
    {
        let turned = if self.refused.is_empty() {
            self.go_on(at)
        } else {
            Ok(self.end_refused())
        };
        self.known();
        turned
    }

    // The step of an op that was not refused.
    fn go_on<C: Commits>(&mut self, at: &mut C) -> Result<Turned, Astray>
        requires running { IsSome (state_in P.rules self.old).running }
        requires same { C.counts at.old ≡ self.old.counts }
        requires noted { self.old.silent ≡ [] }
        ensures counts { C.counts at.new ≡ C.counts at.old }
        ensures step { MatchResult result (OwnStep P.rules C.done at.old at.new self.old self.new)
            (λ e. WentAstray P.rules C.done at.old at.new self.old self.new (refusals.Astray e.want e.found)) }
    {
        let step = take_step(&mut self.actor, &mut self.pass, at)?;
        self.transactions += step.transactions;
        Ok(turned_of(step.answer))
    }

    // An op that was refused ends.
    fn end_refused(&mut self) -> Turned
        requires running { IsSome (state_in P.rules self.old).running }
        requires refused { self.old.silent ≢ [] }
        ensures life { self.new ≡ record self.old {
          silent = self.old.silent ++ events.Own (op_in P.rules self.old) (happenings.Ended no_room) ∷ [];
        } }
        ensures told { result ≡ Turned.Done no_room }
    {
        let op = self.actor.op();
        self.actor.end();
        let answer = Answer::HistoryFull { place: Place(256) };
        let what = Happening::Ended { answer };
        push_event(&mut self.refused, Event::Own { op, what });
        Turned::Done(Answer::HistoryFull { place: Place(256) })
    }

    /// Stops for good, with its command unfinished. It takes no memory.
    pub fn stop(&mut self)
        requires running { IsSome (state_in P.rules self.old).running }
        ensures stopped { self.new ≡ stopped_life P.rules self.old }
        ensures life { IsLife P.rules self.new }
    {
        if self.refused.is_empty() {
            self.note_stop();
        } else {
            self.stop_refused();
        }
        self.known();
    }

    // Stops in an op that was not refused.
    fn note_stop(&mut self)
        requires running { IsSome (state_in P.rules self.old).running }
        requires noted { self.old.silent ≡ [] }
        ensures { self.new ≡ stopped_life P.rules self.old }
    {
        let op = self.actor.op();
        self.actor.stop();
        if self.pass.note(Note::Stopped { op }).is_err() {
            unreachable!()
        }
    }

    // Stops in an op that was refused.
    fn stop_refused(&mut self)
        requires running { IsSome (state_in P.rules self.old).running }
        requires refused { self.old.silent ≢ [] }
        ensures { self.new ≡ stopped_life P.rules self.old }
    {
        let op = self.actor.op();
        self.actor.stop();
        let what = Happening::Stopped;
        push_event(&mut self.refused, Event::Own { op, what });
    }

    /// Its pass. It takes no memory.
    pub fn pass(&self) -> &Pass
        ensures pass { (result.now.actor ≡ self.now.actor) × (result.now.clock ≡ self.now.clock)
            × (result.now.moments.items ≡ self.now.moments) }
        ensures life { IsLife P.rules self.now }
    {
        self.known();
        &self.pass
    }

    /// Its pass, and the events of its ops that were refused. It takes no memory.
    pub fn into_pass(self) -> (Pass, Vec<Event>)
        ensures pass { (result.0.actor ≡ self.actor) × (result.0.clock ≡ self.clock) × (result.0.moments.items ≡ self.moments) }
        ensures silent { result.1.items ≡ self.silent }
        ensures life { IsLife P.rules self }
    {
        self.known();
        let Client { pass, refused, .. } = self;
        (pass, refused)
    }
}
