ghost use Rattle.std.specs.Prelude.{◌≡◌, ◌+◌, ◌^◌, ◌<◌, ◌≤◌, [], ◌∷◌, OnOk, OnErr, IfOk, IsSome, IsNone, IsTrue, is_some};
ghost use Rattle.std.specs.Prelude.{true, false, map};
ghost use Rattle.tect_ids.specs.Places.{HasPlaces};
ghost use Rattle.store_rules.specs.Dumps.{store_dump};
ghost use Rattle.world_runs.specs.Limits.{KeepsLimits};
ghost use Rattle.world_runs.specs.declared.event.Event.TheVariants as events;
ghost use Rattle.world_runs.specs.declared.event.Happening.TheVariants as happenings;
ghost use Rattle.world_runs.specs.Moments.{IsWorldRun};
ghost use Rattle.world_runs.specs.Report.{transactions};
ghost use Rattle.world_lives.specs.Life.{Life, present, grown, last_op, next_op};
ghost use Rattle.world_lives.specs.Steps.{HasBegun, Stepped, RanToEnd, GoesOn};
ghost use Rattle.world_lives.specs.Told.{IsTold};

use crate::acting::{begin_client, idle_clients, step_client, stop_client};
use crate::history::{moments_by_marks, steps_count_up};
use clients::Client;
use entry_words::Moment;
use kept_shards::KeptShards;
use program_calls::{Programs, Turned};
use std::alloc::Global;
use std::marker::Model;
use tect_ids::{Answer, Command, Counts, DumpLine, NoMemory, OpId};
use world_lives::{Mark, is_short, push_mark};

/// For how many marks there is room at least behind each call but a stop: one for the stop of each actor.
const SPARE: usize = 65;

/// All shards with their histories, and all actors with their passes, on one thread. Contracts see its counts and its
/// history: the events of all actors and the dumps, in the order in which they were done.
///
/// Before each transaction and each note the clock of the acting pass is raised to the last stamp of the run, so that the
/// stamps rise in that order too.
#[derive(Drop)]
pub struct World<P: Programs> {
    alloc: Global,
    shards: KeptShards,
    clients: Vec<Client<P>>,
    clock: u64,
    order: Vec<Mark>,
}

impl<P: Programs> Model for World<P> {
    ghost use Rattle.world_lives.specs.Life.{Life};

    ghost Value = { Life };

    ghost use Rattle.tect_world.specs.Inside.{life_of, IsWorld};

    ghost view = { life_of };

    ghost invariant = { IsWorld P.rules };
}

impl<P: Programs + Drop> World<P> {
    /// The world before anything was done: the root alone, and idle actors.
    pub fn start(alloc: Global, counts: Counts) -> Result<World<P>, NoMemory>
        requires places { HasPlaces counts }
        ensures { IfOk result (λ world. world ≡ record { counts = counts; history = [] }) }
    {
        let shards = KeptShards::start(alloc, counts)?;
        let clients = idle_clients(alloc, counts)?;
        Ok(World {
            alloc,
            shards,
            clients,
            clock: 0,
            order: Vec::new(alloc),
        })
    }

    // What is so of each world.
    fn known(&self)
        ensures run { IsWorldRun P.rules self.now.counts self.now.history }
        ensures limits { KeepsLimits P.rules self.now.counts self.now.history }
    {
        let _shards = &self.shards;
    }

    /// Whether the actor may begin a command: its last one has ended, it has not stopped for good, and it began few enough.
    /// It takes no memory.
    pub fn can_begin(&self, actor: u32) -> bool
        requires { (1 ≤ actor) × (actor ≤ 65) }
        ensures idle { IsTrue result → IsNone ((present P.rules self.now).actors actor).running }
        ensures goes_on { IsTrue result → ((present P.rules self.now).actors actor).stopped ≡ false }
        ensures few { IsTrue result → ((present P.rules self.now).actors actor).number + 1 < 2 ^ 31 }
        ensures may { IsNone ((present P.rules self.now).actors actor).running → ((present P.rules self.now).actors actor).stopped ≡ false
            → ((present P.rules self.now).actors actor).number + 1 < 2 ^ 31 → IsTrue result }
        ensures run { IsWorldRun P.rules self.now.counts self.now.history }
        ensures limits { KeepsLimits P.rules self.now.counts self.now.history }
    {
        self.known();
        self.clients[actor as usize - 1].can_begin()
    }

    /// The actor begins its next op with that command, and does no transaction. Where its own history has not room for the op,
    /// the op is refused: it has its answer, `HistoryFull`, which the next step gives. For want of memory nothing is changed.
    pub fn begin(&mut self, actor: u32, command: Command) -> Result<(), NoMemory>
        requires actor { (1 ≤ actor) × (actor ≤ 65) }
        requires idle { IsNone ((present P.rules self.old).actors actor).running }
        requires goes_on { ((present P.rules self.old).actors actor).stopped ≡ false }
        requires few { ((present P.rules self.old).actors actor).number + 1 < 2 ^ 31 }
        requires served { P.rules.serves command ≡ true }
        ensures ok { OnOk result (HasBegun self.old self.new (next_op (present P.rules self.old) actor) command) }
        ensures err { OnErr result (self.new ≡ self.old) }
        ensures run { IsWorldRun P.rules self.new.counts self.new.history }
        ensures limits { KeepsLimits P.rules self.new.counts self.new.history }
    {
        self.known();
        self.order.reserve(SPARE + 1)?;
        is_short(self.order.as_slice());
        let client = &mut self.clients[actor as usize - 1];
        let begun = begin_client(client, &mut self.clock, &mut self.order, command);
        self.known();
        begun
    }

    /// One step of the actor's command: its next transaction, if it asks one, and its end, if it then has its answer. For
    /// want of memory, or of room in its own history, its command ends with the answer that says so; behind a transaction
    /// that was done only where memory is wanting to go on. Where memory is wanting even to note that, nothing is changed.
    pub fn step(&mut self, actor: u32) -> Result<Turned, NoMemory>
        requires actor { (1 ≤ actor) × (actor ≤ 65) }
        requires running { IsSome ((present P.rules self.old).actors actor).running }
        ensures ok { IfOk result (Stepped P.rules self.old self.new (last_op (present P.rules self.old) actor)) }
        ensures err { OnErr result (self.new ≡ self.old) }
        ensures run { IsWorldRun P.rules self.new.counts self.new.history }
        ensures limits { KeepsLimits P.rules self.new.counts self.new.history }
    {
        self.known();
        self.order.reserve(SPARE + 2)?;
        is_short(self.order.as_slice());
        let client = &mut self.clients[actor as usize - 1];
        let (shards, clock) = (&mut self.shards, &mut self.clock);
        let turned = step_client(shards, client, clock, &mut self.order);
        self.known();
        Ok(turned)
    }

    /// Steps until the command ends, also for want of memory. Where memory is wanting even to note that, it stands where it
    /// came to.
    pub fn run(&mut self, actor: u32) -> Result<Answer, NoMemory>
        requires actor { (1 ≤ actor) × (actor ≤ 65) }
        requires running { IsSome ((present P.rules self.old).actors actor).running }
        ensures ok { IfOk result (RanToEnd self.old self.new (last_op (present P.rules self.old) actor)) }
        ensures err { OnErr result (GoesOn self.old self.new (last_op (present P.rules self.old) actor)) }
        ensures run { IsWorldRun P.rules self.new.counts self.new.history }
        ensures limits { KeepsLimits P.rules self.new.counts self.new.history }
    {
        self.known();
        'steps: loop {
            match self.step(actor)? {
                Turned::Going => {}
                Turned::Done(answer) => return Ok(answer),
            }
        }
    }

    /// The actor stops for good, with its command unfinished. Where its command has ended nothing is changed. It takes no memory.
    pub fn stop(&mut self, actor: u32)
        requires actor { (1 ≤ actor) × (actor ≤ 65) }
        ensures stops { IsSome ((present P.rules self.old).actors actor).running
            → self.new ≡ grown self.old (events.Own (last_op (present P.rules self.old) actor) happenings.Stopped ∷ []) }
        ensures same { IsNone ((present P.rules self.old).actors actor).running → self.new ≡ self.old }
        ensures run { IsWorldRun P.rules self.new.counts self.new.history }
        ensures limits { KeepsLimits P.rules self.new.counts self.new.history }
    {
        if !self.is_running(actor) {
            return;
        }
        self.stop_running(actor);
    }

    // Stops an actor whose command goes on.
    fn stop_running(&mut self, actor: u32)
        requires actor { (1 ≤ actor) × (actor ≤ 65) }
        requires running { IsSome ((present P.rules self.old).actors actor).running }
        ensures stops { self.new ≡ grown self.old (events.Own (last_op (present P.rules self.old) actor) happenings.Stopped ∷ []) }
        ensures run { IsWorldRun P.rules self.new.counts self.new.history }
        ensures limits { KeepsLimits P.rules self.new.counts self.new.history }
    {
        self.known();
        is_short(self.order.as_slice());
        let client = &mut self.clients[actor as usize - 1];
        stop_client(client, &mut self.clock, &mut self.order);
        self.known();
    }

    /// Dumps the whole store: the lines of its directories, each followed by its entries, of its files, of its blocks and of its
    /// chunks. For want of memory nothing is changed.
    pub fn dump(&mut self) -> Result<Vec<DumpLine>, NoMemory>
        ensures ok { OnOk result (self.new ≡ grown self.old (events.Dumped ∷ [])) }
        ensures lines { IfOk result (λ lines. lines.items ≡ store_dump (present P.rules self.old).store) }
        ensures err { OnErr result (self.new ≡ self.old) }
        ensures run { IsWorldRun P.rules self.new.counts self.new.history }
        ensures limits { KeepsLimits P.rules self.new.counts self.new.history }
    {
        self.known();
        self.order.reserve(SPARE + 1)?;
        is_short(self.order.as_slice());
        let lines = self.shards.dump()?;
        push_mark(&mut self.order, Mark::Dump);
        self.known();
        Ok(lines)
    }

    /// Whether the actor's last command goes on.
    pub fn is_running(&self, actor: u32) -> bool
        requires { (1 ≤ actor) × (actor ≤ 65) }
        ensures running { result ≡ is_some ((present P.rules self.now).actors actor).running }
        ensures run { IsWorldRun P.rules self.now.counts self.now.history }
        ensures limits { KeepsLimits P.rules self.now.counts self.now.history }
    {
        self.known();
        self.clients[actor as usize - 1].is_running()
    }

    /// The op of the actor's last command.
    pub fn last_op(&self, actor: u32) -> OpId
        requires { (1 ≤ actor) × (actor ≤ 65) }
        ensures op { result ≡ last_op (present P.rules self.now) actor }
        ensures run { IsWorldRun P.rules self.now.counts self.now.history }
        ensures limits { KeepsLimits P.rules self.now.counts self.now.history }
    {
        self.known();
        self.clients[actor as usize - 1].op()
    }

    /// How many transactions the actor's last command took so far, also after its end: never more than its pass has moments.
    pub fn transactions(&self, actor: u32) -> u64
        requires { (1 ≤ actor) × (actor ≤ 65) }
        ensures few { result ≤ 65536 }
        ensures count { result ≡ transactions self.now.history (last_op (present P.rules self.now) actor) }
        ensures run { IsWorldRun P.rules self.now.counts self.now.history }
        ensures limits { KeepsLimits P.rules self.now.counts self.now.history }
    {
        self.known();
        self.clients[actor as usize - 1].transactions()
    }

    /// All that was done, as the passes of all actors keep it, in the order in which it was done. For want of memory there is no
    /// list, and the world is as before.
    pub fn history(&self) -> Result<Vec<&Moment>, NoMemory>
        ensures { IfOk result (λ moments. IsTold self.now (map (λ m. m.now) moments.items)) }
    {
        let (clients, order) = (self.clients.as_slice(), self.order.as_slice());
        steps_count_up(clients);
        match moments_by_marks(self.alloc, clients, order) {
            Ok(moments) => Ok(moments),
            Err(NoMemory) => Err(NoMemory),
        }
    }
}
