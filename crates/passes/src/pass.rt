ghost use Rattle.std.specs.Prelude.{◌≡◌, ◌+◌, ◌-◌, ◌<◌, ◌≤◌, ◌^◌, [], ◌∷◌, ◌++◌, length, Some, None, max, OnOk, OnErr};
ghost use Rattle.std.specs.Prelude.{IsOk, IsTrue, ◌↔◌, false, true};
ghost use Rattle.passes.specs.Passes.{IsPass, IsPass-prop, aside};
ghost use Rattle.store_rules.specs.ReplyBytes.{reply_bytes};

use crate::log::Log;
use crate::receipt::Receipt;
use entry_words::{CLOCK_LIMIT, Entry, Moment, Note, Refused};
use program_forms::Heard;
use std::alloc::Global;
use store_rules::{AnyReply, AnyReq};
use tect_ids::{Command, NoMemory, OpId, Place};

/// The most entries and notes of a pass.
pub const MOST_MOMENTS: u32 = 65_536;

/// With as many bytes of replies kept, a pass takes no further entry.
pub const MOST_BYTES: u128 = 33_554_432;

/// What one actor did: its entries and notes in order, and a clock that no stamp of them exceeds.
#[derive(Drop)]
pub struct Pass {
    actor: u32,
    clock: u64,
    steps: u32,
    bytes: u128,
    running: Option<OpId>,
    moments: Log<Moment>,
    ghost known: { IsPass actor clock steps bytes running moments } by { IsPass-prop actor clock steps bytes running moments },
}

impl Pass {
    ghost use Rattle.passes.specs.Commits.{IsFull, IsFullForBegin, MayNote, begins, local_of, op_number, pass_place, spare_of, used};
    ghost use Rattle.entry_words.specs.Moments.{heard_last, running_after, op_of, moment_cost};

    /// A pass in which nothing was done. It takes no memory.
    pub fn start(alloc: Global, actor: u32) -> Pass
        ensures actor { result.actor ≡ actor }
        ensures empty { result.moments ≡ record { items = []; spare = 0 } }
        ensures numbers { (result.clock ≡ 0) × (result.steps ≡ 0) × (result.bytes ≡ 0) × (result.running ≡ None) }
    {
        Pass {
            actor,
            clock: 0,
            steps: 0,
            bytes: 0,
            running: None,
            moments: Log::new(alloc),
        }
    }

    /// The actor whose pass it is. It takes no memory.
    pub fn actor(&self) -> u32
        ensures { result ≡ self.now.actor }
    {
        self.actor
    }

    /// The clock: no stamp of the pass exceeds it. It takes no memory.
    pub fn clock(&self) -> u64
        ensures { result ≡ self.now.clock }
    {
        self.clock
    }

    /// The entries and notes, in order. It takes no memory.
    pub fn moments(&self) -> &[Moment]
        ensures { result.now ≡ self.now.moments.items }
    {
        self.moments.as_slice()
    }

    /// The op that has begun and not ended. It takes no memory.
    pub fn running(&self) -> Option<OpId>
        ensures { result ≡ self.now.running }
    {
        self.running
    }

    /// The bytes of the replies that are kept: those of names and of contents, and 32 for each item of a list. It takes no memory.
    pub fn bytes(&self) -> u128
        ensures { result ≡ self.now.bytes }
    {
        self.bytes
    }

    // The number of the op that is running.
    fn number(&self) -> u32
        ensures { result ≡ op_number self.now.running }
    {
        match self.running {
            None => 0,
            Some(op) => op.number,
        }
    }

    // How many moments are put aside for the end of a running op.
    fn aside(&self) -> usize
        ensures { result ≡ aside self.now.running }
    {
        match self.running {
            None => 0,
            Some(_) => 1,
        }
    }

    /// For the proof alone: what every pass tells of its numbers.
    fn note_that_small(&self)
        ensures few { used self.now ≤ MOST_MOMENTS }
        ensures room { aside self.now.running ≤ self.now.moments.spare }
        ensures one { aside self.now.running ≤ 1 }
        ensures early { self.now.clock + aside self.now.running < 2 ^ 64 }
        ensures steps { self.now.steps ≤ MOST_MOMENTS }
    {
        let _pass = self;
    }

    /// How many moments there are, and the one that is put aside for the end of a running op. It takes no memory.
    pub fn used(&self) -> usize
        ensures { result ≡ used self.now }
    {
        self.note_that_small();
        self.moments.len() + self.aside()
    }

    /// For how many commits there is sure room. It takes no memory.
    pub fn spare(&self) -> usize
        ensures { result ≡ spare_of self.now }
    {
        self.note_that_small();
        self.moments.spare() - self.aside()
    }

    /// Whether a commit would be refused as full: the moments, the bytes of replies or the clock have come to their limit.
    /// It takes no memory.
    pub fn is_full(&self) -> bool
        ensures { IsTrue result ↔ IsFull self.now }
    {
        self.used() >= MOST_MOMENTS as usize
            || self.bytes >= MOST_BYTES
            || self.clock >= CLOCK_LIMIT
    }

    /// Whether the beginning of an op would be refused as full: there is not room for it and for the end of the op, or the
    /// clock has come to its limit. It takes no memory.
    pub fn is_full_for_begin(&self) -> bool
        ensures { IsTrue result ↔ IsFullForBegin self.now }
    {
        self.note_that_small();
        self.used() + 1 >= MOST_MOMENTS as usize || self.clock >= CLOCK_LIMIT
    }

    /// Makes the sure room at least `n` commits. For want of memory nothing is changed.
    pub fn reserve(&mut self, n: usize) -> Result<(), NoMemory>
        ensures room { OnOk result (n ≤ spare_of self.new) }
        ensures keeps { spare_of self.old ≤ spare_of self.new }
        ensures moments { self.new.moments.items ≡ self.old.moments.items }
        ensures same { (self.new.actor ≡ self.old.actor) × (self.new.clock ≡ self.old.clock) × (self.new.steps ≡ self.old.steps)
            × (self.new.bytes ≡ self.old.bytes) × (self.new.running ≡ self.old.running) }
        ensures enough { n ≤ spare_of self.old → IsOk result × (self.new ≡ self.old) }
        ensures err { OnErr result (self.new ≡ self.old) }
    {
        if n <= self.spare() {
            return Ok(());
        }
        self.note_that_small();
        let aside = self.aside();
        let Some(room) = n.checked_add(aside) else {
            return Err(NoMemory);
        };
        match self.moments.reserve(room) {
            Ok(()) => Ok(()),
            Err(NoMemory) => Err(NoMemory),
        }
    }

    /// Makes room for the beginning of an op and for its end, so that a note of the beginning is refused only as full. For
    /// want of memory nothing is changed.
    pub fn reserve_begin(&mut self) -> Result<(), NoMemory>
        ensures room { OnOk result (2 ≤ spare_of self.new) }
        ensures keeps { spare_of self.old ≤ spare_of self.new }
        ensures moments { self.new.moments.items ≡ self.old.moments.items }
        ensures same { (self.new.actor ≡ self.old.actor) × (self.new.clock ≡ self.old.clock) × (self.new.steps ≡ self.old.steps)
            × (self.new.bytes ≡ self.old.bytes) × (self.new.running ≡ self.old.running) }
        ensures enough { 2 ≤ spare_of self.old → IsOk result × (self.new ≡ self.old) }
        ensures err { OnErr result (self.new ≡ self.old) }
    {
        self.reserve(2)
    }

    /// Lets sure room go, and leaves as much as that. It takes no memory.
    pub fn lower(&mut self, spare: usize)
        requires { spare ≤ spare_of self.old }
        ensures moments { (self.new.moments.items ≡ self.old.moments.items) × (spare_of self.new ≡ spare) }
        ensures same { (self.new.actor ≡ self.old.actor) × (self.new.clock ≡ self.old.clock) × (self.new.steps ≡ self.old.steps)
            × (self.new.bytes ≡ self.old.bytes) × (self.new.running ≡ self.old.running) }
    {
        self.note_that_small();
        let _all = self.moments.spare();
        let aside = self.aside();
        self.moments.lower(spare + aside);
    }

    /// Makes the clock at least that number. It takes no memory.
    pub fn raise(&mut self, clock: u64)
        requires { clock + 1 < 2 ^ 64 }
        ensures clock { self.new.clock ≡ max self.old.clock clock }
        ensures same { (self.new.actor ≡ self.old.actor) × (self.new.steps ≡ self.old.steps) × (self.new.bytes ≡ self.old.bytes)
            × (self.new.running ≡ self.old.running) × (self.new.moments ≡ self.old.moments) }
    {
        self.clock = self.clock.max(clock);
    }

    /// Adds a note, stamped with the next number of the clock. An op of the pass's actor begins only while none is running,
    /// and the op that ends or stops is the one that is running.
    ///
    /// The beginning of an op is refused as full where the pass has not room for it and for the end of the op, or its clock
    /// has come to the limit; and it may be refused for want of memory. Then nothing is changed. The end of an op takes no
    /// memory, and is never refused.
    pub fn note(&mut self, note: Note) -> Result<(), Refused>
        requires { MayNote self.old note }
        ensures moments { OnOk result (self.new.moments.items ≡ self.old.moments.items ++ local_of self.old note ∷ []) }
        ensures running { OnOk result (self.new.running ≡ running_after self.old.running (local_of self.old note)) }
        ensures clock { OnOk result (self.new.clock ≡ self.old.clock + 1) }
        ensures same { OnOk result ((self.new.actor ≡ self.old.actor) × (self.new.steps ≡ self.old.steps)
            × (self.new.bytes ≡ self.old.bytes)) }
        ensures spare { OnOk result (begins note ≡ false → spare_of self.new ≡ spare_of self.old) }
        ensures full { (result ≡ Err (Refused.HistoryFull pass_place)) ↔ ((begins note ≡ true) × IsFullForBegin self.old) }
        ensures memory { OnErr result (¬ IsFullForBegin self.old → result ≡ Err Refused.NoMemory) }
        ensures begin_free { begins note ≡ true → 2 ≤ spare_of self.old → ¬ IsFullForBegin self.old → IsOk result
            × (spare_of self.new + 2 ≡ spare_of self.old) }
        ensures ends { begins note ≡ false → IsOk result }
        ensures err { OnErr result (self.new ≡ self.old) }
    {
        match note {
            Note::Began { op, command } => self.begin(op, command),
            Note::Ended { op, answer } => {
                self.end(Note::Ended { op, answer });
                Ok(())
            }
            Note::Stopped { op } => {
                self.end(Note::Stopped { op });
                Ok(())
            }
        }
    }

    fn begin(&mut self, op: OpId, command: Command) -> Result<(), Refused>
        requires none { self.old.running ≡ None }
        requires own { op.actor ≡ self.old.actor }
        ensures moments { OnOk result (self.new.moments.items ≡ self.old.moments.items ++ local_of self.old (Note.Began op command) ∷ []) }
        ensures running { OnOk result (self.new.running ≡ Some op) }
        ensures clock { OnOk result (self.new.clock ≡ self.old.clock + 1) }
        ensures same { OnOk result ((self.new.actor ≡ self.old.actor) × (self.new.steps ≡ self.old.steps)
            × (self.new.bytes ≡ self.old.bytes)) }
        ensures full { (result ≡ Err (Refused.HistoryFull pass_place)) ↔ IsFullForBegin self.old }
        ensures memory { OnErr result (¬ IsFullForBegin self.old → result ≡ Err Refused.NoMemory) }
        ensures free { 2 ≤ spare_of self.old → ¬ IsFullForBegin self.old → IsOk result × (spare_of self.new + 2 ≡ spare_of self.old) }
        ensures err { OnErr result (self.new ≡ self.old) }
    {
        if self.is_full_for_begin() {
            return Err(Refused::HistoryFull { place: Place(256) });
        }
        let Ok(()) = self.reserve_begin() else {
            return Err(Refused::NoMemory);
        };
        self.add_note(Note::Began { op, command }, Some(op));
        Ok(())
    }

    fn end(&mut self, note: Note)
        requires running { self.old.running ≡ Some (op_of note) }
        requires end { begins note ≡ false }
        ensures moments { self.new.moments.items ≡ self.old.moments.items ++ local_of self.old note ∷ [] }
        ensures running { self.new.running ≡ None }
        ensures clock { self.new.clock ≡ self.old.clock + 1 }
        ensures same { (self.new.actor ≡ self.old.actor) × (self.new.steps ≡ self.old.steps) × (self.new.bytes ≡ self.old.bytes) }
        ensures spare { spare_of self.new ≡ spare_of self.old }
    {
        self.note_that_small();
        self.add_note(note, None);
    }

    // Adds a note after which that op is running. There is room for it, and for the end of the op.
    fn add_note(&mut self, note: Note, running: Option<OpId>)
        requires running { running ≡ running_after self.old.running (local_of self.old note) }
        requires own { (op_of note).actor ≡ self.old.actor }
        requires cost { 1 + aside running ≡ aside self.old.running + moment_cost (local_of self.old note) }
        requires few { length self.old.moments.items + 1 + aside running ≤ MOST_MOMENTS }
        requires room { 1 + aside running ≤ self.old.moments.spare }
        requires early { self.old.clock + 1 + aside running < 2 ^ 64 }
        ensures moments { self.new.moments ≡ record {
          items = self.old.moments.items ++ local_of self.old note ∷ [];
          spare = self.old.moments.spare - 1;
        } }
        ensures running { self.new.running ≡ running }
        ensures clock { self.new.clock ≡ self.old.clock + 1 }
        ensures same { (self.new.actor ≡ self.old.actor) × (self.new.steps ≡ self.old.steps) × (self.new.bytes ≡ self.old.bytes) }
    {
        let stamp = self.clock + 1;
        let actor = self.actor;
        self.clock = stamp;
        self.running = running;
        self.moments.push(Moment::Local { stamp, actor, note });
    }

    /// Adds the entry of a transaction that the actor does next, stamped so, to the history of its place, and gives the receipt
    /// with which this pass takes the same entry. `theirs` is `ours` once more: the request and its reply. There is room in the
    /// history. It takes no memory.
    pub fn enter(
        &self,
        history: &mut Log<Entry>,
        stamp: u64,
        place: Place,
        ours: (AnyReq, AnyReply),
        theirs: (AnyReq, AnyReply),
    ) -> Receipt
        requires room { 0 < history.old.spare }
        requires same { theirs ≡ ours }
        ensures entry { result ≡ record {
          stamp = stamp;
          place = place;
          actor = self.now.actor;
          number = op_number self.now.running;
          step = self.now.steps;
          req = ours.0;
          reply = ours.1;
        } }
        ensures history { history.new ≡ record { items = history.old.items ++ result ∷ []; spare = history.old.spare - 1 } }
    {
        let (req, reply) = ours;
        history.push(self.entry(stamp, place, req, reply));
        let (req, reply) = theirs;
        Receipt {
            entry: self.entry(stamp, place, req, reply),
        }
    }

    // The entry of a transaction that the actor does next, stamped so.
    fn entry(&self, stamp: u64, place: Place, req: AnyReq, reply: AnyReply) -> Entry
        ensures { result ≡ record {
          stamp = stamp;
          place = place;
          actor = self.now.actor;
          number = op_number self.now.running;
          step = self.now.steps;
          req = req;
          reply = reply;
        } }
    {
        Entry {
            stamp,
            place,
            actor: self.actor,
            number: self.number(),
            step: self.steps,
            req,
            reply,
        }
    }

    /// Adds the entry of a transaction, the next step of the pass's actor, stamped above the clock; its reply counts as heard
    /// whole. There is room for it, beside what is put aside. It takes no memory.
    pub fn record(&mut self, receipt: Receipt)
        requires room { 0 < spare_of self.old }
        requires few { used self.old < MOST_MOMENTS }
        requires light { self.old.bytes < MOST_BYTES }
        requires later { self.old.clock < receipt.stamp }
        requires early { receipt.stamp + 1 < 2 ^ 64 }
        requires own { (receipt.actor ≡ self.old.actor) × (receipt.step ≡ self.old.steps) }
        ensures moments { self.new.moments ≡ record {
          items = self.old.moments.items ++ Moment.Act receipt Heard.Whole ∷ [];
          spare = self.old.moments.spare - 1;
        } }
        ensures numbers { (self.new.clock ≡ receipt.stamp) × (self.new.steps ≡ self.old.steps + 1)
            × (self.new.bytes ≡ self.old.bytes + reply_bytes receipt.reply) }
        ensures same { (self.new.actor ≡ self.old.actor) × (self.new.running ≡ self.old.running) }
    {
        self.add_act(receipt.entry);
    }

    // Adds that entry.
    fn add_act(&mut self, entry: Entry)
        requires room { 0 < spare_of self.old }
        requires few { used self.old < MOST_MOMENTS }
        requires light { self.old.bytes < MOST_BYTES }
        requires later { self.old.clock < entry.stamp }
        requires early { entry.stamp + 1 < 2 ^ 64 }
        requires own { (entry.actor ≡ self.old.actor) × (entry.step ≡ self.old.steps) }
        ensures moments { self.new.moments ≡ record {
          items = self.old.moments.items ++ Moment.Act entry Heard.Whole ∷ [];
          spare = self.old.moments.spare - 1;
        } }
        ensures numbers { (self.new.clock ≡ entry.stamp) × (self.new.steps ≡ self.old.steps + 1)
            × (self.new.bytes ≡ self.old.bytes + reply_bytes entry.reply) }
        ensures same { (self.new.actor ≡ self.old.actor) × (self.new.running ≡ self.old.running) }
    {
        self.note_that_small();
        let bytes = entry.reply.bytes();
        self.clock = entry.stamp;
        self.steps += 1;
        self.bytes += bytes;
        self.moments.push(Moment::Act {
            entry,
            heard: Heard::Whole,
        });
    }

    /// Says how the command heard the reply of the last transaction. Where the last moment is a note, or there is none, nothing
    /// is changed. It takes no memory.
    pub fn set_heard(&mut self, heard: Heard)
        ensures moments { self.new.moments ≡ record {
          items = heard_last heard self.old.moments.items;
          spare = self.old.moments.spare;
        } }
        ensures same { (self.new.actor ≡ self.old.actor) × (self.new.clock ≡ self.old.clock) × (self.new.steps ≡ self.old.steps)
            × (self.new.bytes ≡ self.old.bytes) × (self.new.running ≡ self.old.running) }
    {
        self.moments.set_heard(heard);
    }
}
