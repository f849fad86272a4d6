ghost use Rattle.std.specs.Prelude.{◌≡◌, ◌<◌, ◌≤◌, ◌^◌, [], true, false, length, IfOk, OnOk, OnErr, IsOk, ◌↔◌};
ghost use Rattle.place_kit.specs.Replay.{IsKept, IsKept-prop, Layer-set};
ghost use Rattle.passes.specs.Commits.{HasRoom, IsFull, spare_of};

use crate::machine::Machine;
use crate::prepared::Prepared;
use entry_words::{Entry, Label, Refused};
use passes::{Log, Pass, Receipt};
use std::alloc::Global;
use std::snapshot::Snapshot;
use tect_calls::{AnyReply, AnyReq};
use tect_ids::{NoMemory, Place};

/// A machine at its place, and the entries that led to it from its base state. Its label says the layer of its kind.
#[derive(Drop)]
pub struct Kept<M: Machine> {
    pub(crate) label: Label,
    pub(crate) machine: M,
    pub(crate) base: Snapshot<M>,
    pub(crate) history: Log<Entry>,
    pub(crate) clock: u64,
    pub(crate) count: u64,
    ghost kept: { IsKept M.after M.answer M.opening label machine base.value
        history.items clock count } by { IsKept-prop M.code _ _ _ _ _ _ _ _ _ },
    ghost layered: { label.layer ≡ M.layer } by { Layer-set _ _ },
}

impl<M: Machine> Kept<M> {
    ghost use Rattle.place_kit.specs.Committed.{Committed, Served};

    /// An opening machine at its place, with nothing done. It takes no memory.
    pub fn start(alloc: Global, place: Place, machine: M) -> Kept<M>
        requires { machine ≡ M.opening (M.rooted machine) }
        ensures label { result.label ≡ record { place = place; layer = M.layer; rooted = M.rooted machine; folded = false } }
        ensures state { (result.machine ≡ machine) × (result.base.value ≡ machine) }
        ensures history { (result.history ≡ record { items = []; spare = 0 }) × (result.clock ≡ 0) }
    {
        let base = Snapshot::of(&machine);
        let rooted = machine.has_root();
        Kept {
            label: Label {
                place,
                layer: M::layer(),
                rooted,
                folded: false,
            },
            machine,
            base,
            history: Log::new(alloc),
            clock: 0,
            count: 0,
        }
    }

    /// Which machine it is. It takes no memory.
    pub fn label(&self) -> Label
        ensures { result ≡ self.now.label }
    {
        self.label
    }

    /// The entries, in the order of their stamps. It takes no memory.
    pub fn history(&self) -> &[Entry]
        ensures { result.now ≡ self.now.history.items }
    {
        self.history.as_slice()
    }

    /// The machine as it is now. It takes no memory.
    pub fn machine(&self) -> &M
        ensures { result.now ≡ self.now.machine }
    {
        &self.machine
    }

    /// For how many commits there is sure room. It takes no memory.
    pub fn spare(&self) -> usize
        ensures { result ≡ self.now.history.spare }
    {
        self.history.spare()
    }

    /// Makes the sure room at least `n` commits. For want of memory nothing is changed.
    pub fn reserve(&mut self, n: usize) -> Result<(), NoMemory>
        ensures room { OnOk result (n ≤ self.new.history.spare) }
        ensures keeps { self.old.history.spare ≤ self.new.history.spare }
        ensures history { self.new.history.items ≡ self.old.history.items }
        ensures same { (self.new.label ≡ self.old.label) × (self.new.machine ≡ self.old.machine)
            × (self.new.base.value ≡ self.old.base.value)
            × (self.new.clock ≡ self.old.clock) }
        ensures enough { n ≤ self.old.history.spare → IsOk result × (self.new ≡ self.old) }
        ensures err { OnErr result (self.new ≡ self.old) }
    {
        if n <= self.history.spare() {
            return Ok(());
        }
        match self.history.reserve(n) {
            Ok(()) => Ok(()),
            Err(NoMemory) => Err(NoMemory),
        }
    }

    /// Does one transaction, and adds one and the same entry to the history and to the pass, stamped above both clocks.
    ///
    /// It is refused as full exactly where the pass is. For want of memory it is refused too, but not where both have sure
    /// room, and the request takes none and holds no name. A refusal changes neither.
    pub fn commit(&mut self, pass: &mut Pass, req: M::Req) -> Result<M::Reply, Refused>
        ensures done { IfOk result (λ r. Committed self.old self.new pass.old pass.new (M.wide req) (M.wide_reply r)) }
        ensures full { (result ≡ Err (Refused.HistoryFull self.old.label.place)) ↔ IsFull pass.old }
        ensures memory { OnErr result (¬ IsFull pass.old → result ≡ Err Refused.NoMemory) }
        ensures free { M.is_free self.old.machine (M.wide req) ≡ true → 0 < self.old.history.spare → 0 < spare_of pass.old
            → ¬ (result ≡ Err Refused.NoMemory) }
        ensures err { OnErr result ((self.new ≡ self.old) × (pass.new ≡ pass.old)) }
    {
        if pass.is_full() {
            return Err(Refused::HistoryFull {
                place: self.label.place,
            });
        }
        match self.do_step(pass, req) {
            Ok(reply) => Ok(reply),
            Err(NoMemory) => Err(Refused::NoMemory),
        }
    }

    // The transaction of a pass that is not full.
    fn do_step(&mut self, pass: &mut Pass, req: M::Req) -> Result<M::Reply, NoMemory>
        requires { HasRoom pass.old }
        ensures done { IfOk result (λ r. Committed self.old self.new pass.old pass.new (M.wide req) (M.wide_reply r)) }
        ensures free { M.is_free self.old.machine (M.wide req) ≡ true → 0 < self.old.history.spare → 0 < spare_of pass.old → IsOk result }
        ensures err { OnErr result ((self.new ≡ self.old) × (pass.new ≡ pass.old)) }
    {
        let prepared = Prepared::new(pass, req)?;
        let spare = prepared.spare();
        match self.serve(pass, prepared) {
            Ok((reply, receipt)) => {
                pass.record(receipt);
                Ok(reply)
            }
            Err(NoMemory) => {
                pass.lower(spare);
                Err(NoMemory)
            }
        }
    }

    /// The part of a commit for which the machine is needed: does the transaction, and adds its entry to the history, stamped
    /// above both clocks. This is the atomic step of a commit, the part that is done under the place's lock where it has one.
    /// Beside the reply it gives the receipt of the history, with which the same entry goes into the pass, and nothing else can.
    ///
    /// It may be refused for want of memory, but not where the history has sure room, and the request takes none and holds no
    /// name. Then nothing is changed.
    pub fn serve(
        &mut self,
        pass: &Pass,
        prepared: Prepared<M>,
    ) -> Result<(M::Reply, Receipt), NoMemory>
        requires ready { prepared.copy ≡ M.wide prepared.req }
        requires early { pass.now.clock < 2 ^ 63 }
        ensures done { IfOk result (λ r. Served self.old self.new pass.now (M.wide prepared.req) (M.wide_reply r.0) r.1) }
        ensures free { M.is_free self.old.machine (M.wide prepared.req) ≡ true → 0 < self.old.history.spare → IsOk result }
        ensures err { OnErr result (self.new ≡ self.old) }
    {
        let room = self.history.spare();
        let Ok(()) = self.history.reserve(1) else {
            return Err(NoMemory);
        };
        match self.serve_in_room(pass, prepared) {
            Ok(done) => Ok(done),
            Err(NoMemory) => {
                self.history.lower(room);
                Err(NoMemory)
            }
        }
    }

    // The same, where the history has sure room.
    fn serve_in_room(
        &mut self,
        pass: &Pass,
        prepared: Prepared<M>,
    ) -> Result<(M::Reply, Receipt), NoMemory>
        requires room { 0 < self.old.history.spare }
        requires ready { prepared.copy ≡ M.wide prepared.req }
        requires early { pass.now.clock < 2 ^ 63 }
        ensures done { IfOk result (λ r. Served self.old self.new pass.now (M.wide prepared.req) (M.wide_reply r.0) r.1) }
        ensures free { M.is_free self.old.machine (M.wide prepared.req) ≡ true → IsOk result }
        ensures err { OnErr result (self.new ≡ self.old) }
    {
        let Prepared {
            req,
            copy,
            spare: _,
        } = prepared;
        let Decided {
            changes,
            reply,
            ours,
            theirs,
        } = Decided::by(&self.machine, &req)?;
        let receipt = self.keep(pass, req, changes, ours, (copy, theirs))?;
        Ok((reply, receipt))
    }

    // Makes the change of the request where there is one, and adds its entry. What the machine decides is known.
    fn keep(
        &mut self,
        pass: &Pass,
        req: M::Req,
        changes: bool,
        reply: AnyReply,
        theirs: (AnyReq, AnyReply),
    ) -> Result<Receipt, NoMemory>
        requires room { 0 < self.old.history.spare }
        requires decided { changes ≡ M.alters self.old.machine (M.wide req) }
        requires answer { reply ≡ M.answer self.old.machine (M.wide req) }
        requires same { theirs ≡ (M.wide req, reply) }
        requires early { pass.now.clock < 2 ^ 63 }
        ensures done { IfOk result (λ r. Served self.old self.new pass.now (M.wide req) reply r) }
        ensures free { M.is_free self.old.machine (M.wide req) ≡ true → IsOk result }
        ensures err { OnErr result (self.new ≡ self.old) }
    {
        note_that_short(self.history.as_slice());
        let stamp = self.clock.max(pass.clock()) + 1;
        let Ok(()) = change(&mut self.machine, &req, changes) else {
            return Err(NoMemory);
        };
        let place = self.label.place;
        let ours = (M::own(req), reply);
        let receipt = pass.enter(&mut self.history, stamp, place, ours, theirs);
        self.clock = stamp;
        self.count += 1;
        Ok(receipt)
    }
}

// What a machine decided of a request: whether it changes, the reply, and this as all places know it, for the history and for the pass.
#[derive(Drop)]
struct Decided<M: Machine> {
    changes: bool,
    reply: M::Reply,
    ours: AnyReply,
    theirs: AnyReply,
}

impl<M: Machine> Decided<M> {
    fn by(machine: &M, req: &M::Req) -> Result<Decided<M>, NoMemory>
        ensures changes { IfOk result (λ d. d.changes ≡ M.alters machine.now (M.wide req.now)) }
        ensures reply { IfOk result (λ d. M.wide_reply d.reply ≡ M.answer machine.now (M.wide req.now)) }
        ensures copies { IfOk result (λ d. (d.ours ≡ M.wide_reply d.reply) × (d.theirs ≡ M.wide_reply d.reply)) }
        ensures free { M.is_free machine.now (M.wide req.now) ≡ true → IsOk result }
    {
        let outcome = machine.decide(req)?;
        let changes = outcome.changes();
        let reply = outcome.into_reply();
        let ours = M::copy_reply(&reply)?;
        let theirs = M::copy_reply(&reply)?;
        Ok(Decided {
            changes,
            reply,
            ours,
            theirs,
        })
    }
}

// Makes the change of the request, where it was decided that there is one.
fn change<M: Machine>(machine: &mut M, req: &M::Req, changes: bool) -> Result<(), NoMemory>
    requires { changes ≡ M.alters machine.old (M.wide req.now) }
    ensures ok { OnOk result (machine.new ≡ M.after machine.old (M.wide req.now)) }
    ensures err { OnErr result (machine.new ≡ machine.old) }
    ensures free { M.is_free machine.old (M.wide req.now) ≡ true → IsOk result }
{
    if !changes {
        return Ok(());
    }
    machine.apply(req)
}

/// Stands for its contract alone: a history is short, since its entries take room.
fn note_that_short(history: &[Entry])
    ensures { length history.now < 2 ^ 59 }
{
    let _len = history.len();
}
