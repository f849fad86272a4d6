ghost use Rattle.std.specs.Prelude.{◌≡◌, ◌↔◌, ◌<◌, ◌^◌, IfOk, IfErr, OnOk, OnErr};
ghost use Rattle.store_rules.specs.Alone.{request_layer};
ghost use Rattle.passes.specs.Commits.{HasRoom, IsFull};
ghost use Rattle.place_kit.specs.Asked.{asked_in, IsReady};
ghost use Rattle.place_kit.specs.Committing.{AnyServed};
ghost use Rattle.place_kit.specs.Kept.{label_of};
ghost use Rattle.place_locks.specs.Commits.{HasCommitted, IsMissOf, IsRefusalFor};
ghost use Rattle.place_locks.specs.Serving.{IsNext};

use entry_words::{Label, Refused};
use passes::{Pass, Receipt};
use place_kit::{AnyKept, AnyPrepared};
use std::hint::spin_loop;
use std::sync::{Mutex, MutexGuard, Wait};
use store_rules::{AnyReply, AnyReq};
use tect_edge::Gate;
use tect_ids::NoMemory;

// How often a lock is tried before a thread sleeps for it.
const SPINS: u32 = 4_000;

// Who commits.
#[derive(Drop)]
pub(crate) struct Caller<'a, R: Wait, G: Gate> {
    pub(crate) rt: &'a R,
    pub(crate) worker: u32,
    pub(crate) gate: &'a G,
}

// One commit at the place behind a lock, where the machine is to have that label.
pub(crate) fn commit_at<R: Wait, G: Gate>(
    caller: Caller<'_, R, G>,
    at: &Mutex<AnyKept>,
    want: Label,
    pass: &mut Pass,
    req: AnyReq,
) -> Result<AnyReply, Refused>
    requires layer { want.layer ≡ request_layer req }
    ensures done { IfOk result (λ reply. HasCommitted pass.old pass.new want.place req reply) }
    ensures full { (result ≡ Err (Refused.HistoryFull want.place)) ↔ IsFull pass.old }
    ensures refused { IfErr result (IsRefusalFor want) }
    ensures err { OnErr result (pass.new ≡ pass.old) }
{
    if pass.is_full() {
        return Err(Refused::HistoryFull { place: want.place });
    }
    commit_with_room(caller, at, want, pass, req)
}

// One commit of a pass that is not full. The lock is held only for what needs the machine.
fn commit_with_room<R: Wait, G: Gate>(
    caller: Caller<'_, R, G>,
    at: &Mutex<AnyKept>,
    want: Label,
    pass: &mut Pass,
    req: AnyReq,
) -> Result<AnyReply, Refused>
    requires layer { want.layer ≡ request_layer req }
    requires room { HasRoom pass.old }
    ensures done { IfOk result (λ reply. HasCommitted pass.old pass.new want.place req reply) }
    ensures missed { IfErr result (IsMissOf want) }
    ensures err { OnErr result (pass.new ≡ pass.old) }
{
    let Ok(prepared) = AnyPrepared::new(pass, req) else {
        return Err(Refused::NoMemory);
    };
    let spare = prepared.spare();
    match serve_at(caller, at, want, pass, prepared) {
        Ok((reply, receipt)) => {
            pass.record(receipt);
            Ok(reply)
        }
        Err(refused) => {
            pass.lower(spare);
            Err(refused)
        }
    }
}

// What needs the machine behind the lock: the atomic step of the commit. The receipt then brings the same entry into the pass.
fn serve_at<R: Wait, G: Gate>(
    caller: Caller<'_, R, G>,
    at: &Mutex<AnyKept>,
    want: Label,
    pass: &Pass,
    prepared: AnyPrepared,
) -> Result<(AnyReply, Receipt), Refused>
    requires layer { want.layer ≡ request_layer (asked_in prepared) }
    requires ready { IsReady prepared }
    requires early { pass.now.clock < 2 ^ 63 }
    ensures next { IfOk result (λ r. IsNext pass.now want.place (asked_in prepared) r.0 r.1) }
    ensures missed { IfErr result (IsMissOf want) }
{
    let Caller { rt, worker, gate } = caller;
    gate.pass(worker, want.place, false);
    let mut kept = take_lock(rt, at);
    gate.pass(worker, want.place, true);
    let served = serve_as(&mut kept, want, pass, prepared);
    drop(kept);
    gate.pass(worker, want.place, false);
    served
}

// Takes the lock. A commit is short, and a sleep in the kernel costs many commits: so it is tried often before it is waited
// for.
fn take_lock<'a, T, R: Wait>(rt: &R, at: &'a Mutex<T>) -> MutexGuard<'a, T> {
    for _ in 0..SPINS {
        if let Some(kept) = at.try_lock() {
            return kept;
        }
        spin_loop();
    }
    at.lock(rt)
}

// What needs the machine, which is to have that label: the atomic step. Its history has the entry that the receipt is of, stamped
// above both clocks.
fn serve_as(
    kept: &mut AnyKept,
    want: Label,
    pass: &Pass,
    prepared: AnyPrepared,
) -> Result<(AnyReply, Receipt), Refused>
    requires layer { want.layer ≡ request_layer (asked_in prepared) }
    requires ready { IsReady prepared }
    requires early { pass.now.clock < 2 ^ 63 }
    ensures next { IfOk result (λ r. IsNext pass.now want.place (asked_in prepared) r.0 r.1) }
    ensures served { IfOk result (λ r. AnyServed kept.old kept.new pass.now (asked_in prepared) r.0 r.1) }
    ensures astray { ¬ (label_of kept.old ≡ want) → result ≡ Err (Refused.Astray want (label_of kept.old)) }
    ensures missed { IfErr result (IsMissOf want) }
    ensures err { OnErr result (kept.new ≡ kept.old) }
{
    check_label(kept, want)?;
    match kept.serve(pass, prepared) {
        Ok(served) => Ok(served),
        Err(NoMemory) => Err(Refused::NoMemory),
    }
}

/// Whether a machine has that label. It is astray where it has another.
pub(crate) fn check_label(kept: &AnyKept, want: Label) -> Result<(), Refused>
    ensures ok { OnOk result (label_of kept.now ≡ want) }
    ensures astray { IfErr result (λ e. (e ≡ Refused.Astray want (label_of kept.now)) × ¬ (label_of kept.now ≡ want)) }
{
    let found = kept.label();
    if found != want {
        return Err(Refused::Astray { want, found });
    }
    Ok(())
}
