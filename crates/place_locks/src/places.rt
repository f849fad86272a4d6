ghost use Rattle.std.specs.Prelude.{◌≡◌, ◌↔◌, IfOk, IfErr, OnErr};
ghost use Rattle.store_rules.specs.Places.{request_place};
ghost use Rattle.tect_ids.specs.Places.{HasPlaces};
ghost use Rattle.passes.specs.Commits.{IsFull};
ghost use Rattle.place_locks.specs.Commits.{HasCommitted, IsRefusalFor};
ghost use Rattle.entry_words.specs.Labels.{label_at};
ghost use Rattle.place_kit.specs.Started.{AreStarted};
ghost use Rattle.place_locks.specs.Losses.{IsLoss};

use crate::commits::{Caller, commit_at};
use crate::opening::open_places;
use crate::taking::take_all;
use crossbeam_utils::CachePadded;
use entry_words::{Refused, label_at};
use passes::Pass;
use place_kit::AnyKept;
use std::alloc::Global;
use std::marker::Model;
use std::sync::{Mutex, Wait};
use tect_calls::{AnyReply, Asked, place};
use tect_edge::Gate;
use tect_ids::{Counts, NoMemory};

/// All shards with their histories, in the order of their places, each behind a lock of its own. Contracts see how many there are of
/// each layer.
#[derive(Drop)]
pub struct Places {
    alloc: Global,
    counts: Counts,
    // Each lock with its shard has cache lines of its own, so that a commit there slows no commit at another shard.
    kepts: Vec<CachePadded<Mutex<AnyKept>>>,
}

impl Model for Places {
    ghost use Rattle.std.specs.Prelude.{◌≡◌, vec_len};
    ghost use Rattle.tect_ids.specs.declared.ids.Counts.{Counts};
    ghost use Rattle.tect_ids.specs.Places.{HasPlaces, place_count};

    ghost Value = { Counts };

    ghost view = { λ p. p.counts };

    ghost invariant = { λ p. HasPlaces p.counts × (vec_len p.kepts ≡ place_count p.counts) };
}

impl Places {
    /// Opening shards with nothing done, the one of the root's place with the root. Each layer has 1 to 64 places.
    pub fn start(alloc: Global, counts: Counts) -> Result<Places, NoMemory>
        requires { HasPlaces counts }
        ensures { IfOk result (λ places. places ≡ counts) }
    {
        let kepts = open_places(alloc, &counts)?;
        Ok(Places {
            alloc,
            counts,
            kepts,
        })
    }

    /// Does the request at its place, under the one lock of that place, for which it may wait. The atomic step is what is done
    /// under the lock: the machine answers and does the request, and its history has the entry. What needs no machine is done
    /// without the lock, also that the pass takes the same entry, by the history's receipt. The gate is told before the lock is taken,
    /// while it is kept, and after it was given back.
    ///
    /// The pass grows by one entry, whose stamp is its new clock. It is refused as full exactly where the pass is full;
    /// then no lock is taken, and the gate is not told. It is astray where the label found behind the lock is not the
    /// one that the place was started with, and it may be refused for want of memory. A refusal leaves the pass as it was.
    pub fn commit<R: Wait, G: Gate>(
        &self,
        rt: &R,
        pass: &mut Pass,
        asked: Asked,
        worker: u32,
        gate: &G,
    ) -> Result<AnyReply, Refused>
        ensures done { IfOk result (λ reply. HasCommitted pass.old pass.new (request_place self.now asked) asked reply) }
        ensures full { (result ≡ Err (Refused.HistoryFull (request_place self.now asked))) ↔ IsFull pass.old }
        ensures refused { IfErr result (IsRefusalFor (label_at self.now (request_place self.now asked).0)) }
        ensures err { OnErr result (pass.new ≡ pass.old) }
    {
        let place = place(asked.request(), &self.counts);
        let want = label_at(&self.counts, place);
        let caller = Caller { rt, worker, gate };
        let at = &*self.kepts[place.0 as usize];
        commit_at(caller, at, want, pass, asked.into_request())
    }

    /// All shards in the order of their places, each with the label that its place was started with.
    ///
    /// It is astray where a label found is another one, at the first such place, and may be refused for want of memory. Then
    /// the shards are lost. It is never refused as full.
    pub fn take_apart(self) -> Result<Vec<AnyKept>, Refused>
        ensures all { IfOk result (λ kepts. AreStarted self kepts.items) }
        ensures lost { IfErr result (IsLoss self) }
    {
        let Places {
            alloc,
            counts,
            kepts,
        } = self;
        take_all(alloc, &counts, kepts)
    }
}
