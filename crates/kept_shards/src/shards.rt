ghost use Rattle.std.specs.Prelude.{◌≡◌, [], map, replicate, OnOk, OnErr, IfOk, ◌↔◌};
ghost use Rattle.tect_ids.specs.Places.{HasPlaces, place_count};
ghost use Rattle.store_rules.specs.Dumps.{store_dump};
ghost use Rattle.store_rules.specs.Places.{request_place};
ghost use Rattle.store_rules.specs.Store.{opening_store};
ghost use Rattle.passes.specs.Commits.{IsFull};
ghost use Rattle.place_kit.specs.Kept.{history_of};
ghost use Rattle.place_kit.specs.Started.{AreStarted};
ghost use Rattle.kept_shards.specs.KeptStore.{KeptStore, IsDone};

use crate::lending::machines;
use all_shards::LentShards;
use entry_words::Refused;
use passes::Pass;
use place_kit::AnyKept;
use std::alloc::Global;
use std::marker::Model;
use tect_calls::{AnyReply, Asked, place};
use tect_ids::{Counts, DumpLine, NoMemory, Place, place_count};

/// All shards and disks of the store, each with its history. Contracts see how many there are of each layer, the whole store that
/// they are together, and the entries of each place.
#[derive(Drop)]
pub struct KeptShards {
    alloc: Global,
    counts: Counts,
    kepts: Vec<AnyKept>,
}

impl Model for KeptShards {
    ghost use Rattle.kept_shards.specs.KeptStore.{KeptStore, kept_code};

    ghost Value = { KeptStore };

    ghost coded = { kept_code };

    ghost use Rattle.kept_shards.specs.Inside.{kept_store_of, AreKept};

    ghost view = { kept_store_of };

    ghost invariant = { AreKept };
}

impl KeptShards {
    /// The shards before anything was done: the root alone, in the shard of its place.
    pub fn start(alloc: Global, counts: Counts) -> Result<KeptShards, NoMemory>
        requires { HasPlaces counts }
        ensures { IfOk result
            (λ shards. shards ≡ record { counts = counts; store = opening_store; entries = replicate (place_count counts) [] }) }
    {
        let mut kepts = Vec::new(alloc);
        for number in 0..place_count(&counts) {
            kepts.push(AnyKept::start(alloc, &counts, Place(number))?)?;
        }
        Ok(KeptShards {
            alloc,
            counts,
            kepts,
        })
    }

    /// How many shards each layer has. It takes no memory.
    pub fn counts(&self) -> Counts
        ensures counts { result ≡ self.now.counts }
        ensures places { HasPlaces self.now.counts }
    {
        self.counts
    }

    /// Does the request, whose needs were shown, at the shard of its place, as on the whole store, and replies. The shard's
    /// history and the pass have one and the same entry more, stamped above both clocks.
    ///
    /// It is refused as full exactly where the pass is; else it may be refused for want of memory. A refusal changes nothing.
    pub fn commit(&mut self, pass: &mut Pass, asked: Asked) -> Result<AnyReply, Refused>
        ensures done { IfOk result (IsDone self.old self.new pass.old pass.new asked) }
        ensures full { (result ≡ Err (Refused.HistoryFull (request_place self.old.counts asked))) ↔ IsFull pass.old }
        ensures memory { OnErr result (¬ IsFull pass.old → result ≡ Err Refused.NoMemory) }
        ensures err { OnErr result ((self.new ≡ self.old) × (pass.new ≡ pass.old)) }
    {
        let place = place(asked.request(), &self.counts);
        let kept = &mut self.kepts[place.0 as usize];
        kept.commit(pass, asked.into_request())
    }

    /// The lines that a dump of the whole store shows: the directories of all shards by identifier, each followed by its
    /// entries by name; then the files, the blocks and the chunks of all shards by identifier.
    pub fn dump(&self) -> Result<Vec<DumpLine>, NoMemory>
        ensures { IfOk result (λ lines. lines.items ≡ store_dump self.now.store) }
    {
        let machines = machines(self.alloc, self.kepts.as_slice())?;
        LentShards::new(self.alloc, self.counts, machines).dump()
    }

    /// All kept machines, in the order of their places. It takes no memory.
    pub fn into_kepts(self) -> Vec<AnyKept>
        ensures started { AreStarted self.counts result.items }
        ensures entries { map history_of result.items ≡ self.entries }
    {
        self.kepts
    }
}
