ghost use Rattle.std.specs.Prelude.{◌≡◌, ◌++◌, IfOk, OnOk, map};
ghost use Rattle.store_rules.specs.Dumps.{store_dump};
ghost use Rattle.store_shards.specs.Rows.{together, AreShards};
ghost use Rattle.layers.specs.Dumps.{ids_of, layer_dump, lines_of};
ghost use Rattle.layers.specs.Machines.{alone, lent_as};

use crate::shards::Shards;
use layers::{AnyMachine, LAYERS, LentMachine};
use std::alloc::Global;
use std::marker::Model;
use tect_ids::{Counts, DumpLine, Layer, NoMemory, place_of};

/// All shards of a store, lent by whoever keeps them, in the order of their places. Contracts see the whole store that they
/// are together.
#[derive(Drop)]
pub struct LentShards<'a> {
    alloc: Global,
    counts: Counts,
    machines: Vec<LentMachine<'a>>,
}

impl<'a> Model for LentShards<'a> {
    ghost use Rattle.std.specs.Prelude.{map};
    ghost use Rattle.store_shards.specs.Rows.{together, AreShards};
    ghost use Rattle.layers.specs.Machines.{alone, lent_as};
    ghost use Rattle.all_shards.specs.Whole.{WholeStore, whole_code};

    ghost Value = { WholeStore };

    ghost coded = { whole_code };

    ghost view = { λ s. record { counts = s.counts; store = together (map (λ m. alone (lent_as m)) s.machines.items) } };

    ghost invariant = { λ s. AreShards s.counts (map (λ m. alone (lent_as m)) s.machines.items) };
}

impl Shards {
    /// The lines that a dump of the whole store shows: the directories of all shards by identifier, each followed by its
    /// entries by name; then the files and the blocks of all shards by identifier; then the chunks of all disks, disk by disk,
    /// each disk's by block and tag.
    pub fn dump(&self) -> Result<Vec<DumpLine>, NoMemory>
        ensures { IfOk result (λ lines. lines.items ≡ store_dump self.now.store) }
    {
        let machines = lend(self.alloc, self.machines.as_slice())?;
        LentShards::new(self.alloc, self.counts, machines).dump()
    }
}

// The machines, lent, in the same order.
fn lend(alloc: Global, machines: &[AnyMachine]) -> Result<Vec<LentMachine<'_>>, NoMemory>
    ensures { IfOk result (λ lent. map (λ m. alone (lent_as m)) lent.items ≡ map alone machines.now) }
{
    let mut lent = Vec::new(alloc);
    for machine in machines {
        lent.push(machine.lend())?;
    }
    Ok(lent)
}

impl<'a> LentShards<'a> {
    /// The shards at all places of a store, where each row is in the shard of its place. It takes no memory.
    pub fn new(alloc: Global, counts: Counts, machines: Vec<LentMachine<'a>>) -> LentShards<'a>
        requires { AreShards counts (map (λ m. alone (lent_as m)) machines.items) }
        ensures { result ≡ record { counts = counts; store = together (map (λ m. alone (lent_as m)) machines.entry.items) } }
    {
        LentShards {
            alloc,
            counts,
            machines,
        }
    }

    /// The lines that a dump of the whole store shows: the directories of all shards by identifier, each followed by its
    /// entries by name; then the files and the blocks of all shards by identifier; then the chunks of all disks, disk by disk,
    /// each disk's by block and tag.
    pub fn dump(&self) -> Result<Vec<DumpLine>, NoMemory>
        ensures { IfOk result (λ lines. lines.items ≡ store_dump self.now.store) }
    {
        let mut lines = Vec::new(self.alloc);
        for layer in &LAYERS {
            self.dump_layer(*layer, &mut lines)?;
        }
        Ok(lines)
    }

    // Adds the lines of what the shards of a layer have, by identifier.
    fn dump_layer(&self, layer: Layer, lines: &mut Vec<DumpLine>) -> Result<(), NoMemory>
        ensures { OnOk result (lines.new.items ≡ lines.old.items ++ layer_dump self.now.store layer) }
    {
        let ids = self.ids(layer)?;
        for id in &ids {
            self.dump_one(layer, *id, lines)?;
        }
        Ok(())
    }

    // The identifiers of what the shards of a layer have, rising.
    fn ids(&self, layer: Layer) -> Result<Vec<u64>, NoMemory>
        ensures { IfOk result (λ ids. ids.items ≡ ids_of layer self.now.store) }
    {
        let mut ids = Vec::new(self.alloc);
        for machine in &self.machines {
            machine.add_ids(layer, &mut ids)?;
        }
        ids.sort_unstable();
        Ok(ids)
    }

    // Adds the lines of what has that identifier in a layer, as the shard of its place has it.
    fn dump_one(&self, layer: Layer, id: u64, lines: &mut Vec<DumpLine>) -> Result<(), NoMemory>
        ensures { OnOk result (lines.new.items ≡ lines.old.items ++ lines_of layer self.now.store id) }
    {
        let place = place_of(layer, id, &self.counts);
        let machine = &self.machines[place.0 as usize];
        machine.add_lines(layer, id, lines)
    }
}
