ghost use Rattle.std.specs.Prelude.{◌≡◌, ◌+◌, ◌^◌, ◌<◌, [], ◌∷◌, IfOk, OnOk, OnErr};
ghost use Rattle.std.specs.Option.{option_copied};
ghost use Rattle.std.specs.FinMap.{get};
ghost use Rattle.tect_ids.specs.Places.{HasPlaces};
ghost use Rattle.program_forms.specs.Memories.{opening_memory, learnt, Opens};
ghost use Rattle.memories.specs.Knowing.{IsActor, number_for};

use crate::opened_files::{OpenedFile, OpenedFiles};
use crate::path_key::PathKey;
use std::alloc::Global;
use std::marker::Model;
use tect_calls::MadeFile;
use tect_ids::{Counts, NoMemory, OpId, Token};

/// What an actor knows between its commands: its number, the serial of the next object that it makes, how many shards there
/// are, and the files that it opened.
#[derive(Drop)]
pub struct Memory {
    alloc: Global,
    actor: u32,
    serial: u32,
    counts: Counts,
    opened: OpenedFiles,
}

impl Model for Memory {
    ghost use Rattle.tect_ids.specs.Places.{HasPlaces};
    ghost use Rattle.memories.specs.Codes.{known_code};
    ghost use Rattle.memories.specs.Knowing.{Known, IsActor};

    ghost Value = { Known };

    ghost coded = { known_code };

    ghost view = { λ m. record { actor = m.actor; counts = m.counts; memory = record { serial = m.serial; opened = m.opened } } };

    ghost invariant = { λ m. IsActor m.actor × HasPlaces m.counts };
}

impl Memory {
    /// What an actor knows at the start: it has made and opened nothing, and that takes no memory. Actors are numbered from 1 to 65, and each
    /// layer has 1 to 64 shards.
    pub fn start(alloc: Global, actor: u32, counts: Counts) -> Result<Memory, NoMemory>
        requires actor { IsActor actor }
        requires places { HasPlaces counts }
        ensures { IfOk result (λ memory. memory ≡ record { actor = actor; counts = counts; memory = opening_memory }) }
    {
        Ok(Memory {
            alloc,
            actor,
            serial: 1,
            counts,
            opened: OpenedFiles::new(alloc),
        })
    }

    /// The allocator of what the actor keeps.
    pub fn alloc(&self) -> Global {
        self.alloc
    }

    /// The actor's own number. It takes no memory.
    pub fn actor(&self) -> u32
        ensures { result ≡ self.now.actor }
    {
        self.actor
    }

    /// The number of the next object that the actor makes as that op, which is its own. It takes no memory.
    pub fn number_for(&self, op: OpId) -> u64
        ensures { result ≡ number_for self.now op }
    {
        u64::from(op.actor) * (1 << 32) + u64::from(self.serial)
    }

    /// The next object was made: the one after it has the next serial. It takes no memory.
    pub fn take_serial(&mut self)
        requires { self.old.memory.serial + 1 < 2 ^ 32 }
        ensures { self.new ≡ record self.old { memory = record self.old.memory { serial = self.old.memory.serial + 1 } } }
    {
        self.serial += 1;
    }

    /// The file that the actor opened at the path last, with its token, if it opened one. It takes no memory.
    pub fn opened(&self, path: &PathKey) -> Option<&OpenedFile>
        ensures { option_copied result ≡ get self.now.memory.opened path.now }
    {
        self.opened.get(path)
    }

    /// Keeps the file that was opened at the path, with its token, in place of what was opened there before.
    pub fn keep_opened(
        &mut self,
        path: PathKey,
        file: MadeFile,
        token: Token,
    ) -> Result<(), NoMemory>
        ensures kept { OnOk result (self.new ≡ record self.old { memory = learnt (Opens path file token ∷ []) self.old.memory }) }
        ensures unchanged { OnErr result (self.new ≡ self.old) }
    {
        self.opened.put(path, OpenedFile { file, token })
    }

    /// How many shards each layer has. It takes no memory.
    pub fn counts(&self) -> Counts
        ensures counts { result ≡ self.now.counts }
        ensures places { HasPlaces result }
    {
        self.counts
    }
}
