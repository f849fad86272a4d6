ghost use Rattle.std.specs.Prelude.{◌≡◌, ◌+◌, length, take, IfOk, IfErr};
ghost use Rattle.tect_calls.specs.MadeBlocks.{chunks_of};
ghost use Rattle.file_rules.specs.declared.states.Append.TheVariants.{Put};
ghost use Rattle.file_rules.specs.Append.{put_on};

use crate::gathered::Gathered;
use crate::states::{Append, Appending};
use std::alloc::Global;
use std::marker::Model;
use tect_calls::{BlockMade, RowMade, Stored};
use tect_ids::NoMemory;

/// A block whose chunks are put, one after another, in the order of its rows: those before this one are stored.
#[derive(Drop)]
pub struct Putting {
    made: BlockMade,
    stored: Gathered<Stored>,
    row: RowMade,
}

impl Model for Putting {
    ghost use Rattle.std.specs.Prelude.{length};
    ghost use Rattle.file_rules.specs.Stages as stages;
    ghost use Rattle.file_rules.specs.StagesInside.{IsPutting};

    ghost Value = { stages.Putting };

    ghost view = { λ putting. record { made = putting.made; at = length putting.stored; chunk = putting.row } };

    ghost invariant = { IsPutting };
}

/// A block whose chunks are all stored.
#[derive(Drop)]
pub struct Sealing {
    made: BlockMade,
    stored: Gathered<Stored>,
}

impl Model for Sealing {
    ghost use Rattle.tect_calls.specs.MadeBlocks.{NewBlock};
    ghost use Rattle.file_rules.specs.StagesInside.{IsSealing};

    ghost Value = { NewBlock };

    ghost view = { λ sealing. sealing.made };

    ghost invariant = { IsSealing };
}

// The next chunk is put, or the block is sealed where all are stored.
#[tactic(auto, using(crate::proofs::Stored::stored_all, crate::proofs::Stored::next_row))]
fn put_on(appending: Appending, made: BlockMade, stored: Gathered<Stored>) -> Append
    requires { stored ≡ take (length stored) (chunks_of made) }
    ensures { result ≡ put_on appending made (length stored) }
{
    match made.row(stored.as_slice().len()) {
        None => Append::Seal {
            appending,
            sealing: Sealing { made, stored },
        },
        Some(row) => Append::Put {
            appending,
            putting: Putting { made, stored, row },
        },
    }
}

impl Putting {
    /// Where an append goes on once its block is made: no chunk is stored yet. It takes no memory.
    pub fn begin(alloc: Global, appending: Appending, made: BlockMade) -> Append
        ensures { result ≡ put_on appending made 0 }
    {
        put_on(appending, made, Gathered::new(alloc))
    }

    /// The row whose chunk is put.
    pub fn row(&self) -> &RowMade
        ensures { result.now ≡ self.now.chunk }
    {
        &self.row
    }

    /// Where an append goes on once the chunk is stored. For want of memory it is as before.
    #[tactic(auto, using(crate::proofs::Stored::stored_more))]
    pub fn put_next(self, appending: Appending, stored: Stored) -> Result<Append, Append>
        requires { stored ≡ self.chunk }
        ensures ok { IfOk result (λ append. append ≡ put_on appending self.made (self.at + 1)) }
        ensures err { IfErr result (λ same. same ≡ Put appending self) }
    {
        let Putting {
            made,
            stored: before,
            row,
        } = self;
        let mut all = before;
        match all.push(stored) {
            Ok(()) => Ok(put_on(appending, made, all)),
            Err(NoMemory) => Err(Append::Put {
                appending,
                putting: Putting {
                    made,
                    stored: all,
                    row,
                },
            }),
        }
    }
}

impl Sealing {
    /// The block.
    pub fn made(&self) -> &BlockMade
        ensures { result.now ≡ self.now }
    {
        &self.made
    }

    /// That the chunk of each of its rows was stored, in their order.
    pub fn stored(&self) -> &[Stored]
        ensures { result.now ≡ chunks_of self.now }
    {
        self.stored.as_slice()
    }
}
