ghost use Rattle.std.specs.Prelude.{◌≡◌, ◌<◌, All, IfOk, length, map, slice_index_or};
ghost use Rattle.merge_runs.specs.MergedRuns.{IsSpot, moment_at};

use crate::spot::Spot;
use entry_words::Moment;
use passes::Pass;
use place_kit::AnyKept;
use std::marker::Model;
use tect_ids::NoMemory;

/// One history, with the places and the passes of which it was made, as they were. It keeps no entry itself, and tells where each
/// stands. Contracts see the places, the passes and the one list of all entries and notes: by stamp, then by place, then by actor,
/// where a note's place counts as 256.
#[derive(Drop)]
pub struct Merged {
    places: Vec<AnyKept>,
    passes: Vec<Pass>,
    order: Vec<Spot>,
}

impl Model for Merged {
    ghost use Rattle.std.specs.Prelude.{All, map};
    ghost use Rattle.std.specs.Coded.{codes};
    ghost use Rattle.entry_words.specs.contracts.entry.Moment as moment;
    ghost use Rattle.passes.specs.contracts.pass.Pass as pass;
    ghost use Rattle.place_kit.specs.contracts.any.AnyKept as kept;
    ghost use Rattle.merge_runs.specs.MergedRuns.{MergedRuns, IsSpot, moment_at};

    ghost Value = { MergedRuns };

    ghost coded = { Prim.hlevel (codes, kept.the_row.coded, pass.the_row.coded, moment.the_row.coded) };

    ghost view = { λ m. record {
      places = m.places.items;
      passes = m.passes.items;
      entries = map (moment_at m.passes.items) m.order.items;
    } };

    ghost invariant = { λ m. All (IsSpot m.passes.items) m.order.items };
}

impl Merged {
    // The history of which the moments stand there.
    pub(crate) fn new(places: Vec<AnyKept>, passes: Vec<Pass>, order: Vec<Spot>) -> Merged
        requires { All (IsSpot passes.items) order.items }
        ensures given { (result.places ≡ places.items) × (result.passes ≡ passes.items) }
        ensures entries { result.entries ≡ map (moment_at passes.items) order.items }
    {
        Merged {
            places,
            passes,
            order,
        }
    }

    /// The places, as they were given. It takes no memory.
    pub fn places(&self) -> &[AnyKept]
        ensures { result.now ≡ self.now.places }
    {
        self.places.as_slice()
    }

    /// The passes, as they were given. It takes no memory.
    pub fn passes(&self) -> &[Pass]
        ensures { result.now ≡ self.now.passes }
    {
        self.passes.as_slice()
    }

    /// How many entries and notes there are. It takes no memory.
    pub fn len(&self) -> usize
        ensures { result ≡ length self.now.entries }
    {
        self.order.len()
    }

    /// The entry or note at that place of the history, from 0 on. It takes no memory.
    pub fn entry(&self, at: usize) -> &Moment
        requires { at < length self.now.entries }
        ensures { result.now ≡ slice_index_or self.now.entries at result.now }
    {
        let Spot { pass, moment } = self.order[at];
        &self.passes[pass].moments()[moment]
    }

    /// All entries and notes, in order. Only the list of them may want memory.
    pub fn entries(&self) -> Result<Vec<&Moment>, NoMemory>
        ensures { IfOk result (λ lent. map (λ r. r.now) lent.items ≡ self.now.entries) }
    {
        let alloc = *self.order.allocator();
        let mut lent = Vec::with_capacity(alloc, self.len())?;
        for at in 0..self.len() {
            lent.push(self.entry(at))?;
        }
        Ok(lent)
    }

    /// The places and the passes, as they were given. It takes no memory.
    pub fn into_parts(self) -> (Vec<AnyKept>, Vec<Pass>)
        ensures { (result.0.items ≡ self.places) × (result.1.items ≡ self.passes) }
    {
        let Merged {
            places,
            passes,
            order: _,
        } = self;
        (places, passes)
    }
}
