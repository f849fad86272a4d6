ghost use Rattle.std.specs.Prelude.{◌≡◌, ◌<◌, ◌++◌, ◌∷◌, [], IfOk, IfErr, OnOk, vec_len};
ghost use Rattle.tect_ids.specs.Places.{HasPlaces, place_count};
ghost use Rattle.entry_words.specs.Labels.{label_at};
ghost use Rattle.place_kit.specs.Kept.{label_of};
ghost use Rattle.place_kit.specs.Started.{AreStarted};
ghost use Rattle.place_locks.specs.Losses.{IsLoss};

use crate::commits::check_label;
use crossbeam_utils::CachePadded;
use entry_words::{Refused, label_at};
use place_kit::AnyKept;
use std::alloc::Global;
use std::sync::Mutex;
use tect_ids::{Counts, Place};

// What is behind all locks, in the order of the places.
pub(crate) fn take_all(
    alloc: Global,
    counts: &Counts,
    places: Vec<CachePadded<Mutex<AnyKept>>>,
) -> Result<Vec<AnyKept>, Refused>
    requires places { HasPlaces counts.now }
    requires all { vec_len places ≡ place_count counts.now }
    ensures all { IfOk result (λ kepts. AreStarted counts.now kepts.items) }
    ensures lost { IfErr result (IsLoss counts.now) }
{
    let mut kepts = Vec::new(alloc);
    for at in places {
        let kept = take_out(counts, at, kepts.len() as u32)?;
        add(&mut kepts, kept)?;
    }
    Ok(kepts)
}

// What is behind a lock, which is to have the label of the place with that number.
fn take_out(
    counts: &Counts,
    at: CachePadded<Mutex<AnyKept>>,
    number: u32,
) -> Result<AnyKept, Refused>
    requires places { HasPlaces counts.now }
    requires within { number < place_count counts.now }
    ensures label { IfOk result (λ kept. label_of kept ≡ label_at counts.now number) }
    ensures lost { IfErr result (IsLoss counts.now) }
{
    let kept = at.into_inner().into_inner();
    check_label(&kept, label_at(counts, Place(number)))?;
    Ok(kept)
}

fn add(kepts: &mut Vec<AnyKept>, kept: AnyKept) -> Result<(), Refused>
    ensures grown { OnOk result (kepts.new.items ≡ kepts.old.items ++ kept ∷ []) }
    ensures memory { IfErr result (λ e. e ≡ Refused.NoMemory) }
{
    if kepts.push(kept).is_err() {
        return Err(Refused::NoMemory);
    }
    Ok(())
}
