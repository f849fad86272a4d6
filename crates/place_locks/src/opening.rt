ghost use Rattle.std.specs.Prelude.{◌≡◌, IfOk, vec_len};
ghost use Rattle.tect_ids.specs.Places.{HasPlaces, place_count};

use crossbeam_utils::CachePadded;
use place_kit::AnyKept;
use std::alloc::Global;
use std::sync::Mutex;
use tect_ids::{Counts, NoMemory, Place, place_count};

// The shards before anything was done, in the order of their places.
pub(crate) fn open_places(
    alloc: Global,
    counts: &Counts,
) -> Result<Vec<CachePadded<Mutex<AnyKept>>>, NoMemory>
    requires { HasPlaces counts.now }
    ensures { IfOk result (λ kepts. vec_len kepts ≡ place_count counts.now) }
{
    let mut kepts = Vec::new(alloc);
    for number in 0..place_count(counts) {
        let kept = AnyKept::start(alloc, counts, Place(number))?;
        kepts.push(CachePadded::new(Mutex::new(kept)))?;
    }
    Ok(kepts)
}
