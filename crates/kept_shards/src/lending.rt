ghost use Rattle.std.specs.Prelude.{◌≡◌, IfOk, map};
ghost use Rattle.layers.specs.Machines.{alone, lent_as};
ghost use Rattle.place_kit.specs.Kept.{machine_of};

use layers::LentMachine;
use place_kit::AnyKept;
use std::alloc::Global;
use tect_ids::NoMemory;

/// The machines themselves, lent, in the same order.
pub(crate) fn machines(alloc: Global, kepts: &[AnyKept]) -> Result<Vec<LentMachine<'_>>, NoMemory>
    ensures { IfOk result (λ lent. map (λ m. alone (lent_as m)) lent.items ≡ map machine_of kepts.now) }
{
    let mut lent = Vec::new(alloc);
    for kept in kepts {
        lent.push(kept.machine())?;
    }
    Ok(lent)
}
