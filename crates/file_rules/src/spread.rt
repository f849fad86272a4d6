ghost use Rattle.std.specs.Prelude.{◌≡◌, ◌+◌, ◌<◌, ◌≤◌, Some, None, if◌then◌else◌, nat_lt, IfOk, map};
ghost use Rattle.std.specs.List.{IsDistinct};
ghost use Rattle.tect_ids.specs.Keys.{disk_eq};
ghost use Rattle.tect_ids.specs.Places.{HasPlaces};
ghost use Rattle.file_rules.specs.Placing.{copies_of, spread_of, first_disk, rows_on, new_rows};

use std::alloc::Global;
use std::marker::Model;
use tect_ids::{Counts, DiskId, Items, Layer, NewRow, NoMemory, OpId, Place, Tag, place_of};

/// Over how many disks blocks are spread, and on how many of them each lies: on at least one, and on none twice.
#[derive(Drop)]
pub struct Spread {
    disks: u32,
    copies: u32,
}

impl Model for Spread {
    ghost use Rattle.std.specs.Prelude.{◌≤◌};
    ghost use Rattle.file_rules.specs.Placing as placing;

    ghost Value = { placing.Spread };

    ghost view = { λ spread. record { disks = spread.disks; copies = spread.copies } };

    ghost invariant = { λ spread. (1 ≤ spread.copies) × (spread.copies ≤ spread.disks) × (spread.disks ≤ 64) };
}

impl Spread {
    /// By those counts, where there are disks for all copies. A store has 1 to 64 disks.
    pub fn of(counts: Counts) -> Option<Spread>
        requires { HasPlaces counts }
        ensures { result ≡ (if nat_lt counts.disks (copies_of counts) then None else Some (spread_of counts)) }
    {
        let copies = counts.copies.max(1);
        if counts.disks < copies {
            return None;
        }
        Some(Spread {
            disks: counts.disks,
            copies,
        })
    }

    // The first disk of the block with that number.
    fn first_disk(&self, number: u64) -> u32
        ensures first { result ≡ first_disk self.now number }
        ensures in_range { result < self.now.disks }
    {
        // Ids are spread over the disks as over so many shards.
        let shards = Counts {
            names: self.disks,
            files: 1,
            blocks: 1,
            disks: 1,
            copies: 1,
        };
        let Place(disk) = place_of(Layer::Names, number, &shards);
        disk
    }

    /// The rows with which an op makes the block with that number: one for each copy, no two of them on one disk.
    #[tactic(auto, using(crate::proofs::Placed::rows_differ))]
    pub fn rows(&self, alloc: Global, op: OpId, number: u64) -> Result<Items<NewRow>, NoMemory>
        ensures rows { IfOk result (λ rows. rows ≡ new_rows self.now op number) }
        ensures disks { IfOk result (λ rows. IsDistinct disk_eq (map (λ row. row.disk) rows)) }
    {
        let rows = rows_on(alloc, self.disks, op, self.first_disk(number), self.copies)?;
        Items::from_vec(rows)
    }
}

// So many rows on the disks from that one upwards, and round.
fn rows_on(
    alloc: Global,
    disks: u32,
    op: OpId,
    from: u32,
    count: u32,
) -> Result<Vec<NewRow>, NoMemory>
    requires first { from < disks }
    requires few { count ≤ disks }
    requires disks { disks ≤ 64 }
    ensures { IfOk result (λ rows. rows.items ≡ rows_on disks op from 0 count) }
{
    let mut rows = Vec::new(alloc);
    for part in 0..count {
        rows.push(NewRow {
            disk: DiskId((from + part) % disks),
            tag: Tag { op, part },
        })?;
    }
    Ok(rows)
}
