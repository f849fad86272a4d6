ghost use Rattle.std.specs.Prelude.{◌≡◌};
ghost use Rattle.sealed_cache.specs.Sealed.{blocks_of};

use std::marker::Model;
use tect_ids::{Items, RowPart};

/// The blocks of a sealed file, in order. Contracts see a list.
#[derive(Drop)]
pub struct SealedBlocks {
    rows: Items<RowPart>,
}

impl Model for SealedBlocks {
    ghost use Rattle.std.specs.Prelude.{List};
    ghost use Rattle.tect_ids.specs.declared.values.RowPart.{RowPart};
    ghost use Rattle.sealed_cache.specs.Codes.{block_list_code};

    ghost Value = { List RowPart };

    ghost coded = { block_list_code };

    ghost view = { λ blocks. blocks.rows };
}

impl SealedBlocks {
    /// The blocks of a file that is sealed, and none where it is not. It takes no memory.
    pub fn of(sealed: bool, rows: Items<RowPart>) -> Option<SealedBlocks>
        ensures { result ≡ blocks_of sealed rows }
    {
        if sealed {
            Some(SealedBlocks { rows })
        } else {
            None
        }
    }

    /// The blocks with their lengths. It takes no memory.
    pub fn rows(&self) -> &Items<RowPart>
        ensures { result.now ≡ self.now }
    {
        &self.rows
    }
}
