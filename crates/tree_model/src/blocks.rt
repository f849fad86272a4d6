ghost use Rattle.std.specs.Prelude.{◌≡◌, ◌++◌, [], ◌∷◌, OnOk, OnErr};

use std::alloc::Global;
use std::marker::Model;
use tect_ids::{BlkId, Bytes, NoMemory};

/// A block of a file, with its bytes.
#[derive(Drop)]
pub struct TreeBlock {
    pub blk: BlkId,
    pub bytes: Bytes,
}

/// The blocks of a file, in order. Contracts see a list.
#[derive(Drop)]
pub struct TreeBlocks {
    blocks: Vec<TreeBlock>,
}

impl Model for TreeBlocks {
    ghost use Rattle.std.specs.Prelude.{List};
    ghost use Rattle.std.specs.Coded.{coded_list};
    ghost use Rattle.tree_model.specs.declared.blocks.TreeBlock.{TreeBlock as AnyBlock};
    ghost use Rattle.tree_model.specs.BlockCodes.{tree_block_code};

    ghost Value = { List AnyBlock };

    ghost coded = { coded_list tree_block_code };

    ghost view = { λ list. list.blocks.items };
}

impl TreeBlocks {
    /// No blocks. It takes no memory.
    pub fn new(alloc: Global) -> TreeBlocks
        ensures { result ≡ [] }
    {
        TreeBlocks {
            blocks: Vec::new(alloc),
        }
    }

    /// The blocks in their order. It takes no memory.
    pub fn as_slice(&self) -> &[TreeBlock]
        ensures { result.now ≡ self.now }
    {
        &self.blocks
    }

    /// Adds a block at the end.
    pub fn push(&mut self, block: TreeBlock) -> Result<(), NoMemory>
        ensures ok { OnOk result (self.new ≡ self.old ++ (block ∷ [])) }
        ensures err { OnErr result (self.new ≡ self.old) }
    {
        match self.blocks.push(block) {
            Ok(()) => Ok(()),
            Err(_) => Err(NoMemory),
        }
    }
}
