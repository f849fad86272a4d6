ghost use Rattle.std.specs.Prelude.{◌≡◌, length, option_map, slice_get};
ghost use Rattle.tect_calls.specs.MadeBlocks.{chunk_of};

use std::marker::Model;
use tect_ids::{BlkId, ChunkKey, DirId, FileId, Hold, Items, NewRow, Node, ROOT};

/// A directory or a file was made.
#[derive(Debug, Drop)]
pub struct Made {
    pub(crate) node: Node,
}

impl Model for Made {
    ghost use Rattle.tect_ids.specs.declared.ids.Node.{Node};
    ghost use Rattle.tect_ids.specs.Codes.{node_code};

    ghost Value = { Node };

    ghost coded = { node_code };

    ghost view = { λ made. made.node };
}

/// A directory was made.
#[derive(Debug, Drop)]
pub struct MadeDir {
    pub(crate) dir: DirId,
    pub(crate) made: Made,
}

impl Model for MadeDir {
    ghost use Rattle.tect_ids.specs.declared.ids.DirId.{DirId};
    ghost use Rattle.tect_calls.specs.MadeDirs.{IsOfDir};

    ghost Value = { DirId };

    ghost view = { λ made. made.dir };

    ghost invariant = { IsOfDir };
}

/// A file was made.
#[derive(Debug, Drop)]
pub struct MadeFile {
    pub(crate) file: FileId,
    pub(crate) made: Made,
}

impl Model for MadeFile {
    ghost use Rattle.tect_ids.specs.declared.ids.FileId.{FileId};
    ghost use Rattle.tect_calls.specs.MadeFiles.{IsOfFile};

    ghost Value = { FileId };

    ghost view = { λ made. made.file };

    ghost invariant = { IsOfFile };
}

/// A block was made, with these rows.
#[derive(Debug, Drop)]
pub struct BlockMade {
    pub(crate) blk: BlkId,
    pub(crate) rows: Items<NewRow>,
}

impl Model for BlockMade {
    ghost use Rattle.tect_calls.specs.MadeBlocks.{NewBlock};

    ghost Value = { NewBlock };

    ghost view = { λ made. record { blk = made.blk; rows = made.rows } };
}

/// A row of a block was made: the one with that chunk.
#[derive(Debug, Drop)]
pub struct RowMade {
    pub(crate) chunk: ChunkKey,
}

impl Model for RowMade {
    ghost use Rattle.tect_ids.specs.declared.key.ChunkKey.{ChunkKey};
    ghost use Rattle.tect_ids.specs.Codes.{chunk_code};

    ghost Value = { ChunkKey };

    ghost coded = { chunk_code };

    ghost view = { λ row. row.chunk };
}

/// The disk of a chunk had it.
#[derive(Debug, Drop)]
pub struct Stored {
    pub(crate) chunk: ChunkKey,
}

impl Model for Stored {
    ghost use Rattle.tect_ids.specs.declared.key.ChunkKey.{ChunkKey};
    ghost use Rattle.tect_ids.specs.Codes.{chunk_code};

    ghost Value = { ChunkKey };

    ghost coded = { chunk_code };

    ghost view = { λ stored. stored.chunk };
}

/// A block was sealed.
#[derive(Debug, Drop)]
pub struct BlockSealed {
    pub(crate) blk: BlkId,
}

impl Model for BlockSealed {
    ghost use Rattle.tect_ids.specs.declared.ids.BlkId.{BlkId};
    ghost use Rattle.tect_ids.specs.Codes.{blk_code};

    ghost Value = { BlkId };

    ghost coded = { blk_code };

    ghost view = { λ sealed. sealed.blk };
}

/// A hold was granted, and its op did not bind it yet.
#[derive(Debug, Drop)]
pub struct Granted {
    pub(crate) hold: Hold,
}

impl Model for Granted {
    ghost use Rattle.tect_ids.specs.declared.ids.Hold.{Hold};
    ghost use Rattle.tect_ids.specs.Codes.{hold_code};

    ghost Value = { Hold };

    ghost coded = { hold_code };

    ghost view = { λ granted. granted.hold };
}

/// A hold was granted at a block for a row of a file, and its op did not bind it yet.
#[derive(Debug, Drop)]
pub struct GrantedRow {
    pub(crate) blk: BlkId,
    pub(crate) hold: Hold,
    pub(crate) file: FileId,
}

impl Model for GrantedRow {
    ghost use Rattle.store_rules.specs.Holds.{RowGrant};

    ghost Value = { RowGrant };

    ghost view = { λ granted. record { blk = granted.blk; hold = granted.hold; file = granted.file } };
}

/// A hold is not bound, and never will be.
#[derive(Debug, Drop)]
pub struct Spent {
    pub(crate) hold: Hold,
}

impl Model for Spent {
    ghost use Rattle.tect_ids.specs.declared.ids.Hold.{Hold};
    ghost use Rattle.tect_ids.specs.Codes.{hold_code};

    ghost Value = { Hold };

    ghost coded = { hold_code };

    ghost view = { λ spent. spent.hold };
}

/// A hold that is not bound, and never will be, with the node that lists it: it can be released there.
#[derive(Debug, Drop)]
pub struct Freed {
    pub node: Node,
    pub hold: Spent,
}

/// What a reply can teach: a token of any kind.
#[derive(Debug, Drop)]
pub enum Fact {
    Made(Made),
    Granted(Granted),
    Spent(Spent),
}

impl Made {
    /// The root was made before anything else. It takes no memory.
    pub fn root() -> Made
        ensures { result ≡ Node.Dir ROOT }
    {
        Made {
            node: Node::Dir(ROOT),
        }
    }
}

impl MadeDir {
    /// The root was made before anything else. It takes no memory.
    pub fn root() -> MadeDir
        ensures { result ≡ ROOT }
    {
        MadeDir {
            dir: ROOT,
            made: Made::root(),
        }
    }

    /// The directory itself.
    pub fn dir(&self) -> DirId
        ensures { result ≡ self.now }
    {
        self.dir
    }

    /// The same as a token of any object.
    pub fn made(&self) -> &Made
        ensures { result.now ≡ Node.Dir self.now }
    {
        &self.made
    }
}

impl MadeFile {
    /// The file itself.
    pub fn file(&self) -> FileId
        ensures { result ≡ self.now }
    {
        self.file
    }

    /// The same token once more: what was made stays so. It takes no memory.
    pub fn again(&self) -> MadeFile
        ensures { result ≡ self.now }
    {
        MadeFile {
            file: self.file,
            made: Made {
                node: Node::File(self.file),
            },
        }
    }

    /// The same as a token of any object.
    pub fn made(&self) -> &Made
        ensures { result.now ≡ Node.File self.now }
    {
        &self.made
    }
}

impl BlockMade {
    /// The block itself.
    pub fn blk(&self) -> BlkId
        ensures { result ≡ self.now.blk }
    {
        self.blk
    }

    /// How many rows it was made with.
    pub fn row_count(&self) -> usize
        ensures { result ≡ length self.now.rows }
    {
        self.rows.len()
    }

    /// The row with that index, from 0 in the order in which they were given. It takes no memory.
    pub fn row(&self, index: usize) -> Option<RowMade>
        ensures { result ≡ option_map (chunk_of self.now.blk) (slice_get self.now.rows index) }
    {
        let row = self.rows.as_slice().get(index)?;
        Some(RowMade {
            chunk: ChunkKey {
                disk: row.disk,
                blk: self.blk,
                tag: row.tag,
            },
        })
    }
}

impl RowMade {
    /// The chunk of the row.
    pub fn chunk(&self) -> ChunkKey
        ensures { result ≡ self.now }
    {
        self.chunk
    }
}

impl Stored {
    /// The chunk itself.
    pub fn chunk(&self) -> ChunkKey
        ensures { result ≡ self.now }
    {
        self.chunk
    }
}

impl BlockSealed {
    /// The block itself.
    pub fn blk(&self) -> BlkId
        ensures { result ≡ self.now }
    {
        self.blk
    }
}

impl Granted {
    /// The hold itself.
    pub fn hold(&self) -> Hold
        ensures { result ≡ self.now }
    {
        self.hold
    }

    /// The op gives its hold up: it will not bind it any more. It takes no memory.
    pub fn give_up(self) -> Spent
        ensures { result ≡ self }
    {
        Spent { hold: self.hold }
    }
}

impl GrantedRow {
    /// The block.
    pub fn blk(&self) -> BlkId
        ensures { result ≡ self.now.blk }
    {
        self.blk
    }

    /// The hold itself.
    pub fn hold(&self) -> Hold
        ensures { result ≡ self.now.hold }
    {
        self.hold
    }

    /// The file for whose row it was granted.
    pub fn file(&self) -> FileId
        ensures { result ≡ self.now.file }
    {
        self.file
    }

    /// The op gives its hold up: it will not bind it any more. It takes no memory.
    pub fn give_up(self) -> Spent
        ensures { result ≡ self.hold }
    {
        Spent { hold: self.hold }
    }
}

impl Spent {
    /// The hold itself.
    pub fn hold(&self) -> Hold
        ensures { result ≡ self.now }
    {
        self.hold
    }
}
