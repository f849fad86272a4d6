use crate::gathered::Gathered;
use crate::putting::{Putting, Sealing};
use crate::reading::{Fetching, Reading};
use crate::spread::Spread;
use memories::PathKey;
use tect_calls::{BlockSealed, GrantedRow, MadeFile, Spent};
use tect_ids::{Answer, BlkId, Bytes, FileId, Key, Token};

/// A file is opened: it is found, and a new token is written into it.
#[derive(Drop)]
pub enum Open {
    Find { key: Key, path: PathKey },
    Take { file: FileId, path: PathKey },
}

/// What an append has from its block's making on: the token that the file has to have, the bytes, and the hold of its block for a
/// row of the file.
#[derive(Drop)]
pub struct Appending {
    pub token: Token,
    pub bytes: Bytes,
    pub hold: GrantedRow,
}

/// A block is added to an opened file: it is made, its bytes are put on its disks, it is sealed, and attached.
#[derive(Drop)]
pub enum Append {
    Make {
        file: MadeFile,
        token: Token,
        bytes: Bytes,
        spread: Spread,
    },
    Put {
        appending: Appending,
        putting: Putting,
    },
    Seal {
        appending: Appending,
        sealing: Sealing,
    },
    Attach {
        appending: Appending,
        sealed: BlockSealed,
    },
    /// The block's hold is given up, before the answer.
    Release {
        blk: BlkId,
        hold: Spent,
        answer: Answer,
    },
}

/// The blocks of a file are listed.
#[derive(Drop)]
pub enum Blocks {
    Find { key: Key },
    List { file: FileId },
}

/// The bytes of a file are read, block by block.
#[derive(Drop)]
pub enum Read {
    Find {
        key: Key,
    },
    List {
        file: FileId,
    },
    /// It is asked where the block lies.
    Locate {
        reading: Reading,
        blk: BlkId,
    },
    /// A chunk of the block is asked for.
    Fetch {
        reading: Reading,
        fetching: Fetching,
    },
}
