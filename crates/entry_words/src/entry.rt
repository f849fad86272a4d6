ghost use Rattle.std.specs.Prelude.{◌≡◌, ◌↔◌, IsTrue};

use program_forms::Heard;
use store_rules::{AnyReply, AnyReq};
use tect_ids::{Answer, Command, Layer, OpId, Place};

/// One transaction that was done, as its place and its actor keep it: when, where, by whom, the number of the actor's op
/// that did it (0 where none was running), its number among the actor's transactions, and what was asked and replied.
#[derive(Clone, Debug, PartialEq, Eq, Drop)]
pub struct Entry {
    pub stamp: u64,
    pub place: Place,
    pub actor: u32,
    pub number: u32,
    pub step: u32,
    pub req: AnyReq,
    pub reply: AnyReply,
}

impl Entry {
    /// Whether it is that very entry. It takes no memory.
    pub fn is_same(&self, other: &Entry) -> bool
        ensures { IsTrue result ↔ (self.now ≡ other.now) }
    {
        self == other
    }
}

/// No stamp is given from this clock on: a pass or a shard whose clock has come to it takes nothing more.
pub const CLOCK_LIMIT: u64 = 1 << 63;

/// What a kept machine is: its place and its layer, whether it opened with the root, and whether its history was cut.
#[derive(Clone, Copy, Debug, PartialEq, Eq)]
pub struct Label {
    pub place: Place,
    pub layer: Layer,
    pub rooted: bool,
    pub folded: bool,
}

/// What an actor notes of its ops beside its transactions.
#[derive(Clone, Drop)]
pub enum Note {
    Began { op: OpId, command: Command },
    Ended { op: OpId, answer: Answer },
    Stopped { op: OpId },
}

/// What one actor did: a transaction, or a note.
#[derive(Clone, Drop)]
pub enum Moment {
    /// A transaction, and how its command heard the reply.
    Act { entry: Entry, heard: Heard },
    Local { stamp: u64, actor: u32, note: Note },
}

impl Moment {
    ghost use Rattle.entry_words.specs.Moments.{stamp_of};

    /// When it was done.
    pub fn stamp(&self) -> u64
        ensures { result ≡ stamp_of self.now }
    {
        match self {
            Moment::Act { entry, .. } => entry.stamp,
            Moment::Local { stamp, .. } => *stamp,
        }
    }
}

/// Why a commit or a note was not done.
#[derive(Clone, Copy, Debug, PartialEq, Eq)]
pub enum Refused {
    NoMemory,
    /// The pass has no room. The place is the one that was asked, and 256 for a note.
    HistoryFull { place: Place },
    /// The machine that was found is not the one that was looked for.
    Astray { want: Label, found: Label },
}
