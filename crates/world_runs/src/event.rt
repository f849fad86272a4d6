use program_forms::Heard;
use store_rules::{AnyReply, AnyReq};
use tect_ids::{Answer, Command, OpId};

/// Something that happened in a run.
#[derive(Drop)]
pub enum Event {
    /// The op's actor did something of its own.
    Own { op: OpId, what: Happening },
    /// The whole store was dumped.
    Dumped,
}

/// What an actor does of its own, in an op.
#[derive(Drop)]
pub enum Happening {
    /// The actor began the command.
    Began {
        command: Command,
    },
    /// The actor was to begin the command, and its own history had no room left for that: the op has its answer, and asks
    /// nothing.
    NotBegun {
        command: Command,
    },
    /// The op's request was done at its shard: one transaction. The command heard the reply so.
    Acted {
        req: AnyReq,
        reply: AnyReply,
        heard: Heard,
    },
    /// The command came to its answer.
    Ended {
        answer: Answer,
    },
    /// The actor stopped for good, with its command unfinished.
    Stopped,
    /// The command ended for want of memory, or of room in its actor's own history, with what it had done so far.
    Failed {
        answer: Answer,
    },
}
