//! What stays of each block that was attached to a file, in every run of the world: the file has it as its row still, and the block is
//! whole, with the bytes that were appended, in all its copies. And what is so of each attach: it is to the file that was open, with the
//! token of the open that was written last. Nothing here is called: each function's contract is a law.
#![tactic(auto)]

ghost use Rattle.std.specs.Prelude.{◌≡◌, List, Some, length};
ghost use Rattle.claim_words.specs.Attached.{AttachedBlocksStand, AttachesAreToOpened, TokensAreLast, TokensAreOpens, rows_of};
ghost use Rattle.claim_words.specs.FilesBecause.{copies_needed};
ghost use Rattle.program_rules.specs.Served.{programs};
ghost use Rattle.tect_ids.specs.declared.ids.BlkId.{BlkId};
ghost use Rattle.tect_ids.specs.declared.ids.Counts.{Counts};
ghost use Rattle.tect_ids.specs.declared.values.NewRow.{NewRow};
ghost use Rattle.world_runs.specs.declared.event.Event.{Event};
ghost use Rattle.world_runs.specs.Moments.{IsWorldRun};

/// In every run of the world each block that was attached to a file is the file's row with that index still. It stands sealed, of that
/// length, with as many rows as it was made with, one for each copy, and each of them is placed and has a chunk of just the bytes that the
/// op's command appends, whether the op still runs, ended or stopped.
pub fn attached_blocks_stand()
    ensures { (counts : Counts) (events : List Event) → IsWorldRun programs counts events → AttachedBlocksStand counts events }
{}

/// In every run of the world a block is to be attached, whatever is replied, to just the file, and with just the token, that the op's actor
/// had opened last at the path of its append as this began.
pub fn attaches_are_to_opened()
    ensures { (counts : Counts) (events : List Event) → IsWorldRun programs counts events → AttachesAreToOpened events }
{}

/// In every run of the world each block was attached with the token that was written into its file last.
pub fn tokens_are_last()
    ensures { (counts : Counts) (events : List Event) → IsWorldRun programs counts events → TokensAreLast events }
{}

/// In every run of the world each token that was written into a file is the op that wrote it, whose command is an open.
pub fn tokens_are_opens()
    ensures { (counts : Counts) (events : List Event) → IsWorldRun programs counts events → TokensAreOpens events }
{}

/// In every run of the world each block is made with a row for each copy, at least one.
pub fn made_blocks_have_all_copies()
    ensures { (counts : Counts) (events : List Event) → IsWorldRun programs counts events
        → (b : BlkId) (rows : List NewRow) → rows_of events b ≡ Some rows → length rows ≡ copies_needed counts }
{}
