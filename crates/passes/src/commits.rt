ghost use Rattle.std.specs.Prelude.{◌≡◌, ℕ, Result, IfOk, OnErr};
ghost use Rattle.tect_ids.specs.declared.ids.Counts.{Counts};
ghost use Rattle.tect_ids.specs.declared.ids.Place.{Place};
ghost use Rattle.store_rules.specs.declared.any.AnyReq.{AnyReq};
ghost use Rattle.store_rules.specs.Places.{request_place};
ghost use Rattle.entry_words.specs.declared.entry.Entry.{Entry};
ghost use Rattle.entry_words.specs.declared.entry.Refused.{Refused};
ghost use Rattle.passes.specs.Commits.{IsFull};
ghost use Rattle.passes.specs.Adding.{Committed, entered};

use crate::pass::Pass;
use entry_words::{Label, Refused};
use store_rules::AnyReply;
use tect_calls::Asked;

/// The machine that a request found is not the one that was looked for.
#[derive(Clone, Copy, Debug, PartialEq, Eq)]
pub struct Astray {
    pub want: Label,
    pub found: Label,
}

/// Where requests are committed, as the shards of a store, or places behind locks.
pub trait Commits {
    /// How many shards each layer has.
    ghost counts: { Self → Counts };

    /// What a commit did there, from that clock of the pass on: the entry is the one that the pass then has.
    ghost done: { Self → Self → ℕ → AnyReq → Result Entry Refused → Type 0 };

    /// Does one transaction at the request's place, and adds its entry to the pass, stamped above its clock. It is refused as
    /// full exactly where the pass is; it may be refused for want of memory. A refusal leaves the pass as it was.
    fn commit(&mut self, pass: &mut Pass, asked: Asked) -> Result<AnyReply, Refused>
        ensures counts { counts self.new ≡ counts self.old }
        ensures done { done self.old self.new pass.old.clock asked (entered (counts self.old) pass.old pass.new asked result) }
        ensures ok { IfOk result (λ reply. Committed (counts self.old) pass.old pass.new asked reply) }
        ensures full { IsFull pass.old → result ≡ Err (Refused.HistoryFull (request_place (counts self.old) asked)) }
        ensures only { (place : Place) → result ≡ Err (Refused.HistoryFull place) → IsFull pass.old
            × (place ≡ request_place (counts self.old) asked) }
        ensures err { OnErr result (pass.new ≡ pass.old) };
}
