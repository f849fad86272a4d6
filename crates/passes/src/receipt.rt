use entry_words::Entry;
use std::marker::Model;

/// What the history of a place gives for an entry that it was given: the same entry, for the pass of its actor. Contracts see
/// that entry.
///
/// A pass makes one as it adds the entry to a history, with [`Pass::enter`](crate::Pass::enter); there is no other way to it. It
/// goes into the pass with [`Pass::record`](crate::Pass::record), which takes nothing else.
#[derive(Drop)]
pub struct Receipt {
    pub(crate) entry: Entry,
}

impl Model for Receipt {
    ghost use Rattle.entry_words.specs.declared.entry.Entry.{Entry};

    ghost Value = { Entry };

    ghost view = { λ r. r.entry };
}
