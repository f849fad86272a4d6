ghost use Rattle.std.specs.Prelude.{◌≡◌, false, IfSome, Some};
ghost use Rattle.tect_ids.specs.Keys.{name_eq};

use std::marker::Model;
use tect_ids::Name;

/// The old and the new name of a rename, which differ.
#[derive(Drop)]
pub struct NamePair {
    from: Name,
    to: Name,
}

impl Model for NamePair {
    ghost use Rattle.program_rules.specs.NamePairs.{OldAndNew, Differ};

    ghost Value = { OldAndNew };

    ghost view = { λ names. record { from = names.from; to = names.to } };

    ghost invariant = { Differ };
}

impl NamePair {
    /// The pair of these names, if they differ. It takes no memory.
    pub fn new(from: Name, to: Name) -> Option<NamePair>
        ensures { result ≡ pair_of from to (name_eq from to) }
    {
        if from == to {
            return None;
        }
        Some(NamePair { from, to })
    }

    ghost use Rattle.program_rules.specs.NamePairs.{pair_of};

    /// The old name.
    pub fn from(&self) -> &Name
        ensures same { result.now ≡ self.now.from }
        ensures other { name_eq self.now.from self.now.to ≡ false }
    {
        &self.from
    }

    /// The new name.
    pub fn to(&self) -> &Name
        ensures { result.now ≡ self.now.to }
    {
        &self.to
    }

    /// The old name itself, with the new one let go. It takes no memory.
    pub fn into_from(self) -> Name
        ensures { result ≡ self.from }
    {
        self.from
    }
}
