ghost use Rattle.std.specs.Prelude.{◌≡◌, [], ◌∷◌, ◌++◌, IfOk, OnErr, MatchOption};

use crate::ids::NoMemory;
use crate::name::{Name, Path};
use std::marker::Model;

/// Some names of a path that follow each other. The path is shared.
#[derive(Drop)]
pub struct PathPart {
    path: Path,
    at: usize,
    end: usize,
}

impl Model for PathPart {
    ghost use Rattle.std.specs.Prelude.{ℕ, ◌≤◌, List, length, take, drop};

    ghost Value = { List (List ℕ) };

    ghost view = { λ part. drop part.at (take part.end part.path) };

    ghost invariant = { λ part. (part.at ≤ part.end) × (part.end ≤ length part.path) };
}

impl PathPart {
    /// All names of the path. It takes no memory.
    pub fn whole(path: Path) -> PathPart
        ensures { result ≡ path }
    {
        let end = path.len();
        PathPart { path, at: 0, end }
    }

    /// Takes the first name off, if there is one. It takes memory for a name of more than 30 bytes alone; for want of it nothing is
    /// changed.
    pub fn take_first(&mut self) -> Result<Option<Name>, NoMemory>
        ensures ok { IfOk result (λ name. MatchOption name ((self.old ≡ []) × (self.new ≡ [])) (λ n. self.old ≡ n ∷ self.new)) }
        ensures err { OnErr result (self.new ≡ self.old) }
    {
        if self.at == self.end {
            return Ok(None);
        }
        let name = self.path.as_slice()[self.at].clone()?;
        self.at += 1;
        Ok(Some(name))
    }

    /// Takes the last name off, if there is one. It takes memory for a name of more than 30 bytes alone; for want of it nothing is
    /// changed.
    pub fn take_last(&mut self) -> Result<Option<Name>, NoMemory>
        ensures ok { IfOk result (λ name. MatchOption name ((self.old ≡ []) × (self.new ≡ [])) (λ n. self.old ≡ self.new ++ n ∷ [])) }
        ensures err { OnErr result (self.new ≡ self.old) }
    {
        if self.at == self.end {
            return Ok(None);
        }
        let last = self.end - 1;
        let name = self.path.as_slice()[last].clone()?;
        self.end = last;
        Ok(Some(name))
    }
}
