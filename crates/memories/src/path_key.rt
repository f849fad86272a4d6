ghost use Rattle.std.proofs.Common.{rules};
ghost use Rattle.std.specs.Cmp.{partial_order_from_own_ties};
ghost use Rattle.std.specs.Cmp.Rules.{comparing};
ghost use Rattle.std.specs.Ordering.{as_partial_cmp, eq_by_cmp};
ghost use Rattle.std.specs.Prelude.{◌≡◌};
ghost use Rattle.program_forms.specs.Memories.{path_cmp};

use std::cmp::Ordering;
use std::marker::Model;
use tect_ids::Path;

/// A path by which an actor keeps what it opened. Contracts see the path.
#[derive(Drop)]
pub struct PathKey {
    path: Path,
}

impl Model for PathKey {
    ghost use Rattle.std.specs.Prelude.{ℕ, List};

    ghost Value = { List (List ℕ) };

    ghost view = { λ key. key.path };
}

impl PathKey {
    pub fn new(path: Path) -> PathKey
        ensures { result ≡ path }
    {
        PathKey { path }
    }

    pub fn path(&self) -> &Path
        ensures { result.now ≡ self.now }
    {
        &self.path
    }
}

impl PartialEq for PathKey {
    ghost eq = { eq_by_cmp path_cmp };

    ghost laws = { Prim.search (comparing, rules) };

    fn eq(&self, other: &PathKey) -> bool {
        self.cmp(other).is_eq()
    }
}

impl Eq for PathKey {
    ghost laws = { Prim.search (comparing, rules) };
}

impl PartialOrd for PathKey {
    ghost partial_cmp = { as_partial_cmp path_cmp };

    ghost laws = { partial_order_from_own_ties (Prim.search (comparing, rules)) (Prim.search (comparing, rules)) };

    fn partial_cmp(&self, other: &PathKey) -> Option<Ordering> {
        Some(self.cmp(other))
    }
}

impl Ord for PathKey {
    ghost cmp = { path_cmp };

    ghost total = { Prim.search (comparing, rules) };

    ghost matches_partial_cmp = { Prim.search (comparing, rules) };

    ghost matches_eq = { Prim.search (comparing, rules) };

    fn cmp(&self, other: &PathKey) -> Ordering {
        self.path.as_slice().cmp(other.path.as_slice())
    }
}
