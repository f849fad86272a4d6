ghost use Rattle.std.specs.Prelude.{◌≡◌, ℕ, List, Option};
ghost use Rattle.std.specs.Io.{ReadsAtMost};
ghost use Rattle.std.specs.Io.KnownBytes.{ReadConsumes};
ghost use Rattle.tect_edge.specs.Counts.{HasCause, next_count};

/// A call of the outside failed, and moved no byte.
#[derive(Clone, Copy, Debug, PartialEq, Eq)]
pub struct Failed;

/// Where bytes come from.
pub trait Source {
    /// The bytes that are left, where the source tells them.
    ghost left: { Self → Option (List ℕ) };

    /// How often the source failed, by a count that never falls.
    ghost faults: { Self → ℕ };

    /// How often `take` was called, by a count of 64 bits that stays at its last value.
    ghost calls: { Self → ℕ };

    /// Moves bytes to the front of `into` and answers how many. Zero for a nonempty `into` is the end of input.
    /// `Failed` comes only where the count of faults rose, and then no byte was taken.
    fn take(&mut self, into: &mut [u8]) -> Result<usize, Failed>
        ensures bound { ReadsAtMost result into.new }
        ensures bytes { ReadConsumes (left self.old) (left self.new) result into.new }
        ensures cause { HasCause (faults self.old) (faults self.new) result }
        ensures call { calls self.new ≡ next_count (calls self.old) };
}
