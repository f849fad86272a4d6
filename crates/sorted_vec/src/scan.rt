ghost use Rattle.std.specs.Prelude.{◌≡◌, length};
ghost use Rattle.std.specs.Iterator.{YieldsFirstBy, at_most};
ghost use Rattle.map_words.specs.Pairs.{left, pair_of};

use std::iter::Iterator;
use std::marker::Model;

/// The pairs that are left to go over, in the order of their keys.
#[derive(Debug, Drop)]
pub struct Pairs<'a, K, V> {
    rest: &'a [(K, V)],
}

impl<'a, K, V> Model for Pairs<'a, K, V> {
    ghost use Rattle.std.specs.Prelude.{List};

    ghost Value = { List (K × V) };

    ghost view = { λ c. c.rest.now };
}

impl<'a, K, V> Pairs<'a, K, V> {
    // Over these pairs.
    pub(crate) fn new(rest: &'a [(K, V)]) -> Self
        ensures { left result ≡ rest.now }
    {
        Pairs { rest }
    }
}

impl<'a, K, V> Iterator for Pairs<'a, K, V> {
    type Item = (&'a K, &'a V);

    ghost next_gives = { YieldsFirstBy pair_of left };

    ghost remaining = { λ c. at_most (length (left c)) };

    fn next(&mut self) -> Option<(&'a K, &'a V)> {
        let (first, rest) = self.rest.split_first()?;
        self.rest = rest;
        Some((&first.0, &first.1))
    }
}
