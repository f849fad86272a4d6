ghost use Rattle.std.specs.Prelude.{◌≡◌, ◌==◌, [], length, map, IsSome, IsOk, IfOk, IfErr, OnOk, OnErr};
ghost use Rattle.std.specs.Option.{option_copied};
ghost use Rattle.std.specs.FinMap.{find, put};
ghost use Rattle.std.specs.Fn.{FnReturnsAt};
ghost use Rattle.map_words.specs.Pairs.{left, IsRising, without, with_values};
ghost use Rattle.map_words.specs.Places.{IsAt, IsGap};

use crate::scan::Pairs;
use std::alloc::Global;
use std::marker::Model;
use std::mem;

/// Pairs with strictly rising keys, in one vector. A put or a take may move them all.
#[derive(Drop)]
pub struct SortedVec<K: Ord, V> {
    items: Vec<(K, V)>,
}

impl<K: Ord, V> Model for SortedVec<K, V> {
    ghost use Rattle.std.specs.Prelude.{List};
    ghost use Rattle.map_words.specs.Pairs.{IsRising};

    ghost Value = { List (K × V) };

    ghost view = { λ r. r.items.items };

    ghost invariant = { λ r. IsRising K.cmp r.items.items };
}

impl<K: Ord, V> SortedVec<K, V> {
    /// No pairs. It takes no memory.
    pub fn new(alloc: Global) -> Self
        ensures { left result ≡ [] }
    {
        SortedVec {
            items: Vec::new(alloc),
        }
    }

    /// How many pairs there are. It takes no memory.
    pub fn len(&self) -> usize
        ensures count { result ≡ length (left self.now) }
        ensures rising { IsRising K.cmp (left self.now) }
    {
        self.items.len()
    }

    /// Whether there are no pairs. It takes no memory.
    pub fn is_empty(&self) -> bool
        ensures empty { result ≡ (length (left self.now) == 0) }
        ensures rising { IsRising K.cmp (left self.now) }
    {
        self.items.is_empty()
    }

    /// The value at the key. It takes no memory.
    pub fn get(&self, key: &K) -> Option<&V>
        ensures value { option_copied result ≡ find K.cmp key.now (left self.now) }
        ensures rising { IsRising K.cmp (left self.now) }
    {
        match self.search(key) {
            Ok(i) => Some(&self.items[i].1),
            Err(_) => None,
        }
    }

    /// Puts the value at the key, and returns the one that it replaced. A key that is there stays as it is.
    /// Where the key is new and memory is wanting, the pair comes back and nothing changes.
    pub fn put(&mut self, key: K, value: V) -> Result<Option<V>, (K, V)>
    where
        K: Drop,
        ensures stored { OnOk result (left self.new ≡ put K.cmp key value (left self.old)) }
        ensures replaced { IfOk result (λ was. was ≡ find K.cmp key (left self.old)) }
        ensures handed_back { IfErr result (λ pair. pair ≡ (key, value)) }
        ensures unchanged { OnErr result (self.new ≡ self.old) }
        ensures overwrite_succeeds { IsSome (find K.cmp key (left self.old)) → IsOk result }
        ensures rising { IsRising K.cmp (left self.old) }
    {
        match self.search(&key) {
            Ok(i) => Ok(Some(mem::replace(&mut self.items[i].1, value))),
            Err(i) => match self.items.insert(i, (key, value)) {
                Ok(()) => Ok(None),
                Err(failed) => Err(failed.value),
            },
        }
    }

    /// Takes the pair with that key away, and returns its value. It takes no memory.
    pub fn take(&mut self, key: &K) -> Option<V>
    where
        K: Drop,
        ensures value { result ≡ find K.cmp key.now (left self.old) }
        ensures others { left self.new ≡ without K.cmp key.now (left self.old) }
        ensures rising { IsRising K.cmp (left self.old) }
    {
        match self.search(key) {
            Ok(i) => {
                let (_, value) = self.items.remove(i);
                Some(value)
            }
            Err(_) => None,
        }
    }

    /// Goes over all pairs. It takes no memory.
    pub fn iter(&self) -> Pairs<'_, K, V>
        ensures all { left result ≡ left self.now }
        ensures rising { IsRising K.cmp (left self.now) }
    {
        Pairs::new(&self.items)
    }

    /// Gives each pair the value that the call makes of its own. It takes no memory.
    pub fn map_values<F: Fn(&V) -> V>(&mut self, make: F)
    where
        F: Drop,
        V: Drop,
        requires { F.IsAlwaysCallable make }
        ensures values { (f : V → V) → ((v w : V) → FnReturnsAt F.Fn make v w → w ≡ f v) → left self.new ≡ with_values f (left self.old) }
        ensures rising { IsRising K.cmp (left self.old) }
    {
        for pair in self.items.iter_mut() {
            pair.1 = make(&pair.1);
        }
    }

    // Where the key is, or where it would go.
    fn search(&self, key: &K) -> Result<usize, usize>
        ensures found { IfOk result (IsAt K.cmp key.now (left self.now)) }
        ensures absent { IfErr result (IsGap K.cmp key.now (left self.now)) }
        ensures rising { IsRising K.cmp (left self.now) }
    {
        self.items.binary_search_by(|pair| pair.0.cmp(key))
    }
}
