ghost use Rattle.std.specs.Prelude.{◌≡◌, ◌==◌, ◌<◌, Bool, [], length, Some, None};
ghost use Rattle.std.specs.Prelude.{IsSome, IfSome, IsOk, IfOk, IfErr, OnOk, OnErr, option_map, slice_get};
ghost use Rattle.std.specs.Option.{option_copied, option_copied_mut};
ghost use Rattle.std.specs.Ordering.{is_le};
ghost use Rattle.std.specs.FinMap.{find, put};
ghost use Rattle.std.specs.Fn.{FnReturnsAt};
ghost use Rattle.std.specs.Borrow.{LendsIf, sem};
ghost use Rattle.ordered_rows.specs.Pairs.{pairs, set_value};
ghost use Rattle.map_words.specs.Pairs.{left, pair_of, IsRising, without, pairs_after, pairs_past};
ghost use Rattle.ordered_rows.specs.Pairs.{ComputesTest};
ghost use Rattle.map_words.specs.Pairs.{IsDownwardClosed};
ghost use Rattle.ordered_rows.specs.Pages.{page_at, starts, IsPaged, IsPageOf};
ghost use Rattle.map_words.specs.Places.{IsAt, IsGap};
ghost use Rattle.ordered_rows.specs.contracts.paged.Rows.{the_row};

use crate::pages::{insert_at, start, take_at};
use crate::scan::Cursor;
use std::alloc::Global;
use std::marker::Model;
use std::mem;

/// Pairs with strictly rising keys, in pages.
#[derive(Debug, Drop)]
pub struct Rows<K: Ord, V> {
    pages: Vec<Vec<(K, V)>>,
    count: usize,
}

impl<K: Ord, V> Model for Rows<K, V> {
    ghost use Rattle.std.specs.Prelude.{List};
    ghost use Rattle.ordered_rows.specs.Pages.{shown, AreRows};

    ghost Value = { List (List (K × V)) };

    ghost view = { λ r. shown r.pages.items };

    ghost invariant = { λ r. AreRows K.cmp r.pages.items r.count };
}

impl<K: Ord, V> Rows<K, V> {
    /// No pairs. It takes no memory.
    pub fn new(alloc: Global) -> Self
        ensures { pairs result ≡ [] }
    {
        Rows {
            pages: Vec::new(alloc),
            count: 0,
        }
    }

    /// How many pairs there are. It takes no memory.
    pub fn len(&self) -> usize
        ensures count { result ≡ length (pairs self.now) }
        ensures rising { IsRising K.cmp (pairs self.now) }
    {
        self.count
    }

    /// Whether there are no pairs. It takes no memory.
    pub fn is_empty(&self) -> bool
        ensures empty { result ≡ (length (pairs self.now) == 0) }
        ensures rising { IsRising K.cmp (pairs self.now) }
    {
        self.count == 0
    }

    /// How many pages there are: none where there are no pairs. Each has at most 64 pairs, and at least 16 where there are two
    /// pages or more. It takes no memory.
    pub fn page_count(&self) -> usize
        ensures count { result ≡ length self.now }
        ensures paged { IsPaged self.now }
        ensures rising { IsRising K.cmp (pairs self.now) }
    {
        self.pages.len()
    }

    /// The page at that place. It takes no memory.
    pub fn page(&self, i: usize) -> &[(K, V)]
        requires { i < length self.now }
        ensures page { result.now ≡ page_at self.now i }
        ensures paged { IsPaged self.now }
        ensures rising { IsRising K.cmp (pairs self.now) }
    {
        &self.pages[i]
    }

    /// The value at the key. It takes no memory.
    pub fn get(&self, key: &K) -> Option<&V>
        ensures value { option_copied result ≡ find K.cmp key.now (pairs self.now) }
        ensures rising { IsRising K.cmp (pairs self.now) }
    {
        let i = self.page_of(key)?;
        match place_in(&self.pages[i], key) {
            Ok(j) => Some(&self.pages[i][j].1),
            Err(_) => None,
        }
    }

    /// The value at the key, for writing. It takes no memory.
    pub fn get_mut(&mut self, key: &K) -> Option<&mut V>
        ensures* writes_back { sem 𝓛 (LendsIf (the_row K.row V.row (record { cmp = K.cmp }) (record { eq = K.eq })
            (record { partial_cmp = K.partial_cmp })) V.row self.entry result (λ w. set_value K.cmp key.now w self.old) self.old) }
        ensures value { option_copied_mut result ≡ find K.cmp key.now (pairs self.old) }
        ensures rising { IsRising K.cmp (pairs self.old) }
    {
        let i = self.page_of(key)?;
        match place_in(&self.pages[i], key) {
            Ok(j) => Some(&mut self.pages[i][j].1),
            Err(_) => None,
        }
    }

    /// Puts the value at the key, and returns the one that it replaced. A key that is there stays as it is.
    /// Where the key is new and memory is wanting, the pair comes back and the rows are unchanged.
    pub fn put(&mut self, key: K, value: V) -> Result<Option<V>, (K, V)>
    where
        K: Drop,
        ensures stored { OnOk result (pairs self.new ≡ put K.cmp key value (pairs self.old)) }
        ensures replaced { IfOk result (λ was. was ≡ find K.cmp key (pairs self.old)) }
        ensures handed_back { IfErr result (λ pair. pair ≡ (key, value)) }
        ensures unchanged { OnErr result (self.new ≡ self.old) }
        ensures overwrite_succeeds { IsSome (find K.cmp key (pairs self.old)) → IsOk result }
        ensures rising { IsRising K.cmp (pairs self.old) }
    {
        let Some(i) = self.page_of(&key) else {
            return self.put_first(key, value);
        };
        match place_in(&self.pages[i], &key) {
            Ok(j) => Ok(Some(mem::replace(&mut self.pages[i][j].1, value))),
            Err(j) => self.put_new(i, j, key, value),
        }
    }

    // Puts the first pair.
    fn put_first(&mut self, key: K, value: V) -> Result<Option<V>, (K, V)>
        requires { self.old ≡ [] }
        ensures stored { OnOk result (pairs self.new ≡ put K.cmp key value (pairs self.old)) }
        ensures replaced { IfOk result (λ was. was ≡ None) }
        ensures handed_back { IfErr result (λ pair. pair ≡ (key, value)) }
        ensures unchanged { OnErr result (self.new ≡ self.old) }
    {
        start(&mut self.pages, (key, value))?;
        self.count = 1;
        Ok(None)
    }

    // Puts a pair with a new key at its place.
    fn put_new(&mut self, i: usize, j: usize, key: K, value: V) -> Result<Option<V>, (K, V)>
        requires page { IsPageOf K.cmp key self.old i }
        requires place { IsGap K.cmp key (page_at self.old i) j }
        ensures stored { OnOk result (pairs self.new ≡ put K.cmp key value (pairs self.old)) }
        ensures replaced { IfOk result (λ was. was ≡ None) }
        ensures handed_back { IfErr result (λ pair. pair ≡ (key, value)) }
        ensures unchanged { OnErr result (self.new ≡ self.old) }
    {
        // No memory holds 2^64 pairs.
        let Some(count) = self.count.checked_add(1) else {
            return Err((key, value));
        };
        insert_at(&mut self.pages, i, j, (key, value))?;
        self.count = count;
        Ok(None)
    }

    /// Takes the pair with that key away, and returns its value. It takes no memory.
    pub fn take(&mut self, key: &K) -> Option<V>
    where
        K: Drop,
        ensures value { result ≡ find K.cmp key.now (pairs self.old) }
        ensures others { pairs self.new ≡ without K.cmp key.now (pairs self.old) }
        ensures rising { IsRising K.cmp (pairs self.old) }
    {
        let i = self.page_of(key)?;
        match place_in(&self.pages[i], key) {
            Ok(j) => {
                let (_, value) = take_at(&mut self.pages, i, j);
                self.count -= 1;
                Some(value)
            }
            Err(_) => None,
        }
    }

    /// The first pair, or the first whose key is greater than `after`. It takes no memory.
    pub fn first_after(&self, after: Option<&K>) -> Option<(&K, &V)>
        ensures first { option_map pair_of result ≡ slice_get (pairs_after K.cmp (option_copied after.entry) (pairs self.now)) 0 }
        ensures rising { IsRising K.cmp (pairs self.now) }
    {
        self.seek(after).next()
    }

    /// Goes over all pairs. It takes no memory.
    pub fn iter(&self) -> Cursor<'_, K, V>
        ensures all { left result ≡ pairs self.now }
        ensures rising { IsRising K.cmp (pairs self.now) }
    {
        Cursor::new(&[], &self.pages)
    }

    /// Goes over the pairs whose keys are greater than `after`, or over all pairs. It takes no memory.
    pub fn seek(&self, after: Option<&K>) -> Cursor<'_, K, V>
        ensures rest { left result ≡ pairs_after K.cmp (option_copied after.entry) (pairs self.now) }
        ensures rising { IsRising K.cmp (pairs self.now) }
    {
        match after {
            None => self.iter(),
            Some(key) => self.seek_past(|x| x.cmp(key).is_le()),
        }
    }

    /// Goes over the pairs past those whose keys pass the test. A key that is less than one that passes has to pass too.
    /// It takes no memory.
    pub fn seek_past<P: Fn(&K) -> bool>(&self, test: P) -> Cursor<'_, K, V>
    where
        P: Drop,
        requires { P.IsAlwaysCallable test }
        ensures rest { (p : K → Bool) → ComputesTest P.Fn test p → IsDownwardClosed K.cmp p → left result ≡ pairs_past p (pairs self.now) }
        ensures rising { IsRising K.cmp (pairs self.now) }
    {
        let behind = self.pages.partition_point(
            |page|
                requires { P.IsAlwaysCallable test }
                ensures { (p : K → Bool) → ComputesTest P.Fn test p → result ≡ starts p page.now.items }
            {
                match page.first() {
                    Some(pair) => test(&pair.0),
                    None => true,
                }
            },
        );
        let Some(i) = behind.checked_sub(1) else {
            return self.iter();
        };
        Cursor::new(past(&self.pages[i], test), &self.pages[behind..])
    }

    // The page that the key is in, or would go into. There is none where there are no pairs.
    fn page_of(&self, key: &K) -> Option<usize>
        ensures none { result ≡ None → self.now ≡ [] }
        ensures page { IfSome result (λ i. IsPageOf K.cmp key.now self.now i) }
        ensures rising { IsRising K.cmp (pairs self.now) }
    {
        if self.pages.is_empty() {
            return None;
        }
        let behind = self.pages.partition_point(
            |page|
                ensures { result ≡ starts (λ x. is_le (K.cmp x key.entry.now)) page.now.items }
            { starts_up_to(page, key) },
        );
        Some(behind.saturating_sub(1))
    }
}

// Whether the first key of the page is at most that one.
#[tactic(auto, unfolding(crate::specs::Pages::starts))]
fn starts_up_to<K: Ord, V>(page: &[(K, V)], key: &K) -> bool
    ensures { result ≡ starts (λ x. is_le (K.cmp x key.now)) page.now }
{
    match page.first() {
        Some(pair) => pair.0.cmp(key).is_le(),
        None => true,
    }
}

// Where the key is in the page, or where it would go.
fn place_in<K: Ord, V>(page: &[(K, V)], key: &K) -> Result<usize, usize>
    requires { IsRising K.cmp page.now }
    ensures found { IfOk result (IsAt K.cmp key.now page.now) }
    ensures absent { IfErr result (IsGap K.cmp key.now page.now) }
{
    page.binary_search_by(|pair| pair.0.cmp(key))
}

// The pairs of the page past those whose keys pass the test.
fn past<K: Ord, V, P: Fn(&K) -> bool>(page: &[(K, V)], test: P) -> &[(K, V)]
where
    P: Drop,
    requires rising { IsRising K.cmp page.now }
    requires callable { P.IsAlwaysCallable test }
    ensures { (p : K → Bool) → ComputesTest P.Fn test p → IsDownwardClosed K.cmp p → result.now ≡ pairs_past p page.now }
{
    let start = page.partition_point(
        |pair|
            requires { P.IsAlwaysCallable test }
            ensures { FnReturnsAt P.Fn test pair.now.0 result }
        { test(&pair.0) },
    );
    &page[start..]
}
