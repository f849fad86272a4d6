//! Whether trails and histories have the same entries.
ghost use Rattle.std.specs.Prelude.{◌≡◌, ◌≢◌, ◌↔◌, ◌∷◌, [], IsTrue, All, Contains, MatchOption, MatchResult, IfOk, map};
ghost use Rattle.place_kit.specs.Kept.{history_of};
ghost use Rattle.merge_runs.specs.Keyed.{moment_in};
ghost use Rattle.merge_runs.specs.Merged.{StandInOrder, IsInOrder, IsStored};
ghost use Rattle.merge_runs.specs.Walks.{list_at, IsWalked, IsBlocked, TakesEntry, TakesMoment, BlocksMoment, IsApartFrom};

use crate::keyed::Keyed;
use entry_words::{Entry, Moment};
use passes::Pass;
use place_kit::AnyKept;
use std::alloc::Global;
use tect_ids::NoMemory;

/// The pass of that actor.
pub fn pass_of(passes: &[Pass], actor: u32) -> Option<&Pass>
    ensures { MatchOption result (All (λ p. p.actor ≢ actor) passes.now) (λ p. Contains passes.now p.now × (p.now.actor ≡ actor)) }
{
    for pass in passes {
        if pass.actor() == actor {
            return Some(pass);
        }
    }
    None
}

// Whether the history of that place has the entry.
fn place_has(kept: &AnyKept, entry: &Entry) -> bool
    ensures { IsTrue result ↔ Contains (history_of kept.now) entry.now }
{
    for other in kept.history() {
        if other.is_same(entry) {
            return true;
        }
    }
    false
}

/// Whether the history of its place has the entry.
pub fn is_stored(kepts: &[AnyKept], entry: &Entry) -> bool
    requires { StandInOrder 0 kepts.now }
    ensures { IsTrue result ↔ IsStored kepts.now entry.now }
{
    let at = entry.place.0 as usize;
    at < kepts.len() && place_has(&kepts[at], entry)
}

// The histories, in the order of the places.
fn histories<'a>(alloc: Global, kepts: &'a [AnyKept]) -> Result<Vec<&'a [Entry]>, NoMemory>
    ensures { IfOk result (λ v. map (λ h. h.now) v.items ≡ map history_of kepts.now) }
{
    let mut lists = Vec::with_capacity(alloc, kepts.len())?;
    for kept in kepts {
        lists.push(kept.history())?;
    }
    Ok(lists)
}

// What comes in the list behind the entry, which is first. Else the first one, if it is stamped before the entry, and else the
// entry: one that the moments and the histories do not both have.
fn behind<'a>(list: &'a [Entry], entry: &'a Entry) -> Result<&'a [Entry], &'a Entry>
    ensures { MatchResult result (λ rest. list.now ≡ entry.now ∷ rest.now) (λ x. IsBlocked list.now entry.now x.now) }
{
    let Some((first, rest)) = list.split_first() else {
        return Err(entry);
    };
    if first.is_same(entry) {
        return Ok(rest);
    }
    if first.stamp < entry.stamp {
        return Err(first);
    }
    Err(entry)
}

// Takes the entry from the list of its place. Else answers one that the moments and the histories do not both have.
fn take_entry<'a>(lists: &mut Vec<&'a [Entry]>, entry: &'a Entry) -> Option<&'a Entry>
    ensures { MatchOption result (TakesEntry (map (λ h. h.now) lists.old.items) (map (λ h. h.now) lists.new.items) entry.now)
        (λ x. IsBlocked (list_at (map (λ h. h.now) lists.old.items) entry.now.place.0) entry.now x.now) }
{
    let place = entry.place.0 as usize;
    if place >= lists.len() {
        return Some(entry);
    }
    match behind(lists[place], entry) {
        Ok(rest) => {
            lists[place] = rest;
            None
        }
        Err(apart) => Some(apart),
    }
}

// The same for a moment. A note has no entry.
fn take_moment<'a>(lists: &mut Vec<&'a [Entry]>, moment: &'a Moment) -> Option<&'a Entry>
    ensures { MatchOption result (TakesMoment (map (λ h. h.now) lists.old.items) (map (λ h. h.now) lists.new.items) moment.now)
        (λ x. BlocksMoment (map (λ h. h.now) lists.old.items) moment.now x.now) }
{
    match moment {
        Moment::Act { entry, .. } => take_entry(lists, entry),
        Moment::Local { .. } => None,
    }
}

// The first entry that is left of a list.
fn first_left<'a>(lists: &[&'a [Entry]]) -> Option<&'a Entry>
    ensures { MatchOption result (All (λ h. h.now ≡ []) lists.now)
        (λ x. (n : _) × (rest : _) × (list_at (map (λ h. h.now) lists.now) n ≡ x.now ∷ rest)) }
{
    for list in lists {
        if let Some((first, _)) = list.split_first() {
            return Some(first);
        }
    }
    None
}

/// Walks along the moments, which are in order, and takes each entry from the front of its place's history. Where it comes through,
/// and nothing is left, moments and histories have the same entries; else it answers the first entry that not both have.
pub fn first_apart<'a>(
    alloc: Global,
    kepts: &'a [AnyKept],
    order: &[Keyed<'a>],
) -> Result<Option<&'a Entry>, NoMemory>
    requires places { StandInOrder 0 kepts.now }
    requires order { IsInOrder (map moment_in order.now) }
    ensures { IfOk result (λ apart. MatchOption apart (IsWalked kepts.now (map moment_in order.now))
        (λ e. IsApartFrom kepts.now (map moment_in order.now) e.now)) }
{
    let mut lists = histories(alloc, kepts)?;
    for keyed in order {
        if let Some(apart) = take_moment(&mut lists, keyed.moment) {
            return Ok(Some(apart));
        }
    }
    Ok(first_left(lists.as_slice()))
}
