//! What trails and histories have at a step at which they differ.
ghost use Rattle.std.specs.Prelude.{◌≡◌, ◌≢◌, ◌↔◌, IsTrue, All, Contains, MatchOption, IfOk, Some, None};
ghost use Rattle.place_kit.specs.Kept.{history_of};
ghost use Rattle.merge_runs.specs.Merged.{HaveDifferentActors, StandInOrder, entries_of, trails, histories, IsStored};
ghost use Rattle.merge_runs.specs.Splits.{IsActOf, IsApart, IsFault, IsInPass, IsInPlace, IsOther, IsFirst};

use crate::agree::{is_stored, pass_of};
use crate::fault::GatherFault;
use entry_words::{Entry, Moment};
use passes::Pass;
use place_kit::AnyKept;
use tect_ids::NoMemory;

// The entry of the moment, if it is the one of that step.
fn act_at(moment: &Moment, step: u32) -> Option<&Entry>
    ensures { MatchOption result ((e : _) → IsActOf e moment.now → e.step ≢ step) (λ e. IsActOf e.now moment.now
        × (e.now.step ≡ step)) }
{
    match moment {
        Moment::Act { entry, .. } => {
            if entry.step == step {
                Some(entry)
            } else {
                None
            }
        }
        Moment::Local { .. } => None,
    }
}

// The entry of that step.
fn entry_at(pass: &Pass, step: u32) -> Option<&Entry>
    ensures { MatchOption result (All (λ e. e.step ≢ step) (entries_of pass.now)) (λ e. Contains (entries_of pass.now) e.now
        × (e.now.step ≡ step)) }
{
    for moment in pass.moments() {
        if let Some(entry) = act_at(moment, step) {
            return Some(entry);
        }
    }
    None
}

// The entry that the pass of that actor has at that step.
fn in_pass(passes: &[Pass], actor: u32, step: u32) -> Option<&Entry>
    requires { HaveDifferentActors passes.now }
    ensures { MatchOption result (IsInPass passes.now actor step None) (λ e. IsInPass passes.now actor step (Some e.now)) }
{
    match pass_of(passes, actor) {
        Some(pass) => entry_at(pass, step),
        None => None,
    }
}

fn is_same(one: &Option<Entry>, other: &Entry) -> bool
    ensures { IsTrue result ↔ (Some other.now ≡ one.now) }
{
    match one {
        Some(entry) => entry.is_same(other),
        None => false,
    }
}

fn is_other(entry: &Entry, actor: u32, step: u32, in_pass: &Option<Entry>) -> bool
    ensures { IsTrue result ↔ IsOther actor step in_pass.now entry.now }
{
    entry.actor == actor && entry.step == step && !is_same(in_pass, entry)
}

fn first_other_of<'a>(
    history: &'a [Entry],
    actor: u32,
    step: u32,
    in_pass: &Option<Entry>,
) -> Option<&'a Entry>
    ensures { MatchOption result (All (λ e. ¬ IsOther actor step in_pass.now e) history.now)
        (λ e. IsFirst (IsOther actor step in_pass.now) history.now e.now) }
{
    for entry in history {
        if is_other(entry, actor, step, in_pass) {
            return Some(entry);
        }
    }
    None
}

// The first entry of the places that names that actor and step and is not the one of the pass.
fn first_other<'a>(
    kepts: &'a [AnyKept],
    actor: u32,
    step: u32,
    in_pass: &Option<Entry>,
) -> Option<&'a Entry>
    ensures { MatchOption result (All (λ e. ¬ IsOther actor step in_pass.now e) (histories kepts.now))
        (λ e. IsFirst (IsOther actor step in_pass.now) (histories kepts.now) e.now) }
{
    for kept in kepts {
        if let Some(entry) = first_other_of(kept.history(), actor, step, in_pass) {
            return Some(entry);
        }
    }
    None
}

// The entry, if a history has it.
fn if_stored<'a>(kepts: &[AnyKept], entry: &'a Option<Entry>) -> Option<&'a Entry>
    requires { StandInOrder 0 kepts.now }
    ensures { MatchOption result (All (λ e. Some e ≢ entry.now) (histories kepts.now)) (λ e. (Some e.now ≡ entry.now)
        × Contains (histories kepts.now) e.now) }
{
    match entry {
        Some(stored) => {
            if is_stored(kepts, stored) {
                Some(stored)
            } else {
                None
            }
        }
        None => None,
    }
}

fn in_place<'a>(
    kepts: &'a [AnyKept],
    actor: u32,
    step: u32,
    in_pass: &'a Option<Entry>,
) -> Option<&'a Entry>
    requires { StandInOrder 0 kepts.now }
    ensures { MatchOption result (IsInPlace kepts.now actor step in_pass.now None)
        (λ e. IsInPlace kepts.now actor step in_pass.now (Some e.now)) }
{
    match first_other(kepts, actor, step, in_pass) {
        Some(entry) => Some(entry),
        None => if_stored(kepts, in_pass),
    }
}

fn copied(entry: Option<&Entry>) -> Result<Option<Entry>, NoMemory>
    ensures { IfOk result (λ r. MatchOption entry.entry (r ≡ None) (λ e. r ≡ Some e.now)) }
{
    match entry {
        Some(entry) => Ok(Some(entry.clone()?)),
        None => Ok(None),
    }
}

/// What the pass and the places have at the step of an entry that not both of them have.
pub fn split(kepts: &[AnyKept], passes: &[Pass], apart: &Entry) -> GatherFault
    requires places { StandInOrder 0 kepts.now }
    requires actors { HaveDifferentActors passes.now }
    requires apart { IsApart kepts.now passes.now apart.now }
    ensures { IsFault kepts.now passes.now result }
{
    match try_split(kepts, passes, apart) {
        Ok(fault) => fault,
        Err(NoMemory) => GatherFault::NoMemory,
    }
}

fn try_split(kepts: &[AnyKept], passes: &[Pass], apart: &Entry) -> Result<GatherFault, NoMemory>
    requires places { StandInOrder 0 kepts.now }
    requires actors { HaveDifferentActors passes.now }
    requires apart { IsApart kepts.now passes.now apart.now }
    ensures { IfOk result (IsFault kepts.now passes.now) }
{
    let actor = apart.actor;
    let step = apart.step;
    let in_pass = copied(in_pass(passes, actor, step))?;
    let in_place = copied(in_place(kepts, actor, step, &in_pass))?;
    Ok(GatherFault::Split {
        actor,
        step,
        in_pass,
        in_place,
    })
}
