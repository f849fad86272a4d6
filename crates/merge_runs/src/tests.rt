ghost use Rattle.std.specs.Prelude.{◌≡◌, OnOk, IfOk, None};

use crate::{Merged, gather, gather_lent};
use entry_words::{Moment, Note};
use file_shard::FileShard;
use name_shard::NameShard;
use passes::Pass;
use place_kit::{AnyKept, Kept};
use std::alloc::{AllocError, Global};
use std::test::Fail;
use store_rules::{FileReq, NameReq};
use tect_ids::{Answer, Command, FileId, Hold, OpId, Place, ROOT};

const OP: OpId = OpId {
    actor: 1,
    number: 4,
};

fn check_root(names: &mut Kept<NameShard>, pass: &mut Pass) -> Result<(), Fail>
    ensures { OnOk result ((names.new.label ≡ names.old.label) × (pass.new.actor ≡ pass.old.actor)
        × (pass.new.running ≡ pass.old.running)) }
{
    let _reply = names.commit(pass, NameReq::CheckDir { dir: ROOT })?;
    Ok(())
}

fn release(files: &mut Kept<FileShard>, pass: &mut Pass) -> Result<(), Fail>
    ensures { OnOk result ((files.new.label ≡ files.old.label) × (pass.new.actor ≡ pass.old.actor)
        × (pass.new.running ≡ pass.old.running)) }
{
    let hold = Hold { op: OP, part: 0 };
    let file = FileId(9);
    let _reply = files.commit(pass, FileReq::Release { file, hold })?;
    Ok(())
}

/// What two actors did at two places.
#[derive(Drop)]
struct Scene {
    names: Kept<NameShard>,
    files: Kept<FileShard>,
    one: Pass,
    two: Pass,
}

/// One op of the first actor at both places, with two transactions of the second actor between.
fn act(
    names: &mut Kept<NameShard>,
    files: &mut Kept<FileShard>,
    one: &mut Pass,
    two: &mut Pass,
) -> Result<(), Fail>
    requires { (one.old.actor ≡ 1) × (one.old.running ≡ None) × (two.old.actor ≡ 2) }
    ensures { OnOk result ((names.new.label ≡ names.old.label) × (files.new.label ≡ files.old.label) × (one.new.actor ≡ 1)
        × (two.new.actor ≡ 2)) }
{
    let command = Command::SweepAll;
    one.note(Note::Began { op: OP, command })?;
    check_root(names, one)?;
    release(files, two)?;
    check_root(names, two)?;
    release(files, one)?;
    let answer = Answer::Done;
    one.note(Note::Ended { op: OP, answer })?;
    Ok(())
}

fn acted(alloc: Global) -> Result<Scene, Fail>
    ensures { IfOk result (λ a. (a.names.label.place.0 ≡ 0) × (a.files.label.place.0 ≡ 1) × (a.one.actor ≡ 1) × (a.two.actor ≡ 2)) }
{
    let mut names = Kept::open_names(alloc, Place(0), true)?;
    let mut files = Kept::open_files(alloc, Place(1));
    let mut one = Pass::start(alloc, 1);
    let mut two = Pass::start(alloc, 2);
    act(&mut names, &mut files, &mut one, &mut two)?;
    Ok(Scene {
        names,
        files,
        one,
        two,
    })
}

/// Stamp, place and actor of each moment.
fn told(alloc: Global, moments: &[&Moment]) -> Result<String, AllocError> {
    let mut text = String::new(alloc);
    for moment in moments {
        match moment {
            Moment::Act { entry, .. } => write!(
                text,
                "{} {} {}, ",
                entry.stamp, entry.place.0, entry.actor
            )?,
            Moment::Local { stamp, actor, .. } => write!(text, "{stamp} note {actor}, ")?,
        }
    }
    Ok(text)
}

/// What is gathered of both places and these passes, lent and then owned.
fn both(
    alloc: Global,
    names: Kept<NameShard>,
    files: Kept<FileShard>,
    one: Pass,
    two: Pass,
) -> Result<(String, String), AllocError>
    requires places { (names.label.place.0 ≡ 0) × (files.label.place.0 ≡ 1) }
    requires actors { (one.actor ≡ 1) × (two.actor ≡ 2) }
{
    let kepts = vec![in alloc; AnyKept::Name(names), AnyKept::File(files)]?;
    let passes = vec![in alloc; one, two]?;
    let lent = match gather_lent(alloc, kepts.as_slice(), passes.as_slice()) {
        Ok(moments) => told(alloc, moments.as_slice())?,
        Err(fault) => format!(in alloc; "{fault:?}")?,
    };
    let owned = match gather(kepts, passes) {
        Ok(merged) => told_of(alloc, &merged)?,
        Err(fault) => format!(in alloc; "{fault:?}")?,
    };
    Ok((lent, owned))
}

fn told_of(alloc: Global, merged: &Merged) -> Result<String, AllocError> {
    match merged.entries() {
        Ok(moments) => told(alloc, moments.as_slice()),
        Err(_) => Ok(String::new(alloc)),
    }
}

#[test]
fn moments_are_in_order(rt: HostRuntime) -> Result<(), Fail> {
    let alloc = rt.alloc();
    let done = acted(alloc)?;
    let (lent, owned) = both(alloc, done.names, done.files, done.one, done.two)?;
    let all = "1 1 2, 1 note 1, 2 0 1, 3 0 2, 3 1 1, 4 note 1, ";
    assert_eq!(&rt; lent.as_str(), all);
    assert_eq!(&rt; owned.as_str(), all);
    Ok(())
}
