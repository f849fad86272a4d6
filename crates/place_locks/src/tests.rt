ghost use Rattle.std.specs.Prelude.{◌≡◌, IfOk};

use crate::Places;
use entry_words::Refused;
use passes::{MOST_MOMENTS, Pass};
use place_kit::AnyKept;
use std::alloc::Global;
use std::process::Abort;
use std::sync::Wait;
use std::sync::atomic::{AtomicU64, Ordering};
use std::test::Fail;
use std::thread::join;
use store_rules::FileReply;
use tect_calls::{AnyReply, Asked, Made, file_make_file, name_check_dir, name_look};
use tect_edge::{Gate, MeetGate, OpenGate};
use tect_ids::{BadName, Counts, FileId, Hold, Key, Name, OpId, Place, ROOT};

// The root is at the second place, the first file at the third and the second file at the fourth.
const COUNTS: Counts = Counts {
    names: 2,
    files: 2,
    blocks: 1,
    disks: 1,
    copies: 1,
};

const FIRST: FileId = FileId(4_294_967_297);

const SECOND: FileId = FileId(8_589_934_593);

const HOLD: Hold = Hold {
    op: OpId {
        actor: 1,
        number: 1,
    },
    part: 0,
};

fn key(alloc: Global) -> Result<Key, BadName>
    ensures { IfOk result (λ key. key.dir ≡ ROOT) }
{
    Ok(Key {
        dir: ROOT,
        name: Name::new(alloc, b"a")?,
    })
}

fn make_file(alloc: Global, file: FileId) -> Result<Asked, BadName> {
    Ok(file_make_file(file, HOLD, key(alloc)?, None, &Made::root()))
}

fn is_told<R: Wait + Abort>(
    rt: &R,
    alloc: Global,
    places: &Places,
    pass: &mut Pass,
    asked: Asked,
    text: &str,
) -> Result<(), Fail> {
    let reply = places.commit(rt, pass, asked, 0, &OpenGate)?;
    let reply = format!(in alloc; "{reply:?}")?;
    assert_eq!(rt; reply.as_str(), text);
    Ok(())
}

fn has_lengths(rt: &impl Abort, kepts: &[AnyKept], lengths: &[usize]) {
    assert_eq!(rt; kepts.len(), lengths.len());
    for (kept, length) in kepts.iter().zip(lengths) {
        assert_eq!(rt; kept.history().len(), *length);
    }
}

#[test]
fn two_actors_commit_at_their_places(rt: HostRuntime) -> Result<(), Fail> {
    let alloc = rt.alloc();
    let places = Places::start(alloc, COUNTS)?;
    let mut first = Pass::start(alloc, 1);
    let mut second = Pass::start(alloc, 2);
    let root = "Name(DirIs { parent: DirId(0), sealed: false })";
    is_told(&rt, alloc, &places, &mut first, name_check_dir(ROOT), root)?;
    let look = name_look(key(alloc)?);
    is_told(
        &rt,
        alloc,
        &places,
        &mut second,
        look,
        "Name(Refused { why: NoName })",
    )?;
    let make = make_file(alloc, FIRST)?;
    is_told(&rt, alloc, &places, &mut first, make, "File(Made)")?;
    let make = make_file(alloc, SECOND)?;
    is_told(&rt, alloc, &places, &mut second, make, "File(Made)")?;
    let kepts = places.take_apart()?;
    has_lengths(&rt, kepts.as_slice(), &[0, 2, 1, 1, 0, 0]);
    Ok(())
}

fn fill<R: Wait>(rt: &R, places: &Places, pass: &mut Pass) -> Result<(), Refused> {
    for _ in 0..MOST_MOMENTS {
        places.commit(rt, pass, name_check_dir(ROOT), 0, &OpenGate)?;
    }
    Ok(())
}

/// A gate that remembers what it was told: a bit for each, behind a bit that is set.
#[derive(Drop)]
struct Remembering(AtomicU64);

impl Gate for Remembering {
    fn pass(&self, _worker: u32, _place: Place, inside: bool) {
        let told = self.0.load(Ordering::SeqCst).wrapping_mul(2) | u64::from(inside);
        self.0.store(told, Ordering::SeqCst);
    }
}

#[test]
fn a_full_pass_is_refused_and_the_gate_not_told(rt: HostRuntime) -> Result<(), Fail> {
    let alloc = rt.alloc();
    let places = Places::start(alloc, COUNTS)?;
    let mut pass = Pass::start(alloc, 1);
    fill(&rt, &places, &mut pass)?;
    let gate = Remembering(AtomicU64::new(1));
    let refused = places.commit(&rt, &mut pass, name_check_dir(ROOT), 0, &gate);
    let full = Refused::HistoryFull { place: Place(1) };
    assert!(rt; matches!(&refused, Err(refused) if *refused == full));
    assert_eq!(rt; gate.0.load(Ordering::SeqCst), 1);
    let mut fresh = Pass::start(alloc, 2);
    places.commit(&rt, &mut fresh, name_check_dir(ROOT), 0, &gate)?;
    assert_eq!(rt; gate.0.load(Ordering::SeqCst), 0b1010);
    Ok(())
}

fn makes_file<R: Wait, G: Gate>(
    rt: &R,
    alloc: Global,
    places: &Places,
    worker: u32,
    file: FileId,
    gate: &G,
) -> bool {
    let Ok(asked) = make_file(alloc, file) else {
        return false;
    };
    let mut pass = Pass::start(alloc, worker);
    let done = places.commit(rt, &mut pass, asked, worker, gate);
    matches!(done, Ok(AnyReply::File(FileReply::Made)))
}

#[test]
fn workers_are_inside_two_places_at_once(rt: HostRuntime) -> Result<(), Fail> {
    let alloc = rt.alloc();
    let places = Places::start(alloc, COUNTS)?;
    let gate = MeetGate::start(200_000_000);
    let (first, second) = join(
        &rt,
        || makes_file(&rt, alloc, &places, 0, FIRST, &gate),
        || makes_file(&rt, alloc, &places, 1, SECOND, &gate),
    );
    assert!(rt; first && second);
    assert!(rt; gate.met());
    Ok(())
}
