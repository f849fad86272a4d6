ghost use Rattle.std.specs.Prelude.{◌≡◌, ◌<◌, ◌≤◌, ◌^◌, ◌+◌, ◌∷◌, IfOk, IfErr, OnOk, map};
ghost use Rattle.std.specs.List.{All, Contains, flat_map};
ghost use Rattle.racer_stories.specs.Closed.{AllClosed, Ended};

use entry_words::CLOCK_LIMIT;
use program_calls::Programs;
use race_ends::{EndedPart, RaceFault};
use racers::Racer;
use std::alloc::Global;
use tect_ids::{NoMemory, ReportLine};

/// The greatest of the clients' clocks and `floor`.
fn greatest_clock<P: Programs + Drop>(racers: &[Racer<P>], floor: u64) -> u64
    ensures floor { floor ≤ result }
    ensures all { All (λ r. r.client.clock ≤ result) racers.now }
    ensures one { Contains (floor ∷ map (λ r. r.client.clock) racers.now) result }
{
    let mut clock = floor;
    'racers: for racer in racers {
        clock = clock.max(racer.client.clock());
    }
    clock
}

/// Takes out the client's answers, and raises its clock.
fn close<P: Programs + Drop>(
    racer: &mut Racer<P>,
    clock: u64,
    answers: &mut Vec<ReportLine>,
) -> Result<(), NoMemory>
    requires { clock + 1 < 2 ^ 64 }
    ensures { OnOk result (Ended P.rules clock racer.old racer.new answers.old.items answers.new.items) }
{
    answers.append(&mut racer.answers)?;
    racer.client.raise(clock);
    let _pass = racer.client.pass();
    Ok(())
}

/// Takes out the answers of all clients, one client after another, and raises their clocks.
fn close_all<P: Programs + Drop>(
    alloc: Global,
    racers: &mut [Racer<P>],
    clock: u64,
) -> Result<Vec<ReportLine>, NoMemory>
    requires { clock + 1 < 2 ^ 64 }
    ensures closed { OnOk result (AllClosed P.rules clock racers.old racers.new) }
    ensures answers { IfOk result (λ lines. lines.items ≡ flat_map (λ r. r.answers.items) racers.old) }
{
    let mut answers = Vec::new(alloc);
    'racers: for racer in racers.iter_mut() {
        close(racer, clock, &mut answers)?;
    }
    Ok(answers)
}

/// Ends a part, at a clock that no client's exceeds and that is not below `floor`. There is no memory where it has come to the
/// limit of clocks.
pub fn end_part<P: Programs + Drop>(
    alloc: Global,
    racers: &mut [Racer<P>],
    floor: u64,
) -> Result<EndedPart, RaceFault>
    ensures clock { IfOk result (λ part. (floor ≤ part.clock) × (part.clock < 2 ^ 63)) }
    ensures highest { IfOk result (λ part. All (λ r. r.client.clock ≤ part.clock) racers.old) }
    ensures closed { IfOk result (λ part. AllClosed P.rules part.clock racers.old racers.new) }
    ensures answers { IfOk result (λ part. part.answers.items ≡ flat_map (λ r. r.answers.items) racers.old) }
    ensures fault { IfErr result (λ fault. fault ≡ RaceFault.NoMemory) }
{
    let clock = greatest_clock(racers, floor);
    if clock >= CLOCK_LIMIT {
        return Err(RaceFault::NoMemory);
    }
    match close_all(alloc, racers, clock) {
        Ok(answers) => Ok(EndedPart { clock, answers }),
        Err(NoMemory) => Err(RaceFault::NoMemory),
    }
}
