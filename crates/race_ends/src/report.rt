ghost use Rattle.std.specs.Prelude.{◌≡◌, ◌++◌, IfOk, OnOk, map};
ghost use Rattle.store_rules.specs.Dumps.{store_dump};
ghost use Rattle.tect_ids.specs.Places.{HasPlaces};
ghost use Rattle.world_runs.specs.Events.{StampsRise};
ghost use Rattle.race_ends.specs.Told.{DumpsRise, told_by, shown};

use crate::ended::EndedPart;
use crate::replay::redo_up_to;
use all_shards::Shards;
use entry_words::Moment;
use std::alloc::Global;
use tect_ids::{Counts, DumpLine, NoMemory, ReportLine};

/// The report: the answers of each part that a dump ended, each followed by the dump's lines, and then the last answers.
pub(crate) fn tell(
    alloc: Global,
    counts: Counts,
    moments: &[&Moment],
    ended: Vec<EndedPart>,
    last: Vec<ReportLine>,
) -> Result<Vec<ReportLine>, NoMemory>
    requires places { HasPlaces counts }
    requires rising { StampsRise (map (λ m. m.now) moments.now) }
    requires dumps { DumpsRise (map (λ m. m.now) moments.now) 0 ended.items }
    ensures { IfOk result (λ report. report.items ≡ told_by ended.items last.items (map (λ m. m.now) moments.now)) }
{
    if ended.is_empty() {
        return Ok(last);
    }
    let mut last = last;
    let mut report = Vec::new(alloc);
    let mut shards = Shards::start(alloc, counts)?;
    let mut done = 0;
    for part in ended {
        done += redo_up_to(&mut shards, &moments[done..], part.clock)?;
        add_part(&mut report, part, &shards)?;
    }
    report.append(&mut last)?;
    Ok(report)
}

// Adds a part's answers, and the lines of the dump of these shards.
fn add_part(report: &mut Vec<ReportLine>, part: EndedPart, shards: &Shards) -> Result<(), NoMemory>
    ensures { OnOk result (report.new.items ≡ report.old.items ++ shown part shards.now.store) }
{
    let mut answers = part.answers;
    report.append(&mut answers)?;
    add_dump(report, shards.dump()?)
}

fn add_dump(report: &mut Vec<ReportLine>, dump: Vec<DumpLine>) -> Result<(), NoMemory>
    ensures { OnOk result (report.new.items ≡ report.old.items ++ map ReportLine.Dump dump.items) }
{
    for line in dump {
        report.push(ReportLine::Dump(line))?;
    }
    Ok(())
}
