ghost use Rattle.std.specs.Prelude.{◌≡◌, ◌++◌, IsErrOf, OnOk, OnErr};
ghost use Rattle.std.specs.Io.KnownBytes.{Appends};
ghost use Rattle.tect_edge.specs.Counts.{Rose};
ghost use Rattle.tect_edge.specs.Prefixes.{AppendsProperPrefix};
ghost use Rattle.replay_stories.specs.Output.{lines_text, end_text};

use crate::fault::ReplayFault;
use crate::writing::{write_line, write_piece};
use std::alloc::Global;
use tect_edge::Sink;
use tect_ids::ReportLine;

/// Writes the lines of a report, and then `end`, each line by one piece.
///
/// `NoMemory` comes for want of memory, and `Failed` where the sink failed. What was written is then a front of that text.
pub fn write_report<K: Sink>(
    alloc: Global,
    lines: &[ReportLine],
    sink: &mut K,
) -> Result<(), ReplayFault>
    ensures whole { OnOk result (Appends (K.written sink.old) (K.written sink.new) (lines_text lines.now ++ end_text)) }
    ensures part { OnErr result (AppendsProperPrefix (K.written sink.old) (K.written sink.new) (lines_text lines.now ++ end_text)) }
    ensures kept { ¬ IsErrOf result ReplayFault.Failed → K.faults sink.new ≡ K.faults sink.old }
    ensures failed { IsErrOf result ReplayFault.Failed → Rose (K.faults sink.old) (K.faults sink.new) }
{
    let mut buffer = Vec::new(alloc);
    'each: for line in lines {
        write_line(line, &mut buffer, sink)?;
    }
    write_piece(sink, b"end\n")
}
