ghost use Rattle.std.specs.Prelude.{◌≡◌, ◌++◌, ◌∷◌, [], map, IfErr, IsErrOf, OnOk, OnErr};
ghost use Rattle.std.specs.Io.KnownBytes.{Appends};
ghost use Rattle.tect_edge.specs.Counts.{Rose};
ghost use Rattle.tect_edge.specs.Prefixes.{AppendsProperPrefix};
ghost use Rattle.tect_text.specs.DumpText.{dump_text};
ghost use Rattle.replay_stories.specs.Output.{line_text, lines_text, AppendsPrefix};
ghost use Rattle.tect_replay.specs.Shown.{shown_lines};

use crate::fault::ReplayFault;
use crate::lines::LineOutput;
use tect_edge::{Sink, put_all};
use tect_ids::{DumpLine, ReportLine};
use tect_text::{write_answer, write_dump};

/// Writes a piece.
pub fn write_piece<K: Sink>(sink: &mut K, piece: &[u8]) -> Result<(), ReplayFault>
    ensures whole { OnOk result (Appends (K.written sink.old) (K.written sink.new) piece.now) }
    ensures part { OnErr result (AppendsProperPrefix (K.written sink.old) (K.written sink.new) piece.now) }
    ensures kept { OnOk result (K.faults sink.new ≡ K.faults sink.old) }
    ensures only { IfErr result (λ fault. fault ≡ ReplayFault.Failed) }
    ensures failed { OnErr result (Rose (K.faults sink.old) (K.faults sink.new)) }
{
    match put_all(sink, piece) {
        Ok(()) => Ok(()),
        Err(_) => Err(ReplayFault::Failed),
    }
}

/// Writes a line by one piece. The buffer is free to use.
pub fn write_line<K: Sink>(
    line: &ReportLine,
    buffer: &mut Vec<u8>,
    sink: &mut K,
) -> Result<(), ReplayFault>
    ensures whole { OnOk result (Appends (K.written sink.old) (K.written sink.new) (line_text line.now)) }
    ensures part { OnErr result (AppendsPrefix (K.written sink.old) (K.written sink.new) (line_text line.now)) }
    ensures kept { ¬ IsErrOf result ReplayFault.Failed → K.faults sink.new ≡ K.faults sink.old }
    ensures failed { IsErrOf result ReplayFault.Failed → Rose (K.faults sink.old) (K.faults sink.new) }
{
    buffer.clear();
    write_answer(line, buffer)?;
    write_piece(sink, buffer)
}

/// Writes a line of a dump by one piece. The buffer is free to use.
fn write_dump_line<K: Sink>(
    line: &DumpLine,
    buffer: &mut Vec<u8>,
    sink: &mut K,
) -> Result<(), ReplayFault>
    ensures whole { OnOk result (Appends (K.written sink.old) (K.written sink.new) (dump_text line.now ++ 10 ∷ [])) }
    ensures part { OnErr result (AppendsPrefix (K.written sink.old) (K.written sink.new) (dump_text line.now ++ 10 ∷ [])) }
    ensures kept { ¬ IsErrOf result ReplayFault.Failed → K.faults sink.new ≡ K.faults sink.old }
    ensures failed { IsErrOf result ReplayFault.Failed → Rose (K.faults sink.old) (K.faults sink.new) }
{
    buffer.clear();
    write_dump(line, buffer)?;
    write_piece(sink, buffer)
}

fn write_dump_lines<K: Sink>(
    lines: &[DumpLine],
    buffer: &mut Vec<u8>,
    sink: &mut K,
) -> Result<(), ReplayFault>
    ensures whole { OnOk result (Appends (K.written sink.old) (K.written sink.new) (lines_text (map ReportLine.Dump lines.now))) }
    ensures part { OnErr result (AppendsPrefix (K.written sink.old) (K.written sink.new) (lines_text (map ReportLine.Dump lines.now))) }
    ensures kept { ¬ IsErrOf result ReplayFault.Failed → K.faults sink.new ≡ K.faults sink.old }
    ensures failed { IsErrOf result ReplayFault.Failed → Rose (K.faults sink.old) (K.faults sink.new) }
{
    'each: for line in lines {
        write_dump_line(line, buffer, sink)?;
    }
    Ok(())
}

/// Writes what a line of the script has to show, each line by one piece. The buffer is free to use.
pub fn write_shown<K: Sink>(
    shown: &LineOutput,
    buffer: &mut Vec<u8>,
    sink: &mut K,
) -> Result<(), ReplayFault>
    ensures whole { OnOk result (Appends (K.written sink.old) (K.written sink.new) (lines_text (shown_lines shown.now))) }
    ensures part { OnErr result (AppendsPrefix (K.written sink.old) (K.written sink.new) (lines_text (shown_lines shown.now))) }
    ensures kept { ¬ IsErrOf result ReplayFault.Failed → K.faults sink.new ≡ K.faults sink.old }
    ensures failed { IsErrOf result ReplayFault.Failed → Rose (K.faults sink.old) (K.faults sink.new) }
{
    match shown {
        LineOutput::Nothing => Ok(()),
        LineOutput::Answer(line) => write_line(line, buffer, sink),
        LineOutput::Dump(lines) => write_dump_lines(lines, buffer, sink),
    }
}
