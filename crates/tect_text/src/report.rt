ghost use Rattle.std.specs.Prelude.{◌≡◌, ◌++◌, [], ◌∷◌, OnOk, OnErr, codes};
ghost use Rattle.std.specs.Fmt.{decimal};
ghost use Rattle.std.specs.Io.{StartsWith};
ghost use Rattle.tect_text.specs.ReportText.{counted_text, house_text, report_text};
ghost use Rattle.tect_text.specs.DumpText.{dump_text};

use crate::answers::push_answer;
use crate::dump::push_dump;
use crate::words::{push_name, push_number, push_word};
use tect_ids::{Answer, DumpLine, Name, NoMemory, ReportLine};

/// The client, the number of its command, and how many transactions the command has done.
fn push_client_front(text: &mut Vec<u8>, client: &Name, op: u32, steps: u32) -> Result<(), NoMemory>
    ensures ok { OnOk result (text.new.items ≡ text.old.items
        ++ client.now ++ codes " " ++ decimal op ++ codes " " ++ decimal steps ++ codes " ") }
    ensures err { OnErr result (StartsWith text.new.items text.old.items) }
{
    push_name(text, "", client)?;
    push_number(text, " ", op)?;
    push_number(text, " ", steps)?;
    push_word(text, " ")
}

/// The answer of a client's command.
fn push_client(
    text: &mut Vec<u8>,
    client: &Name,
    op: u32,
    steps: u32,
    answer: &Answer,
) -> Result<(), NoMemory>
    ensures ok { OnOk result (text.new.items ≡ text.old.items ++ report_text (ReportLine.Client client.now op steps answer.now)) }
    ensures err { OnErr result (StartsWith text.new.items text.old.items) }
{
    push_client_front(text, client, op, steps)?;
    push_answer(text, answer)
}

fn push_counted(text: &mut Vec<u8>, steps: u32, answer: &Answer) -> Result<(), NoMemory>
    ensures ok { OnOk result (text.new.items ≡ text.old.items ++ counted_text steps answer.now) }
    ensures err { OnErr result (StartsWith text.new.items text.old.items) }
{
    push_number(text, "house ", steps)?;
    push_word(text, " ")?;
    push_answer(text, answer)
}

/// The answer of a world line.
fn push_house(text: &mut Vec<u8>, steps: u32, answer: &Answer) -> Result<(), NoMemory>
    ensures ok { OnOk result (text.new.items ≡ text.old.items ++ house_text steps answer.now) }
    ensures err { OnErr result (StartsWith text.new.items text.old.items) }
{
    match answer {
        Answer::SweptAll { .. } | Answer::LostDisk { .. } => push_answer(text, answer),
        _ => push_counted(text, steps, answer),
    }
}

fn push_report(text: &mut Vec<u8>, line: &ReportLine) -> Result<(), NoMemory>
    ensures ok { OnOk result (text.new.items ≡ text.old.items ++ report_text line.now) }
    ensures err { OnErr result (StartsWith text.new.items text.old.items) }
{
    match line {
        ReportLine::Client {
            client,
            op,
            steps,
            answer,
        } => push_client(text, client, *op, *steps, answer),
        ReportLine::House { steps, answer } => push_house(text, *steps, answer),
        ReportLine::Dump(line) => push_dump(text, line),
    }
}

fn push_report_line(text: &mut Vec<u8>, line: &ReportLine) -> Result<(), NoMemory>
    ensures ok { OnOk result (text.new.items ≡ text.old.items ++ report_text line.now ++ 10 ∷ []) }
    ensures err { OnErr result (StartsWith text.new.items text.old.items) }
{
    push_report(text, line)?;
    push_word(text, "\n")
}

fn push_dump_line(text: &mut Vec<u8>, line: &DumpLine) -> Result<(), NoMemory>
    ensures ok { OnOk result (text.new.items ≡ text.old.items ++ dump_text line.now ++ 10 ∷ []) }
    ensures err { OnErr result (StartsWith text.new.items text.old.items) }
{
    push_dump(text, line)?;
    push_word(text, "\n")
}

/// Adds a line of a report, with its line feed. For want of memory `out` stays as it was.
pub fn write_answer(line: &ReportLine, out: &mut Vec<u8>) -> Result<(), NoMemory>
    ensures ok { OnOk result (out.new.items ≡ out.old.items ++ report_text line.now ++ 10 ∷ []) }
    ensures err { OnErr result (out.new.items ≡ out.old.items) }
{
    let length = out.len();
    if push_report_line(out, line).is_err() {
        out.truncate(length);
        return Err(NoMemory);
    }
    Ok(())
}

/// Adds a line of a dump, with its line feed. For want of memory `out` stays as it was.
pub fn write_dump(line: &DumpLine, out: &mut Vec<u8>) -> Result<(), NoMemory>
    ensures ok { OnOk result (out.new.items ≡ out.old.items ++ dump_text line.now ++ 10 ∷ []) }
    ensures err { OnErr result (out.new.items ≡ out.old.items) }
{
    let length = out.len();
    if push_dump_line(out, line).is_err() {
        out.truncate(length);
        return Err(NoMemory);
    }
    Ok(())
}
