ghost use Rattle.std.specs.Prelude.{◌≡◌, ◌∷◌, ◌++◌, [], ◌+◌, ◌-◌, ◌<◌, ◌≤◌, ◌^◌, IfOk, IfErr, OnOk, length};
ghost use Rattle.script_words.specs.Splitting.{parts, parts_behind};
ghost use Rattle.script_words.specs.WordList.{spaced_length};
ghost use Rattle.script_forms.specs.Clients.{seen_after};
ghost use Rattle.script_forms.specs.Reading.{too_large as fault_of, is_comment as comment, text_read, store_text_read, seen_behind};
ghost use Rattle.script_forms.specs.Reading.{plan_of, lines_read, store_read, script_read};
ghost use Rattle.script_reader.specs.GivesPlan.{GivesRead, IsUnlessMemory, IsFaultAt, EndsLine, IsMeasured, ends_script};
ghost use Rattle.script_forms.specs.Spelling.{Spells, IsPlan, IsSmall, script_text};
ghost use Rattle.script_forms.specs.FirstFault.{IsFirstFault};

use crate::acts::whole_store;
use crate::clients::{Clients, names_of};
use crate::faults::LineFault;
use crate::lines::read_line;
use script_forms::ScriptFault;
use script_words::{Limit, first_part};
use std::alloc::Global;
use tect_ids::{Counts, Items, Line, NoMemory, Plan};

fn too_large(what: Limit) -> ScriptFault
    ensures { result ≡ fault_of what }
{
    ScriptFault::TooLarge {
        what,
        limit: what.value(),
    }
}

/// The fault of a line, at its place in the script.
fn at_line(number: u32, line: &[u8], fault: LineFault) -> ScriptFault
    requires { length line.now ≤ 70000 }
    ensures { IsFaultAt number line.now fault result }
{
    match fault {
        LineFault::NoMemory => ScriptFault::NoMemory,
        LineFault::Wrong { left } => ScriptFault::Bad {
            line: number,
            column: (line.len() + 1).saturating_sub(left) as u32,
        },
        LineFault::Large(what) => too_large(what),
    }
}

/// Whether the line is one too many, or too long.
fn measure(number: u32, line: &[u8]) -> Result<(), ScriptFault>
    ensures { IsMeasured number line.now result }
{
    if number > 65_536 {
        return Err(too_large(Limit::Lines));
    }
    if line.len() > 70_000 {
        return Err(too_large(Limit::Line));
    }
    Ok(())
}

fn is_comment(line: &[u8]) -> bool
    ensures { result ≡ comment line.now }
{
    match line {
        [first, ..] => *first == b'#',
        [] => false,
    }
}

/// A line behind the store line, or nothing for a comment.
fn read_text(
    alloc: Global,
    counts: Counts,
    clients: &mut Clients,
    number: u32,
    line: &[u8],
) -> Result<Option<Line>, ScriptFault>
    requires { length clients.old.entries ≤ 64 }
    ensures text { GivesRead result (text_read counts clients.old.entries number line.now) }
    ensures few { OnOk result (length clients.new.entries ≤ 64) }
    ensures seen { IfOk result (λ read. clients.new.entries ≡ seen_behind clients.old.entries read) }
{
    measure(number, line)?;
    if is_comment(line) {
        return Ok(None);
    }
    match read_line(alloc, counts, clients, line) {
        Ok(line) => Ok(Some(line)),
        Err(fault) => Err(at_line(number, line, fault)),
    }
}

/// The counts of a store line, or nothing for a comment.
fn read_store(number: u32, line: &[u8]) -> Result<Option<Counts>, ScriptFault>
    ensures { GivesRead result (store_text_read number line.now) }
{
    measure(number, line)?;
    if is_comment(line) {
        return Ok(None);
    }
    match whole_store(line) {
        Ok(counts) => Ok(Some(counts)),
        Err(fault) => Err(at_line(number, line, fault)),
    }
}

/// What stands behind the line's feed, which must be there.
fn behind_feed<'a>(
    number: u32,
    line: &[u8],
    more: Option<&'a [u8]>,
) -> Result<&'a [u8], ScriptFault>
    requires { length line.now ≤ 70000 }
    ensures { EndsLine number line.now more.entry result }
{
    match more {
        Some(more) => Ok(more),
        None => Err(ScriptFault::Bad {
            line: number,
            column: line.len() as u32 + 1,
        }),
    }
}

/// Whether nothing stands behind the last line feed.
fn is_end(line: &[u8], more: Option<&[u8]>) -> bool
    ensures { result ≡ ends_script line.now more.entry }
{
    match more {
        Some(_) => false,
        None => line.is_empty(),
    }
}

fn add_line(lines: &mut Vec<Line>, line: Line) -> Result<(), NoMemory>
    ensures { OnOk result (lines.new.items ≡ lines.old.items ++ line ∷ []) }
{
    Ok(lines.push(line)?)
}

/// The lines behind the store line, from that number on.
fn read_lines(alloc: Global, counts: Counts, first: u32, bytes: &[u8]) -> Result<Plan, ScriptFault>
    requires { first + length bytes.now < 2 ^ 32 }
    ensures { GivesRead result (plan_of counts (lines_read counts [] first (parts 10 bytes.now))) }
{
    let mut clients = Clients::new(alloc);
    let mut lines = Vec::new(alloc);
    let mut number = first;
    let mut rest = bytes;
    'lines: loop {
        let (line, more) = first_part(rest, b'\n');
        if is_end(line, more) {
            break;
        }
        let read = read_text(alloc, counts, &mut clients, number, line)?;
        rest = behind_feed(number, line, more)?;
        number += 1;
        if let Some(line) = read {
            add_line(&mut lines, line)?;
        }
    }
    Ok(Plan {
        counts,
        clients: names_of(alloc, &clients)?,
        lines: Items::from_vec(lines)?,
    })
}

/// The plan or the fault that reading gives.
fn read_plan(alloc: Global, bytes: &[u8]) -> Result<Plan, ScriptFault>
    ensures { GivesRead result (script_read bytes.now) }
{
    if bytes.len() > 67_108_864 {
        return Err(too_large(Limit::Script));
    }
    let mut number = 1;
    let mut rest = bytes;
    'store: loop {
        let (line, more) = first_part(rest, b'\n');
        if is_end(line, more) {
            return Err(ScriptFault::Bad {
                line: number,
                column: 1,
            });
        }
        let counts = read_store(number, line)?;
        rest = behind_feed(number, line, more)?;
        number += 1;
        if let Some(counts) = counts {
            return read_lines(alloc, counts, number, rest);
        }
    }
}

/// Reads a script: comments, a store line and further lines, each ended by a line feed. A word of a command or world line
/// that the store does not serve yet is a wrong word.
///
/// Where the script is not of this form, the first wrong place is answered, and where it passes a limit, that limit: the
/// script's size comes first, then the lines in order, in each line its number and length and then its words from left to
/// right. A word that is not of its form is wrong, also where it is over a limit.
pub fn read_script(alloc: Global, bytes: &[u8]) -> Result<Plan, ScriptFault>
    ensures exact { GivesRead result (script_read bytes.now) }
    // The bytes spell the plan, and bytes that spell a plan are read.
    ensures spelled { IfOk result (Spells bytes.now) }
    ensures complete { (plan : Plan) → Spells bytes.now plan → IsUnlessMemory plan result }
    // What is written of a plan is read back.
    ensures written { (plan : Plan) → IsPlan plan → IsSmall plan → bytes.now ≡ script_text plan → IsUnlessMemory plan result }
    // Otherwise the fault is the first one.
    ensures first { IfErr result (IsFirstFault bytes.now) }
{
    read_plan(alloc, bytes)
}
