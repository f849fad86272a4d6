ghost use Rattle.std.specs.Prelude.{◌≡◌, ◌≢◌, ◌⊎◌, [], ◌++◌, IfOk, string_bytes, codes};
ghost use Rattle.std.specs.Fmt.{decimal};
ghost use Rattle.script_words.specs.LimitText.{limit_word};
ghost use Rattle.std.specs.Io.KnownBytes.{Appends};
ghost use Rattle.tect_edge.specs.Counts.{Rose};
ghost use Rattle.tect_edge.specs.Prefixes.{AppendsProperPrefix};
ghost use Rattle.tect_app.specs.Refusals.{fault_text, fault_status as status_of};

use crate::status::Status;
use std::alloc::{AllocError, Global};
use tect_edge::{Sink, put_all};
use tect_text::{Limit, ScriptFault};

/// Writes the last line, and answers that status where nothing fails.
pub fn close<K: Sink>(sink: &mut K, text: &[u8], status: Status) -> Status
    requires { status ≢ Status.WriteFault }
    ensures status { (result ≡ status) ⊎ (result ≡ Status.WriteFault) }
    ensures whole { result ≡ status → Appends (K.written sink.old) (K.written sink.new) text.now
        × (K.faults sink.new ≡ K.faults sink.old) }
    ensures part { result ≡ Status.WriteFault → AppendsProperPrefix (K.written sink.old) (K.written sink.new) text.now
        × Rose (K.faults sink.old) (K.faults sink.new) }
{
    match put_all(sink, text) {
        Ok(()) => status,
        Err(_) => Status::WriteFault,
    }
}

fn bad_line(alloc: Global, line: u32, column: u32) -> Result<String, AllocError>
    ensures { IfOk result
        (λ text. string_bytes text ≡ codes "bad line " ++ decimal line ++ codes " column " ++ decimal column ++ codes "\n") }
{
    let text = format!(in alloc; "bad line {line} column {column}\n")?;
    Ok(text)
}

fn too_large(alloc: Global, what: Limit, limit: u64) -> Result<String, AllocError>
    ensures { IfOk result (λ text. string_bytes text ≡ codes "too large " ++ limit_word what ++ codes " " ++ decimal limit ++ codes "\n") }
{
    let what = what.word();
    format!(in alloc; "too large {what} {limit}\n")
}

/// The line of the first wrong place, or of the limit that is passed; nothing for want of memory.
fn fault_line(alloc: Global, fault: ScriptFault) -> Result<String, AllocError>
    ensures { IfOk result (λ line. string_bytes line ≡ fault_text fault) }
{
    match fault {
        ScriptFault::NoMemory => Ok(String::new(alloc)),
        ScriptFault::Bad { line, column } => bad_line(alloc, line, column),
        ScriptFault::TooLarge { what, limit } => too_large(alloc, what, limit),
    }
}

fn fault_status(fault: ScriptFault) -> Status
    ensures { result ≡ status_of fault }
{
    match fault {
        ScriptFault::NoMemory => Status::NoMemory,
        ScriptFault::Bad { .. } => Status::BadScript,
        ScriptFault::TooLarge { .. } => Status::TooLarge,
    }
}

/// Writes the line of a fault.
pub fn refuse<K: Sink>(alloc: Global, fault: ScriptFault, sink: &mut K) -> Status
    ensures status { (result ≡ status_of fault) ⊎ ((result ≡ Status.NoMemory) ⊎ (result ≡ Status.WriteFault)) }
    ensures whole { result ≢ Status.WriteFault → result ≢ Status.NoMemory
        → Appends (K.written sink.old) (K.written sink.new) (fault_text fault) }
    ensures part { result ≡ Status.WriteFault → AppendsProperPrefix (K.written sink.old) (K.written sink.new) (fault_text fault) }
    ensures starved { result ≡ Status.NoMemory → Appends (K.written sink.old) (K.written sink.new) [] }
    ensures kept { result ≢ Status.WriteFault → K.faults sink.new ≡ K.faults sink.old }
    ensures failed { result ≡ Status.WriteFault → Rose (K.faults sink.old) (K.faults sink.new) }
{
    match fault_line(alloc, fault) {
        Ok(line) => close(sink, line.as_bytes(), fault_status(fault)),
        Err(_) => Status::NoMemory,
    }
}
