ghost use Rattle.std.specs.Prelude.{◌≡◌, ℕ, ◌+◌, ◌<◌, ◌≤◌, ◌++◌, List, length, vec_len, IfOk, IfSome, Ok, None};
ghost use Rattle.std.specs.Io.KnownBytes.{Consumes, IsAtEnd};
ghost use Rattle.tect_edge.specs.Counts.{next_count};
ghost use Rattle.tect_edge.specs.Reading.{HasReadCause};

use crate::source::{Failed, Source};
use std::alloc::Global;

/// How many bytes one call of a source is asked for at most.
const CHUNK: usize = 8192;

/// Why an input was not read.
#[derive(Clone, Copy, Debug, PartialEq, Eq)]
pub enum ReadFault {
    /// There was no memory for the bytes.
    NoMemory,
    /// The source failed.
    Failed,
}

/// One turn of the reading loop: a call of the source, asked for at least one byte and for no more than one byte
/// beyond the limit. Answers how many bytes it appended to `bytes`, of which 0 is the end of input.
fn read_more<S: Source>(
    limit: usize,
    source: &mut S,
    chunk: &mut [u8],
    bytes: &mut Vec<u8>,
) -> Result<usize, ReadFault>
    requires within { vec_len bytes.old ≤ limit }
    requires some { 0 < length chunk.old }
    ensures appended { IfOk result (λ n. (front : List ℕ)
        × Consumes (S.left source.old) (S.left source.new) front
        × (bytes.new.items ≡ bytes.old.items ++ front) × (length front ≡ n)) }
    ensures end { result ≡ Ok 0 → IsAtEnd (S.left source.new) }
    ensures bound { IfOk result (λ n. vec_len bytes.old + n ≤ limit + 1) }
    ensures taken { (front : List ℕ)
        × Consumes (S.left source.old) (S.left source.new) front
        × (vec_len bytes.old + length front ≤ limit + 1) }
    ensures call { S.calls source.new ≡ next_count (S.calls source.old) }
    ensures cause { HasReadCause (S.faults source.old) (S.faults source.new) result }
{
    let room = chunk.len().min((limit - bytes.len()).saturating_add(1));
    let count = match source.take(&mut chunk[..room]) {
        Ok(count) => count,
        Err(Failed) => return Err(ReadFault::Failed),
    };
    match bytes.extend_from_slice(&chunk[..count]) {
        Ok(()) => Ok(count),
        Err(_) => Err(ReadFault::NoMemory),
    }
}

/// The whole input, or `None` where it has more bytes than the limit: then exactly one byte more than the limit was
/// taken. In no case are more taken. Each call of the source but the last takes at least one byte.
///
/// `Failed` comes where the source failed, and `NoMemory` for want of memory.
pub fn read_input<S: Source>(
    alloc: Global,
    limit: usize,
    source: &mut S,
) -> Result<Option<Vec<u8>>, ReadFault>
    ensures whole { IfOk result (λ found. IfSome found (λ bytes.
        Consumes (S.left source.old) (S.left source.new) bytes.items
        × IsAtEnd (S.left source.new) × (length bytes.items ≤ limit)
        × (S.calls source.new ≤ S.calls source.old + length bytes.items + 1))) }
    ensures long { result ≡ Ok None → (front : List ℕ)
        × Consumes (S.left source.old) (S.left source.new) front × (length front ≡ limit + 1)
        × (S.calls source.new ≤ S.calls source.old + length front) }
    ensures taken { (front : List ℕ)
        × Consumes (S.left source.old) (S.left source.new) front × (length front ≤ limit + 1)
        × (S.calls source.new ≤ S.calls source.old + length front + 1) }
    ensures cause { HasReadCause (S.faults source.old) (S.faults source.new) result }
{
    let mut bytes = Vec::new(alloc);
    let mut chunk = [0; CHUNK];
    'turns: while bytes.len() <= limit {
        if read_more(limit, source, &mut chunk, &mut bytes)? == 0 {
            return Ok(Some(bytes));
        }
    }
    Ok(None)
}
