//! A source that is read to its end, and bytes that are written whole.
ghost use Rattle.std.specs.Prelude.{◌≡◌, ◌≤◌, ◌+◌, IfOk, OnOk, OnErr, IsErrOf};
ghost use Rattle.std.specs.Io.KnownBytes.{Appends};
ghost use Rattle.tc_io.specs.Fault.{Rose, HasCause};
ghost use Rattle.tc_io.specs.Stream.{ReadsAll, TakesFront, TakesAtMost, AppendsPart};

use crate::{Failed, Sink, Source};
use std::alloc::{AllocError, Global};

/// Why a source could not be read to its end.
#[derive(Clone, Copy, Debug, PartialEq, Eq)]
pub enum ReadAllFault {
    /// A read failed.
    Failed,
    /// The source gave more bytes than the limit.
    TooLong,
    /// Want of memory.
    Memory,
}

/// How many bytes one read asks for at most.
const CHUNK: usize = 4096;

/// Reads a source to its end, of at most `limit` bytes. It makes at most `limit + 2` reads,
/// and what was read stays taken, whatever the answer.
///
/// # Errors
/// - [`ReadAllFault::Failed`] only where the source's count of faults rose in this call. It stands still at each other answer.
/// - [`ReadAllFault::TooLong`] where the source gave more than `limit` bytes, no read having
///   failed. Exactly `limit + 1` bytes were taken.
/// - [`ReadAllFault::Memory`] at want of memory.
pub fn read_all<S: Source>(
    alloc: Global,
    src: &mut S,
    limit: usize,
) -> Result<Vec<u8>, ReadAllFault>
    ensures ok { IfOk result (λ bytes. ReadsAll limit (S.left src.old) (S.left src.new) bytes.items) }
    ensures too_long { IsErrOf result ReadAllFault.TooLong → TakesFront (limit + 1) (S.left src.old) (S.left src.new) }
    ensures failed { IsErrOf result ReadAllFault.Failed → Rose (S.faults src.old) (S.faults src.new) }
    ensures still { (IsErrOf result ReadAllFault.Failed → ⊥) → S.faults src.new ≡ S.faults src.old }

    // Whatever the answer, the count of faults never falls.
    ensures part { OnErr result (TakesAtMost (limit + 1) (S.left src.old) (S.left src.new)) }
    ensures later { S.faults src.old ≤ S.faults src.new }
{
    let mut bytes = Vec::new(alloc);
    let mut chunk = [0u8; CHUNK];
    loop {
        let room = (limit - bytes.len()).min(CHUNK - 1) + 1;
        let count = match src.read(&mut chunk[..room]) {
            Ok(0) => return Ok(bytes),
            Ok(count) => count,
            Err(Failed) => return Err(ReadAllFault::Failed),
        };
        if count > limit - bytes.len() {
            return Err(ReadAllFault::TooLong);
        }
        if bytes.extend_from_slice(&chunk[..count]).is_err() {
            return Err(ReadAllFault::Memory);
        }
    }
}

/// Writes all the bytes, in as many writes as it takes.
///
/// # Errors
/// [`Failed`] only where the sink's count of faults rose in this call. A part of the bytes was
/// appended then, from their front.
pub fn write_all<K: Sink>(sink: &mut K, bytes: &[u8]) -> Result<(), Failed>
    ensures ok { OnOk result (Appends (K.written sink.old) (K.written sink.new) bytes.now) }
    ensures err { OnErr result (AppendsPart (K.written sink.old) (K.written sink.new) bytes.now) }
    ensures cause { HasCause (K.faults sink.old) (K.faults sink.new) result }
{
    let mut at = 0;
    while at < bytes.len() {
        match sink.write(&bytes[at..]) {
            Ok(count) => at += count,
            Err(Failed) => return Err(Failed),
        }
    }
    Ok(())
}
