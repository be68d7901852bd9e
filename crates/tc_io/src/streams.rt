//! The edge to readers and writers of std, over which a source and a sink tell no content.
ghost use Rattle.std.specs.Prelude.{◌≡◌, ◌<◌, length, take, None, IfOk, is_ok, if◌then◌else◌};
ghost use Rattle.std.specs.Io.{ReadsAtMost, WritesAtMost};
ghost use Rattle.std.specs.Io.KnownBytes.{ReadConsumes, Appends};
ghost use Rattle.tc_io.specs.Fault.{counted, HasCause};

use crate::{Failed, Sink, Source};
use std::io::{Read, Write};
use std::marker::Model;

/// A source over a reader, which tells no content. In contracts it is its count of faults,
/// which stands still at the largest `u64`, and what the reader tells.
#[derive(Drop)]
pub struct StdSource<R: Read + Drop> {
    inner: R,
    faults: u64,
}

impl<R: Read + Drop> Model for StdSource<R> {
    ghost use Rattle.tc_io.specs.Edge.{Edge};

    ghost Value = { Edge };

    ghost view = { λ s. record { faults = s.faults; bytes = R.remaining s.inner } };
}

impl<R: Read + Drop> StdSource<R> {
    /// A source over this reader.
    pub fn new(inner: R) -> StdSource<R>
        ensures { result ≡ record { faults = 0; bytes = R.remaining inner } }
    {
        StdSource { inner, faults: 0 }
    }
}

impl<R: Read + Drop> Source for StdSource<R> {
    ghost left = { λ _. None };

    ghost faults = { λ s. s.faults };

    /// Reads from the reader, and counts its failures.
    fn read(&mut self, buf: &mut [u8]) -> Result<usize, Failed>
        ensures bound { ReadsAtMost result buf.new }
        ensures cause { HasCause self.old.faults self.new.faults result }

        // The count rises at each failure alone, and the bytes are the reader's.
        ensures faults { self.new.faults ≡ (if is_ok result then self.old.faults else counted self.old.faults) }
        ensures stream { ReadConsumes self.old.bytes self.new.bytes result buf.new }
    {
        let answer = self.inner.read(buf);
        match answer {
            Ok(count) => Ok(count),
            Err(_) => {
                self.faults = self.faults.saturating_add(1);
                Err(Failed)
            }
        }
    }
}

/// A sink over a writer, which tells no content. In contracts it is its count of faults, which
/// stands still at the largest `u64`, and what the writer tells.
#[derive(Drop)]
pub struct StdSink<W: Write + Drop> {
    inner: W,
    faults: u64,
}

impl<W: Write + Drop> Model for StdSink<W> {
    ghost use Rattle.tc_io.specs.Edge.{Edge};

    ghost Value = { Edge };

    ghost view = { λ s. record { faults = s.faults; bytes = W.contents s.inner } };
}

impl<W: Write + Drop> StdSink<W> {
    /// A sink over this writer.
    pub fn new(inner: W) -> StdSink<W>
        ensures { result ≡ record { faults = 0; bytes = W.contents inner } }
    {
        StdSink { inner, faults: 0 }
    }
}

impl<W: Write + Drop> Sink for StdSink<W> {
    ghost written = { λ _. None };

    ghost faults = { λ s. s.faults };

    /// The writer is flushed after each write that took bytes. A flush that fails, and a
    /// writer that takes nothing of a piece that has bytes, are failures.
    fn write(&mut self, buf: &[u8]) -> Result<usize, Failed>
        ensures bound { WritesAtMost result buf.now }
        ensures progress { IfOk result (λ count. 0 < length buf.now → 0 < count) }
        ensures cause { HasCause self.old.faults self.new.faults result }

        // The count rises at each failure alone, and the bytes go to the writer.
        ensures faults { self.new.faults ≡ (if is_ok result then self.old.faults else counted self.old.faults) }
        ensures stream { IfOk result (λ count. Appends self.old.bytes self.new.bytes (take count buf.now)) }
    {
        let answer = write_through(&mut self.inner, buf);
        if answer.is_err() {
            self.faults = self.faults.saturating_add(1);
        }
        answer
    }
}

/// Writes a piece and flushes what was taken of it.
fn write_through<W: Write>(writer: &mut W, buf: &[u8]) -> Result<usize, Failed>
    ensures bound { WritesAtMost result buf.now }
    ensures progress { IfOk result (λ count. 0 < length buf.now → 0 < count) }
    ensures stream { IfOk result (λ count. Appends (W.contents writer.old) (W.contents writer.new) (take count buf.now)) }
{
    let count = writer.write(buf).map_err(|_| Failed)?;
    if count > 0 {
        writer.flush().map_err(|_| Failed)?;
    } else if !buf.is_empty() {
        return Err(Failed);
    }
    Ok(count)
}
