//! A source and a sink that never fail.
ghost use Rattle.std.specs.Prelude.{◌≡◌, ◌++◌, ◌+◌, ◌<◌, min, length, take, drop, Ok, Some, None, IfOk};
ghost use Rattle.std.specs.Io.{ReadsAtMost, WritesAtMost};
ghost use Rattle.std.specs.Io.KnownBytes.{ReadConsumes, WriteAppends};
ghost use Rattle.tc_io.specs.Fault.{HasCause};

use crate::front::copy_front;
use crate::{Failed, Sink, Source};
use std::marker::Model;

/// A source over bytes in memory, which never fails. In contracts it is the bytes that are
/// still to come.
#[derive(Drop)]
pub struct CleanSource {
    bytes: Vec<u8>,
    at: usize,
}

impl Model for CleanSource {
    ghost use Rattle.std.specs.Prelude.{ℕ, ◌≤◌, List, drop, vec_len};

    ghost Value = { List ℕ };

    ghost view = { λ s. drop s.at s.bytes.items };

    ghost invariant = { λ s. s.at ≤ vec_len s.bytes };
}

impl CleanSource {
    /// A source of these bytes.
    pub fn new(bytes: Vec<u8>) -> CleanSource
        ensures { result ≡ bytes.items }
    {
        CleanSource { bytes, at: 0 }
    }
}

impl Source for CleanSource {
    ghost left = { λ s. Some s };

    ghost faults = { λ _. 0 };

    /// Gives as many of the bytes as fit.
    fn read(&mut self, buf: &mut [u8]) -> Result<usize, Failed>
        ensures bound { ReadsAtMost result buf.new }
        ensures bytes { ReadConsumes (Some self.old) (Some self.new) result buf.new }
        ensures cause { HasCause 0 0 result }

        // It gives what fits, and leaves the rest of the buffer.
        ensures answer { result ≡ Ok (min (length buf.old) (length self.old)) }
        ensures after { self.new ≡ drop (length buf.old) self.old }
        ensures filled { buf.new ≡ take (length buf.old) self.old ++ drop (length self.old) buf.old }
    {
        let count = copy_front(&self.bytes[self.at..], buf, usize::MAX);
        self.at += count;
        Ok(count)
    }
}

/// A sink that takes all, keeps nothing and never fails.
#[derive(Clone, Copy, Debug)]
pub struct CleanSink;

impl CleanSink {
    /// A sink that takes all.
    pub fn new() -> CleanSink {
        CleanSink
    }
}

impl Sink for CleanSink {
    ghost written = { λ _. None };

    ghost faults = { λ _. 0 };

    /// Takes all the bytes.
    fn write(&mut self, buf: &[u8]) -> Result<usize, Failed>
        ensures bound { WritesAtMost result buf.now }
        ensures progress { IfOk result (λ count. 0 < length buf.now → 0 < count) }
        ensures cause { HasCause 0 0 result }

        // It takes the whole piece.
        ensures answer { result ≡ Ok (length buf.now) }
    {
        Ok(buf.len())
    }
}
