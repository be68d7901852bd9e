//! A source and a sink in memory that fail at calls of one's choice.
ghost use Rattle.std.specs.Prelude.{◌≡◌, ◌↔◌, ℕ, ◌+◌, ◌<◌, [], ◌++◌, length, take, drop, Some, IfOk, IsErr, OnErr};
ghost use Rattle.std.specs.Io.{ReadsAtMost, WritesAtMost};
ghost use Rattle.std.specs.Io.KnownBytes.{ReadConsumes, WriteAppends};
ghost use Rattle.tc_io.specs.Fault.{counted, HasCause};
ghost use Rattle.tc_io.specs.Memory.{given_count, ReadFails, taken_count, WriteFails};

use crate::front::copy_front;
use crate::{Failed, Sink, Source};
use std::alloc::{AllocError, Global};
use std::marker::Model;

/// A source over bytes in memory, which gives a limited number of bytes a call and fails at
/// the calls that it was told to fail at.
#[derive(Drop)]
pub struct MemSource {
    bytes: Vec<u8>,
    at: usize,
    most: usize,
    failing: Vec<u64>,
    calls: u64,
    faults: u64,
}

impl Model for MemSource {
    ghost use Rattle.std.specs.Prelude.{ℕ, ◌≤◌, ◌<◌, List, drop, vec_len};
    ghost use Rattle.tc_io.specs.Memory.{HeldSource};

    ghost Value = { HeldSource };

    ghost view = { λ s. record { left = drop s.at s.bytes.items; most = s.most; failing = s.failing.items; calls = s.calls; faults = s.faults } };

    ghost invariant = { λ s. (s.at ≤ vec_len s.bytes) × (0 < s.most) };
}

impl MemSource {
    /// A source of these bytes, of at most `most` bytes a call, which fails exactly at the
    /// calls whose numbers stand in `failing`. The first call is number 1. The number stands
    /// still at the largest `u64`.
    pub fn new(bytes: Vec<u8>, most: usize, failing: Vec<u64>) -> MemSource
        requires { 0 < most }
        ensures { result ≡ record { left = bytes.items; most = most; failing = failing.items; calls = 0; faults = 0 } }
    {
        MemSource {
            bytes,
            at: 0,
            most,
            failing,
            calls: 0,
            faults: 0,
        }
    }
}

impl Source for MemSource {
    ghost left = { λ s. Some s.left };

    ghost faults = { λ s. s.faults };

    /// Gives as many bytes as a call may give, or fails where it was told to.
    fn read(&mut self, buf: &mut [u8]) -> Result<usize, Failed>
        ensures bound { ReadsAtMost result buf.new }
        ensures bytes { ReadConsumes (Some self.old.left) (Some self.new.left) result buf.new }
        ensures cause { HasCause self.old.faults self.new.faults result }

        // It fails exactly at the listed calls, and then changes no byte.
        ensures fails { IsErr result ↔ ReadFails self.old }
        ensures err { OnErr result (self.new ≡ record self.old { calls = counted self.old.calls; faults = counted self.old.faults }) }
        ensures untouched { OnErr result (buf.new ≡ buf.old) }

        // Each other call gives as many bytes as it can.
        ensures count { IfOk result (λ n. n ≡ given_count self.old (length buf.old)) }
        ensures ok { IfOk result (λ n. self.new ≡ record self.old { left = drop n self.old.left; calls = counted self.old.calls }) }
        ensures filled { IfOk result (λ n. buf.new ≡ take n self.old.left ++ drop n buf.old) }
    {
        self.calls = self.calls.saturating_add(1);
        if self.failing.contains(&self.calls) {
            self.faults = self.faults.saturating_add(1);
            return Err(Failed);
        }
        let count = copy_front(&self.bytes[self.at..], buf, self.most);
        self.at += count;
        Ok(count)
    }
}

/// A sink in memory with limited room, which takes a limited number of bytes a call and fails
/// at the calls that it was told to fail at.
#[derive(Drop)]
pub struct MemSink {
    bytes: Vec<u8>,
    room: usize,
    most: usize,
    failing: Vec<u64>,
    calls: u64,
    faults: u64,
}

impl Model for MemSink {
    ghost use Rattle.std.specs.Prelude.{ℕ, ◌≤◌, ◌<◌, List, vec_len, vec_capacity};
    ghost use Rattle.tc_io.specs.Memory.{HeldSink};

    ghost Value = { HeldSink };

    ghost view = { λ s. record { written = s.bytes.items; room = s.room; most = s.most; failing = s.failing.items; calls = s.calls; faults = s.faults } };

    ghost invariant = { λ s. (vec_len s.bytes ≤ s.room) × (s.room ≤ vec_capacity s.bytes) × (0 < s.most) };
}

impl MemSink {
    /// An empty sink that takes at most `most` bytes a call and `room` bytes in all. It fails
    /// exactly at the calls whose numbers stand in `failing`, and where a piece that has bytes
    /// finds no room left. The first call is number 1. The number stands still at the largest
    /// `u64`. All its memory is taken here.
    ///
    /// # Errors
    /// Want of memory.
    pub fn new(
        alloc: Global,
        room: usize,
        most: usize,
        failing: Vec<u64>,
    ) -> Result<MemSink, AllocError>
        requires { 0 < most }
        ensures { IfOk result (λ s. s ≡ record { written = []; room = room; most = most; failing = failing.items; calls = 0; faults = 0 }) }
    {
        Ok(MemSink {
            bytes: Vec::with_capacity(alloc, room)?,
            room,
            most,
            failing,
            calls: 0,
            faults: 0,
        })
    }

    /// What was written.
    pub fn bytes(&self) -> &[u8]
        ensures { result.now ≡ self.now.written }
    {
        &self.bytes
    }
}

impl Sink for MemSink {
    ghost written = { λ s. Some s.written };

    ghost faults = { λ s. s.faults };

    /// Takes as many bytes as a call may take, or fails where it was told to or is full.
    fn write(&mut self, buf: &[u8]) -> Result<usize, Failed>
        ensures bound { WritesAtMost result buf.now }
        ensures progress { IfOk result (λ count. 0 < length buf.now → 0 < count) }
        ensures bytes { WriteAppends (Some self.old.written) (Some self.new.written) result buf.now }
        ensures cause { HasCause self.old.faults self.new.faults result }

        // It fails exactly at the listed calls and where it is full, and then takes no byte.
        ensures fails { IsErr result ↔ WriteFails self.old buf.now }
        ensures err { OnErr result (self.new ≡ record self.old { calls = counted self.old.calls; faults = counted self.old.faults }) }

        // Each other call takes as many bytes as it can.
        ensures count { IfOk result (λ n. n ≡ taken_count self.old (length buf.now)) }
        ensures ok { IfOk result (λ n. self.new ≡ record self.old { written = self.old.written ++ take n buf.now; calls = counted self.old.calls }) }
    {
        self.calls = self.calls.saturating_add(1);
        let room_left = self.room - self.bytes.len();
        if self.failing.contains(&self.calls) || (room_left == 0 && !buf.is_empty()) {
            self.faults = self.faults.saturating_add(1);
            return Err(Failed);
        }
        let count = self.most.min(buf.len()).min(room_left);
        self.bytes.extend_from_slice(&buf[..count]).unwrap();
        Ok(count)
    }
}
