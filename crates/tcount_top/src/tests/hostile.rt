//! Devices that fail, and workers that come late.
use super::{CONTROLLED_S, CONTROLLED_S_PRINTED, answer};
use crate::{Status, run};
use std::alloc::{AllocError, Global};
use std::test::Fail;
use std::thread::Threads;
use steal_sweep::{Delay, OpenWay};
use tc_io::{MemSink, MemSource};

/// How many bytes the devices here move in a call.
const PIECE: usize = 16;

/// A circuit that takes seven T gates, so that a search of several workers has several blocks for each.
const SEVEN_T: &str =
    "OPENQASM 2.0;\nqreg q[2];\nt q[0];\nt q[1];\ncx q[0],q[1];\ntdg q[1];\ncx q[0],q[1];\nh q[0];\nh q[1];\nt q[0];\nt q[1];\ncx q[0],q[1];\ntdg q[1];\ncx q[0],q[1];\nh q[0];\nt q[0];\n";

/// The status of `synth 12 2` on the controlled S gate where the reads and the writes with these numbers fail, and the bytes
/// that are written.
fn answer_where<H: Threads + Sync>(
    th: &H,
    alloc: Global,
    room: usize,
    failing_reads: &[u64],
    failing_writes: &[u64],
) -> Result<(Status, Vec<u8>), AllocError> {
    let text = Vec::from_slice(alloc, CONTROLLED_S.as_bytes())?;
    let mut source = MemSource::new(text, PIECE, Vec::from_slice(alloc, failing_reads)?);
    let failing_writes = Vec::from_slice(alloc, failing_writes)?;
    let mut sink = MemSink::new(alloc, room, PIECE, failing_writes)?;
    let words = ["synth", "12", "2"];
    let status = run(th, alloc, &words, &mut source, &mut sink, &OpenWay);
    Ok((status, Vec::from_slice(alloc, sink.bytes())?))
}

/// The text takes five reads, and the sixth finds its end.
#[test]
fn each_read_fails_in_turn(rt: HostRuntime) -> Result<(), Fail> {
    for call in 1..=6u64 {
        let (status, bytes) = answer_where(&rt, rt.alloc(), 4096, &[call], &[])?;
        assert_eq!(rt; status, Status::ReadFault, "read {call}");
        assert!(rt; bytes.is_empty(), "read {call}");
    }
    let (status, bytes) = answer_where(&rt, rt.alloc(), 4096, &[7], &[])?;
    assert_eq!(rt; status, Status::Found);
    assert!(rt; bytes.as_slice() == CONTROLLED_S_PRINTED.as_bytes());
    Ok(())
}

/// What the writes before the failing one took is written, 16 bytes each.
#[test]
fn each_write_fails_in_turn(rt: HostRuntime) -> Result<(), Fail> {
    let whole = CONTROLLED_S_PRINTED.as_bytes();
    for (call, written) in (0..whole.len()).step_by(PIECE).enumerate() {
        let (status, bytes) = answer_where(&rt, rt.alloc(), 4096, &[], &[call as u64 + 1])?;
        assert_eq!(rt; status, Status::WriteFault, "write {call}");
        assert!(rt;
            whole.starts_with(&bytes) && bytes.len() == written,
            "write {call}"
        );
    }
    Ok(())
}

/// A sink that takes nothing fails, with nothing written.
#[test]
fn a_sink_without_room(rt: HostRuntime) -> Result<(), Fail> {
    let (status, bytes) = answer_where(&rt, rt.alloc(), 0, &[], &[])?;
    assert_eq!(rt; status, Status::WriteFault);
    assert!(rt; bytes.is_empty());
    Ok(())
}

/// One worker comes late before one of its blocks, and the bytes are the same.
#[test]
fn each_worker_comes_late(rt: HostRuntime) -> Result<(), Fail> {
    for worker in 0..3u32 {
        for turn in 0..4u64 {
            let gate = Delay {
                worker,
                turn,
                spins: 100_000,
            };
            let words = ["synth", "12", "3"];
            let (status, bytes) = answer(&rt, rt.alloc(), &words, CONTROLLED_S.as_bytes(), &gate)?;
            assert_eq!(rt; status, Status::Found, "worker {worker}, turn {turn}");
            assert!(rt;
                bytes.as_slice() == CONTROLLED_S_PRINTED.as_bytes(),
                "worker {worker}, turn {turn}"
            );
        }
    }
    Ok(())
}

/// The next number of a linear congruence, and a draw from it below 2^16.
fn draw(state: &mut u32) -> u32 {
    *state = state.wrapping_mul(1_664_525).wrapping_add(1_013_904_223);
    *state >> 16
}

/// One of four workers comes late before one of its blocks, by up to 250,000 counts.
#[test]
fn a_hundred_delays(rt: HostRuntime) -> Result<(), Fail> {
    let words = ["synth", "12", "4"];
    let text = SEVEN_T.as_bytes();
    let (_, plain) = answer(&rt, rt.alloc(), &words, text, &OpenWay)?;
    assert!(rt; plain.starts_with(b"// t-count 7\n"));
    let mut state = 1;
    for _ in 0..100 {
        let gate = Delay {
            worker: draw(&mut state) % 4,
            turn: u64::from(draw(&mut state) % 12),
            spins: draw(&mut state).saturating_mul(4),
        };
        let (status, bytes) = answer(&rt, rt.alloc(), &words, text, &gate)?;
        assert_eq!(rt; status, Status::Found, "{gate:?}");
        assert!(rt; bytes.as_slice() == plain.as_slice(), "{gate:?}");
    }
    Ok(())
}
