use super::*;

mod bench;
mod gates;
mod hostile;
mod made;

use gates::Meeting;
use std::alloc::{AllocError, Global};
use std::test::Fail;
use std::thread::Threads;
use steal_sweep::{OpenWay, Turnstile};
use tc_io::{CleanSource, MemSink, MemSource, StdSink, StdSource};

// The controlled S gate: a T gate on each of two qubits, and an inverse one behind a controlled not.
const CONTROLLED_S: &str =
    "OPENQASM 2.0;\nqreg q[2];\nt q[0];\nt q[1];\ncx q[0],q[1];\ntdg q[1];\ncx q[0],q[1];\n";

// What is printed for it.
const CONTROLLED_S_PRINTED: &str =
    "// t-count 3\n// word IZ ZI ZZ\nOPENQASM 2.0;\ninclude \"qelib1.inc\";\nqreg q[2];\nh q[1];\ns q[1];\nh q[1];\ns q[1];\ns q[0];\ns q[0];\ncx q[0],q[1];\nh q[1];\ns q[0];\ncx q[0],q[1];\nt q[1];\ncx q[0],q[1];\nt q[1];\nt q[0];\n";

/// The status of a run over a text, and the bytes that it writes.
fn answer<H: Threads + Sync, G: Turnstile + Sync>(
    th: &H,
    alloc: Global,
    words: &[&str],
    text: &[u8],
    gate: &G,
) -> Result<(Status, Vec<u8>), AllocError> {
    let mut source = CleanSource::new(Vec::from_slice(alloc, text)?);
    let mut sink = MemSink::new(alloc, 4096, 100, Vec::new(alloc))?;
    let status = run(th, alloc, words, &mut source, &mut sink, gate);
    Ok((status, Vec::from_slice(alloc, sink.bytes())?))
}

/// Words that are no command.
#[test]
fn usage(rt: HostRuntime) -> Result<(), Fail> {
    let line = "usage: synth M W | check | levels N K W | bench N T SEED M W\n";
    let rows: [&[&str]; 28] = [
        &["synth", "5", "9"],
        &["synth", "5", "0"],
        &["synth", "0", "1", "1"],
        &["synth", "0"],
        &["-synth", "0", "1"],
        &["synth", "00", "1"],
        &["synth", "01", "1"],
        &["synth", "+1", "1"],
        &["synth", "-1", "1"],
        &["synth", "", "1"],
        &["synth", "1x", "1"],
        &["synth", "10000000000", "1"],
        &["check", "1"],
        &["-check"],
        &["synth"],
        &["levels", "0", "1", "1"],
        &["levels", "4", "1", "1"],
        &["levels", "1", "10", "1"],
        &["levels", "2", "7", "1"],
        &["levels", "3", "5", "1"],
        &["levels", "3", "1", "9"],
        &["bench", "1", "3", "0", "5"],
        &["bench", "4", "3", "0", "5", "1"],
        &["bench", "1", "45", "0", "5", "1"],
        &["bench", "1", "3", "2147483648", "5", "1"],
        &["bench", "3", "3", "0", "9", "1"],
        &["bench", "1", "3", "0", "5", "9"],
        &[],
    ];
    for words in rows {
        let (status, bytes) = answer(&rt, rt.alloc(), words, b"OPENQASM 2.0;\n", &OpenWay)?;
        assert_eq!(rt; status, Status::Usage);
        assert!(rt; bytes.as_slice() == line.as_bytes());
    }
    Ok(())
}

/// A bound, a text, and the status and the bytes that are the outcome.
#[test]
fn outcomes(rt: HostRuntime) -> Result<(), Fail> {
    let rows = [
        (
            "5",
            "OPENQASM 2.0;\nqreg q[1];\nt q[0];\nt q[0];\n",
            Status::Found,
            "// t-count 0\n// word\nOPENQASM 2.0;\ninclude \"qelib1.inc\";\nqreg q[1];\ns q[0];\n",
        ),
        (
            "0",
            "OPENQASM 2.0;\nqreg q[1];\nt q[0];\n",
            Status::Above,
            "above 0\n",
        ),
        (
            "0",
            "OPENQASM 2.0;\nqreg q[1];\n",
            Status::Found,
            "// t-count 0\n// word\nOPENQASM 2.0;\ninclude \"qelib1.inc\";\nqreg q[1];\n",
        ),
        (
            "18",
            "OPENQASM 2.0;\nqreg q[1];\nt q[0];\nh q[0];\nt q[0];\nh q[0];\nt q[0];\n",
            Status::Found,
            "// t-count 3\n// word Z X Z\nOPENQASM 2.0;\ninclude \"qelib1.inc\";\nqreg q[1];\nt q[0];\nh q[0];\nt q[0];\nh q[0];\nt q[0];\n",
        ),
        (
            "2",
            "OPENQASM 2.0;\nqreg q[1];\nt q[0];\nh q[0];\nt q[0];\nh q[0];\nt q[0];\n",
            Status::Above,
            "above 2\n",
        ),
        // The phase between h s h s h s and nothing is ω.
        (
            "0",
            "OPENQASM 2.0;\nqreg q[1];\nh q[0];\ns q[0];\nh q[0];\ns q[0];\nh q[0];\ns q[0];\n",
            Status::Found,
            "// t-count 0\n// word\nOPENQASM 2.0;\ninclude \"qelib1.inc\";\nqreg q[1];\n",
        ),
        (
            "0",
            "OPENQASM 2.0;\nqreg q[3];\nccx q[0],q[1],q[2];\nccx q[0],q[1],q[2];\n",
            Status::Found,
            "// t-count 0\n// word\nOPENQASM 2.0;\ninclude \"qelib1.inc\";\nqreg q[3];\n",
        ),
        (
            "1",
            "OPENQASM 2.0;\nqreg q[2];\nt q[0];\ncx q[0],q[1];\ntdg q[0];\n",
            Status::Found,
            "// t-count 0\n// word\nOPENQASM 2.0;\ninclude \"qelib1.inc\";\nqreg q[2];\ncx q[0],q[1];\n",
        ),
        (
            "0",
            "OPENQASM 2.0;\nqreg q[3];\nh q;\n",
            Status::Found,
            "// t-count 0\n// word\nOPENQASM 2.0;\ninclude \"qelib1.inc\";\nqreg q[3];\nh q[2];\nh q[1];\nh q[0];\n",
        ),
        (
            "0",
            "OPENQASM 2.0;\nqreg a[2];\nqreg b[1];\n",
            Status::Found,
            "// t-count 0\n// word\nOPENQASM 2.0;\ninclude \"qelib1.inc\";\nqreg q[3];\n",
        ),
        // Gates that a text defines.
        (
            "12",
            "OPENQASM 2.0;\nqreg q[2];\ngate cs a,b { t a; t b; cx a,b; tdg b; cx a,b; }\ncs q[0],q[1];\n",
            Status::Found,
            "// t-count 3\n// word IZ ZI ZZ\nOPENQASM 2.0;\ninclude \"qelib1.inc\";\nqreg q[2];\nh q[1];\ns q[1];\nh q[1];\ns q[1];\ns q[0];\ns q[0];\ncx q[0],q[1];\nh q[1];\ns q[0];\ncx q[0],q[1];\nt q[1];\ncx q[0],q[1];\nt q[1];\nt q[0];\n",
        ),
        (
            "0",
            "OPENQASM 2.0;\nqreg q[1];\ngate g a { }\ng q;\n",
            Status::Found,
            "// t-count 0\n// word\nOPENQASM 2.0;\ninclude \"qelib1.inc\";\nqreg q[1];\n",
        ),
        // A file of an exporter: an include, a comment, lines ended by carriage return and line feed, a barrier.
        (
            "12",
            "OPENQASM 2.0;\r\ninclude \"qelib1.inc\";\r\n// two qubits\r\nqreg q[2];\r\ncreg c[2];\r\nh q[0];\r\ncx q[0],q[1];\r\nbarrier q[0],q[1];\r\nt q[1];\r\n",
            Status::Found,
            "// t-count 1\n// word ZI\nOPENQASM 2.0;\ninclude \"qelib1.inc\";\nqreg q[2];\nh q[0];\ncx q[0],q[1];\nh q[0];\nh q[0];\nt q[1];\n",
        ),
    ];
    for (bound, text, status, bytes) in rows {
        let (answered, written) = answer(
            &rt,
            rt.alloc(),
            &["synth", bound, "2"],
            text.as_bytes(),
            &OpenWay,
        )?;
        assert_eq!(rt; answered, status, "{bytes:?}");
        assert!(rt; written.as_slice() == bytes.as_bytes(), "{bytes:?}");
    }
    Ok(())
}

/// Bounds, and texts that are refused: at the reading, and behind it where the bound is above the limit.
#[test]
fn refusals(rt: HostRuntime) -> Result<(), Fail> {
    let rows = [
        ("0", "", "refused 1 at 0\n"),
        ("0", "OPENQASM 2.0;\n", "refused 8 at 14\n"),
        ("0", "OPENQASM 2.0;\nqreg q[4];\n", "refused 8 at 14\n"),
        (
            "0",
            "OPENQASM 2.0;\nqreg q[2];\ncx q[0],q[0];\n",
            "refused 7 at 25\n",
        ),
        (
            "0",
            "OPENQASM 2.0;\nqreg q[1];\nh q[0]",
            "refused 3 at 25\n",
        ),
        (
            "0",
            "OPENQASM 2.0;\nqreg q[1];\nfoo q[0];\n",
            "refused 4 at 25\n",
        ),
        (
            "0",
            "OPENQASM 2.0;\nqreg q[1];\nh r[0];\n",
            "refused 5 at 25\n",
        ),
        (
            "0",
            "OPENQASM 2.0;\nqreg q[1];\nh q[1];\n",
            "refused 6 at 25\n",
        ),
        (
            "0",
            "OPENQASM 2.0;\nqreg q[1];\nqreg q[1];\n",
            "refused 12 at 25\n",
        ),
        ("0", "OPENQASM 2.0;\nqreg q[1];\n#\n", "refused 2 at 25\n"),
        // The exporter's file again, with a measurement at its end.
        (
            "12",
            "OPENQASM 2.0;\r\ninclude \"qelib1.inc\";\r\n// two qubits\r\nqreg q[2];\r\ncreg c[2];\r\nh q[0];\r\ncx q[0],q[1];\r\nbarrier q[0],q[1];\r\nt q[1];\r\nmeasure q -> c;\r\n",
            "refused 11 at 130\n",
        ),
        (
            "0",
            "OPENQASM 2.0;\nqreg q[1];\ngate g a { g a; }\n",
            "refused 17 at 25\n",
        ),
        (
            "0",
            "OPENQASM 2.0;\nqreg q[1];\ngate g a { h b; }\n",
            "refused 17 at 25\n",
        ),
        (
            "0",
            "OPENQASM 2.0;\nqreg q[1];\ngate g a,a { h a; }\n",
            "refused 17 at 25\n",
        ),
        (
            "0",
            "OPENQASM 2.0;\nqreg q[1];\ngate g a { h a; }\ngate g a { h a; }\n",
            "refused 12 at 43\n",
        ),
        (
            "0",
            "OPENQASM 2.0;\nqreg q[1];\ngate g a { h a;\n",
            "refused 3 at 25\n",
        ),
        (
            "0",
            "OPENQASM 2.0;\nqreg q[1];\ngate g(x) a { h a; }\n",
            "refused 11 at 25\n",
        ),
        (
            "0",
            "OPENQASM 2.0;\nqreg q[1];\ngate g0 a { h a; h a; }\ngate g1 a { g0 a; g0 a; }\ngate g2 a { g1 a; g1 a; }\ngate g3 a { g2 a; g2 a; }\ngate g4 a { g3 a; g3 a; }\ngate g5 a { g4 a; g4 a; }\ngate g6 a { g5 a; g5 a; }\ngate g7 a { g6 a; g6 a; }\ngate g8 a { g7 a; g7 a; }\ngate g9 a { g8 a; g8 a; }\ngate g10 a { g9 a; g9 a; }\ngate g11 a { g10 a; g10 a; }\ngate g12 a { g11 a; g11 a; }\ngate g13 a { g12 a; g12 a; }\n",
            "refused 18 at 368\n",
        ),
        (
            "9",
            "OPENQASM 2.0;\nqreg q[3];\n",
            "refused 13 bound 9 limit 8\n",
        ),
        (
            "13",
            "OPENQASM 2.0;\nqreg q[2];\n",
            "refused 13 bound 13 limit 12\n",
        ),
        (
            "9999999999",
            "OPENQASM 2.0;\nqreg q[1];\n",
            "refused 13 bound 9999999999 limit 18\n",
        ),
        (
            "9999999999",
            "OPENQASM 2.0;\nqreg q[4];\n",
            "refused 8 at 14\n",
        ),
    ];
    for (bound, text, bytes) in rows {
        let (status, written) = answer(
            &rt,
            rt.alloc(),
            &["synth", bound, "1"],
            text.as_bytes(),
            &OpenWay,
        )?;
        assert_eq!(rt; status, Status::Refused, "{bytes:?}");
        assert!(rt; written.as_slice() == bytes.as_bytes(), "{bytes:?}");
    }
    Ok(())
}

/// A text: its front, and a line as often as `times` says.
fn repeat(alloc: Global, front: &str, line: &str, times: usize) -> Result<Vec<u8>, AllocError> {
    let mut text = Vec::from_slice(alloc, front.as_bytes())?;
    for _ in 0..times {
        text.extend_from_slice(line.as_bytes())?;
    }
    Ok(text)
}

/// Long texts, and texts at the limits: a front, a line and how often it stands, and the outcome.
#[test]
fn limits(rt: HostRuntime) -> Result<(), Fail> {
    let one = "OPENQASM 2.0;\nqreg q[1];\n";
    let nothing = "// t-count 0\n// word\nOPENQASM 2.0;\ninclude \"qelib1.inc\";\nqreg q[1];\n";
    let h = "// t-count 0\n// word\nOPENQASM 2.0;\ninclude \"qelib1.inc\";\nqreg q[1];\nh q[0];\n";
    let z =
        "// t-count 0\n// word\nOPENQASM 2.0;\ninclude \"qelib1.inc\";\nqreg q[1];\ns q[0];\ns q[0];\n";
    let rows = [
        (one, "t q[0];\n", 44, Status::Found, z),
        (one, "t q[0];\n", 45, Status::Above, "above 0\n"),
        (one, "t q[0];\n", 120, Status::Found, nothing),
        (one, "t q[0];\n", 121, Status::Refused, "refused 9 at 985\n"),
        (one, "t q[0];\nh q[0];\n", 120, Status::Above, "above 0\n"),
        (one, "h q[0];\n", 120, Status::Found, nothing),
        (one, "h q[0];\n", 4095, Status::Found, h),
        (
            one,
            "h q[0];\n",
            4096,
            Status::Refused,
            "refused 10 at 32785\n",
        ),
        ("", " ", 65536, Status::Refused, "refused 1 at 65536\n"),
        ("", " ", 65537, Status::Refused, "refused 14\n"),
    ];
    for (front, line, times, status, bytes) in rows {
        let text = repeat(rt.alloc(), front, line, times)?;
        let (answered, written) = answer(&rt, rt.alloc(), &["synth", "0", "1"], &text, &OpenWay)?;
        assert_eq!(rt; answered, status, "{line:?} {times}");
        assert!(rt; written.as_slice() == bytes.as_bytes(), "{line:?} {times}");
    }
    Ok(())
}

/// Texts of two programs, and what `check` answers to them.
#[test]
fn comparisons(rt: HostRuntime) -> Result<(), Fail> {
    let rows = [
        // The phase between t x t and x is ω.
        (
            "OPENQASM 2.0;\nqreg q[1];\nt q[0];\nx q[0];\nt q[0];\nOPENQASM 2.0;\nqreg q[1];\nx q[0];\n",
            Status::Found,
            "same\n",
        ),
        (
            "OPENQASM 2.0;\nqreg q[1];\nt q[0];\nOPENQASM 2.0;\nqreg q[1];\ntdg q[0];\n",
            Status::Above,
            "different\n",
        ),
        (
            "OPENQASM 2.0;\nqreg q[1];\n// of OPENQASM\nOPENQASM 2.0;qreg a[1];",
            Status::Found,
            "same\n",
        ),
        (
            "OPENQASM 2.0;\nqreg q[1];\nOPENQASM 2.0;\nqreg q[2];\n",
            Status::Above,
            "different\n",
        ),
        (
            "OPENQASM 2.0;\nqreg q[3];\nccx q[0],q[1],q[2];\nccx q[1],q[0],q[2];\nOPENQASM 2.0;\nqreg a[2];\nqreg b[1];\n",
            Status::Found,
            "same\n",
        ),
        ("", Status::Refused, "refused 16\n"),
        (
            "OPENQASM 2.0;\nqreg q[1];\n",
            Status::Refused,
            "refused 16\n",
        ),
        (
            "OPENQASM 2.0;\nqreg q[1];\nOPENQASM 2.0;\nqreg q[1];\nOPENQASM 2.0;\n",
            Status::Refused,
            "refused 16\n",
        ),
        ("#", Status::Refused, "refused 2 at 0\n"),
        (
            "qreg q[4];\nOPENQASM 2.0;\nqreg q[1];\nOPENQASM 2.0;\nqreg q[1];\n#\n",
            Status::Refused,
            "refused 2 at 61\n",
        ),
        (
            "qreg q[4];\nOPENQASM 2.0;\nOPENQASM 2.0;\nqreg q[4];\n",
            Status::Refused,
            "refused 1 at 0\n",
        ),
        (
            "OPENQASM 2.0;\nqreg q[1];\nfoo q[0];\nOPENQASM 3.0;\nqreg q[1];\n",
            Status::Refused,
            "refused 4 at 25\n",
        ),
        (
            "OPENQASM 2.0;\nqreg q[1];\nOPENQASM 3.0;\nqreg q[1];\n",
            Status::Refused,
            "refused 1 at 25\n",
        ),
        (
            "OPENQASM 2.0;\nqreg q[1];\nOPENQASM 2.0;\nqreg q[1];\nh q[1];\n",
            Status::Refused,
            "refused 6 at 50\n",
        ),
        (
            "OPENQASM 2.0;\nqreg q[1];\nOPENQASM 2.0;\n",
            Status::Refused,
            "refused 8 at 39\n",
        ),
    ];
    for (text, status, bytes) in rows {
        let (answered, written) = answer(&rt, rt.alloc(), &["check"], text.as_bytes(), &OpenWay)?;
        assert_eq!(rt; answered, status, "{text:?}");
        assert!(rt; written.as_slice() == bytes.as_bytes(), "{text:?}");
    }
    Ok(())
}

/// Two programs with many h gates: how many each has, and what `check` answers; and texts that are too long.
#[test]
fn many_h_gates(rt: HostRuntime) -> Result<(), Fail> {
    let one = "OPENQASM 2.0;\nqreg q[1];\n";
    let rows = [
        (121, 0, Status::Refused, "refused 15 count 121\n"),
        (0, 122, Status::Refused, "refused 15 count 122\n"),
        (121, 122, Status::Refused, "refused 15 count 121\n"),
        (120, 120, Status::Found, "same\n"),
        (120, 119, Status::Above, "different\n"),
    ];
    for (first, second, status, bytes) in rows {
        let mut text = repeat(rt.alloc(), one, "h q[0];\n", first)?;
        let behind = repeat(rt.alloc(), one, "h q[0];\n", second)?;
        text.extend_from_slice(&behind)?;
        let (answered, written) = answer(&rt, rt.alloc(), &["check"], &text, &OpenWay)?;
        assert_eq!(rt; answered, status, "{first} and {second}");
        assert!(rt;
            written.as_slice() == bytes.as_bytes(),
            "{first} and {second}"
        );
    }
    for (spaces, bytes) in [(65536, "refused 16\n"), (65537, "refused 14\n")] {
        let text = repeat(rt.alloc(), "", " ", spaces)?;
        let (status, written) = answer(&rt, rt.alloc(), &["check"], &text, &OpenWay)?;
        assert_eq!(rt; status, Status::Refused, "{spaces}");
        assert!(rt; written.as_slice() == bytes.as_bytes(), "{spaces}");
    }
    Ok(())
}

/// Whether `check` says of two programs that they are the same.
fn are_same<H: Threads + Sync>(
    th: &H,
    alloc: Global,
    first: &[u8],
    second: &[u8],
) -> Result<bool, AllocError> {
    let mut text = Vec::from_slice(alloc, first)?;
    text.extend_from_slice(second)?;
    let (status, bytes) = answer(th, alloc, &["check"], &text, &OpenWay)?;
    Ok(status == Status::Found && bytes.as_slice() == b"same\n".as_slice())
}

/// The bytes don't depend on the number of workers.
#[test]
fn any_workers(rt: HostRuntime) -> Result<(), Fail> {
    for workers in ["1", "2", "3", "8"] {
        let words = ["synth", "12", workers];
        let (status, bytes) = answer(&rt, rt.alloc(), &words, CONTROLLED_S.as_bytes(), &OpenWay)?;
        assert_eq!(rt; status, Status::Found);
        assert!(rt;
            bytes.as_slice() == CONTROLLED_S_PRINTED.as_bytes(),
            "{workers} workers"
        );
    }
    Ok(())
}

/// The sizes of levels.
#[test]
fn sizes_of_levels(rt: HostRuntime) -> Result<(), Fail> {
    let rows = [
        ("1", "9", "1 3 6 12 24 48 96 192 384 768\n"),
        ("2", "2", "1 15 165\n"),
        ("3", "2", "1 63 2961\n"),
        ("3", "0", "1\n"),
    ];
    for (qubits, top, line) in rows {
        for workers in ["1", "2", "3", "8"] {
            let (status, bytes) = answer(
                &rt,
                rt.alloc(),
                &["levels", qubits, top, workers],
                b"",
                &OpenWay,
            )?;
            assert_eq!(rt; status, Status::Found);
            assert!(rt;
                bytes.as_slice() == line.as_bytes(),
                "{qubits} qubits, {workers} workers"
            );
        }
    }
    Ok(())
}

/// Each level of two qubits, to the last.
#[test]
fn all_levels_of_two_qubits(rt: HostRuntime) -> Result<(), Fail> {
    let (status, bytes) = answer(&rt, rt.alloc(), &["levels", "2", "6", "1"], b"", &OpenWay)?;
    assert_eq!(rt; status, Status::Found);
    assert!(rt; bytes.as_slice() == b"1 15 165 1695 16710 161670 1548480\n".as_slice());
    Ok(())
}

/// Two workers fill a level at the same time.
#[test]
fn two_workers_meet(rt: HostRuntime) -> Result<(), Fail> {
    let gate = Meeting::new();
    let (status, bytes) = answer(&rt, rt.alloc(), &["levels", "2", "2", "2"], b"", &gate)?;
    assert_eq!(rt; status, Status::Found);
    assert!(rt; bytes.as_slice() == b"1 15 165\n".as_slice());
    assert!(rt; gate.was_seen());
    Ok(())
}

/// The level and the totals 0 to 2 are one block each, and the 225 positions of the total 3 are four.
#[test]
fn two_searchers_meet(rt: HostRuntime) -> Result<(), Fail> {
    let gate = Meeting::new();
    let (status, bytes) = answer(
        &rt,
        rt.alloc(),
        &["synth", "3", "2"],
        CONTROLLED_S.as_bytes(),
        &gate,
    )?;
    assert_eq!(rt; status, Status::Found);
    assert!(rt; bytes.as_slice() == CONTROLLED_S_PRINTED.as_bytes());
    assert!(rt; gate.was_seen());
    assert_eq!(rt; gate.passes(), 8);
    Ok(())
}

/// A Toffoli gate takes seven T gates, and no circuit on its three qubits has fewer. What is printed for it is the same.
#[test]
fn toffoli(rt: HostRuntime) -> Result<(), Fail> {
    let text = b"OPENQASM 2.0;\nqreg q[3];\nccx q[0],q[1],q[2];\n".as_slice();
    let (status, bytes) = answer(&rt, rt.alloc(), &["synth", "6", "4"], text, &OpenWay)?;
    assert_eq!(rt; status, Status::Above);
    assert!(rt; bytes.as_slice() == b"above 6\n".as_slice());
    let (status, bytes) = answer(&rt, rt.alloc(), &["synth", "7", "4"], text, &OpenWay)?;
    assert_eq!(rt; status, Status::Found);
    assert!(rt; bytes.starts_with(b"// t-count 7\n// word "));
    assert!(rt; are_same(&rt, rt.alloc(), text, &bytes)?);
    Ok(())
}

/// A Toffoli gate that the text defines is answered as the known one.
#[test]
fn toffoli_by_a_definition(rt: HostRuntime) -> Result<(), Fail> {
    let known = b"OPENQASM 2.0;\nqreg q[3];\nccx q[0],q[1],q[2];\n".as_slice();
    let defined =
        b"OPENQASM 2.0;\nqreg q[3];\ngate tof a,b,c { h c; cx b,c; tdg c; cx a,c; t c; cx b,c; tdg c; cx a,c; t b; t c; h c; cx a,b; t a; tdg b; cx a,b; }\ntof q[0],q[1],q[2];\n".as_slice();
    for (bound, status) in [("6", Status::Above), ("7", Status::Found)] {
        let words = ["synth", bound, "4"];
        let (first, bytes) = answer(&rt, rt.alloc(), &words, known, &OpenWay)?;
        let (second, others) = answer(&rt, rt.alloc(), &words, defined, &OpenWay)?;
        assert_eq!(rt; first, status);
        assert_eq!(rt; second, status);
        assert!(rt; bytes.as_slice() == others.as_slice());
    }
    Ok(())
}

/// A controlled controlled z by a definition takes seven T gates, too.
#[test]
fn defined_gate(rt: HostRuntime) -> Result<(), Fail> {
    let text =
        b"OPENQASM 2.0;\nqreg q[3];\ngate ccz a,b,c { h c; ccx a,b,c; h c; }\nccz q[0],q[1],q[2];\n".as_slice();
    let (status, bytes) = answer(&rt, rt.alloc(), &["synth", "7", "4"], text, &OpenWay)?;
    assert_eq!(rt; status, Status::Found);
    assert!(rt; bytes.starts_with(b"// t-count 7\n"));
    assert!(rt; are_same(&rt, rt.alloc(), text, &bytes)?);
    Ok(())
}

/// A circuit by a seed has at most as many T gates as are in its text, has one print whatever the number of workers, and the
/// print is its own and the same.
#[test]
fn made_circuits(rt: HostRuntime) -> Result<(), Fail> {
    for seed in 0..200u64 {
        let (text, bound) = made::circuit(rt.alloc(), seed)?;
        let words = ["synth", bound, "1"];
        let (status, bytes) = answer(&rt, rt.alloc(), &words, &text, &OpenWay)?;
        assert_eq!(rt; status, Status::Found, "seed {seed}");
        assert!(rt; are_same(&rt, rt.alloc(), &text, &bytes)?, "seed {seed}");
        for workers in ["1", "2", "3", "8"] {
            let words = ["synth", bound, workers];
            let (_, again) = answer(&rt, rt.alloc(), &words, &bytes, &OpenWay)?;
            assert!(rt;
                again.as_slice() == bytes.as_slice(),
                "seed {seed}, {workers} workers"
            );
        }
    }
    Ok(())
}

/// A second read that fails leaves nothing written, and a second write that fails leaves what the first one took.
#[test]
fn faults(rt: HostRuntime) -> Result<(), Fail> {
    let alloc = rt.alloc();
    let text = b"OPENQASM 2.0;\nqreg q[1];\nt q[0];\nt q[0];\n".as_slice();
    let rows: [(&[u64], &[u64], Status, &[u8]); 2] = [
        (&[2], &[], Status::ReadFault, b""),
        (&[], &[2], Status::WriteFault, b"// t-count"),
    ];
    for (failing_reads, failing_writes, status, bytes) in rows {
        let failing_reads = Vec::from_slice(alloc, failing_reads)?;
        let failing_writes = Vec::from_slice(alloc, failing_writes)?;
        let mut source = MemSource::new(Vec::from_slice(alloc, text)?, 10, failing_reads);
        let mut sink = MemSink::new(alloc, 200, 10, failing_writes)?;
        let words = ["synth", "5", "1"];
        assert_eq!(rt;
            run(&rt, alloc, &words, &mut source, &mut sink, &OpenWay),
            status
        );
        assert!(rt; sink.bytes() == bytes);
    }
    Ok(())
}

/// Over streams of std, which tell no content.
#[test]
fn over_streams(rt: HostRuntime) -> Result<(), Fail> {
    let text: &[u8] = b"OPENQASM 2.0;\nqreg q[1];\nt q[0];\n";
    let mut held = Vec::new(rt.alloc());
    let mut source = StdSource::new(text);
    let mut sink = StdSink::new(&mut held);
    let words = ["synth", "0", "1"];
    let status = run(&rt, rt.alloc(), &words, &mut source, &mut sink, &OpenWay);
    assert_eq!(rt; status, Status::Above);
    drop(sink);
    assert!(rt; held.as_slice() == b"above 0\n".as_slice());
    Ok(())
}

/// The statuses as the program's exit codes.
#[test]
fn codes(rt: HostRuntime) {
    let rows = [
        (Status::Found, 0),
        (Status::Above, 1),
        (Status::Refused, 2),
        (Status::Usage, 3),
        (Status::ReadFault, 4),
        (Status::WriteFault, 5),
        (Status::NoMemory, 6),
    ];
    for (status, code) in rows {
        assert_eq!(rt; status.code(), code);
    }
}

/// Gates of an angle, as statements and in bodies, and what is printed for them.
#[test]
fn turns(rt: HostRuntime) -> Result<(), Fail> {
    let rows = [
        (
            "1",
            "u1(3*pi/4) q[0];\n",
            "// t-count 1\n// word Z\nOPENQASM 2.0;\ninclude \"qelib1.inc\";\nqreg q[1];\ns q[0];\nt q[0];\n",
        ),
        (
            "0",
            "rz(-pi/2) q;\n",
            "// t-count 0\n// word\nOPENQASM 2.0;\ninclude \"qelib1.inc\";\nqreg q[1];\ns q[0];\ns q[0];\ns q[0];\n",
        ),
        (
            "1",
            "gate g a { u1(pi/4) a; }\ng q[0];\n",
            "// t-count 1\n// word Z\nOPENQASM 2.0;\ninclude \"qelib1.inc\";\nqreg q[1];\nt q[0];\n",
        ),
    ];
    for (bound, line, bytes) in rows {
        let text = repeat(rt.alloc(), "OPENQASM 2.0;\nqreg q[1];\n", line, 1)?;
        let (status, written) = answer(&rt, rt.alloc(), &["synth", bound, "1"], &text, &OpenWay)?;
        assert_eq!(rt; status, Status::Found, "{line:?}");
        assert!(rt; written.as_slice() == bytes.as_bytes(), "{line:?}");
    }
    Ok(())
}

/// What is no turn by a whole multiple of pi/4, and the refusal.
#[test]
fn refused_turns(rt: HostRuntime) -> Result<(), Fail> {
    let rows = [
        ("u1(pi/8) q[0];\n", "refused 20 at 25\n"),
        ("rz(pi/0) q[0];\n", "refused 20 at 25\n"),
        ("gate g a { u1(pi/8) b; }\n", "refused 17 at 25\n"),
        ("u1(0.785) q[0];\n", "refused 11 at 25\n"),
        ("rz(1) q[0];\n", "refused 11 at 25\n"),
        ("rz(pi/4) q[0],q[0];\n", "refused 11 at 25\n"),
    ];
    for (line, bytes) in rows {
        let text = repeat(rt.alloc(), "OPENQASM 2.0;\nqreg q[1];\n", line, 1)?;
        let (status, written) = answer(&rt, rt.alloc(), &["synth", "0", "1"], &text, &OpenWay)?;
        assert_eq!(rt; status, Status::Refused, "{line:?}");
        assert!(rt; written.as_slice() == bytes.as_bytes(), "{line:?}");
    }
    Ok(())
}

/// A controlled h takes two T gates.
#[test]
fn controlled_h(rt: HostRuntime) -> Result<(), Fail> {
    let text = b"OPENQASM 2.0;\nqreg q[2];\nch q[0],q[1];\n".as_slice();
    let (status, bytes) = answer(&rt, rt.alloc(), &["synth", "2", "1"], text, &OpenWay)?;
    assert_eq!(rt; status, Status::Found);
    assert!(rt; bytes.starts_with(b"// t-count 2\n// word YI YZ\n"));
    assert!(rt; are_same(&rt, rt.alloc(), text, &bytes)?);
    Ok(())
}

/// A controlled swap takes seven.
#[test]
fn controlled_swap(rt: HostRuntime) -> Result<(), Fail> {
    let text = b"OPENQASM 2.0;\nqreg q[3];\ncswap q[0],q[1],q[2];\n".as_slice();
    let (status, bytes) = answer(&rt, rt.alloc(), &["synth", "7", "4"], text, &OpenWay)?;
    assert_eq!(rt; status, Status::Found);
    assert!(rt; bytes.starts_with(b"// t-count 7\n"));
    assert!(rt; are_same(&rt, rt.alloc(), text, &bytes)?);
    Ok(())
}
