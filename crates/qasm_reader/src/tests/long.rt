// Long texts, and each front of a text.
use super::{outcome, refusal, text, text_of_times};
use crate::{MOST_STATEMENTS, MOST_T_GATES, read};

// A line, how many times, and the number and the place of the refusal, or none.
const LONG: [(&[u8], usize, Option<(u8, usize)>); 13] = [
    (b"t q[0];\n", 45, None),
    (b"t q[0];\n", MOST_T_GATES, None),
    (b"t q[0];\n", MOST_T_GATES + 1, Some((9, 985))),
    (b"tdg q;\n", MOST_T_GATES + 1, Some((9, 865))),
    (b"rz(3*pi/4) q;\n", MOST_T_GATES, None),
    (b"rz(3*pi/4) q;\n", MOST_T_GATES + 1, Some((9, 1705))),
    (b"rz(pi) q;\n", MOST_T_GATES + 1, None),
    (b"h q[0];\n", MOST_STATEMENTS - 1, None),
    (b"h q[0];\n", MOST_STATEMENTS, Some((10, 32785))),
    (b"barrier q;", MOST_STATEMENTS, Some((10, 40975))),
    (b" ", 65511, None),
    (b"y q;", MOST_STATEMENTS - 1, None),
    (b"creg c[1];", 2, Some((12, 35))),
];

/// Lines that come many times, up to the limits and past them.
#[test]
fn long_texts(rt: HostRuntime) {
    for (line, times, want) in LONG {
        let text = text_of_times(rt.alloc(), line, times).expect(&rt, "memory");
        assert_eq!(rt; refusal(rt.alloc(), &text), want, "at {line:?}");
        assert_eq!(rt;
            read(rt.alloc(), &text).is_ok(),
            want.is_none(),
            "at {line:?}"
        );
    }
}

// A length, and what the fronts of the text below it, down to the length before, read as: how many gates, or a refusal.
const FRONTS: [(usize, Result<usize, (u8, usize)>); 15] = [
    (13, Err((1, 0))),
    (14, Err((8, 13))),
    (15, Err((8, 14))),
    (24, Err((3, 14))),
    (26, Ok(0)),
    (32, Err((3, 25))),
    (34, Ok(1)),
    (40, Err((3, 33))),
    (42, Ok(2)),
    (54, Err((3, 41))),
    (56, Ok(3)),
    (64, Err((3, 55))),
    (66, Ok(4)),
    (78, Err((3, 65))),
    (80, Ok(5)),
];

/// Each front of a text is a text, which is read or refused for its own first reason.
#[test]
fn fronts_of_a_text(rt: HostRuntime) {
    let whole: &[u8] =
        b"OPENQASM 2.0;\nqreg q[2];\nt q[0];\nt q[1];\ncx q[0],q[1];\ntdg q[1];\ncx q[0],q[1];\n";
    let mut front = Vec::new(rt.alloc());
    for (end, want) in FRONTS {
        for byte in whole.iter().take(end).skip(front.len()) {
            assert_eq!(rt; outcome(rt.alloc(), &front), want, "below {end}");
            front.push(*byte).expect(&rt, "memory");
        }
    }
    assert_eq!(rt; outcome(rt.alloc(), &front), Ok(5));
}

/// A barrier with as many arguments as a text that a program takes can hold.
#[test]
fn long_barriers(rt: HostRuntime) {
    let head = b"OPENQASM 2.0;include \"qelib1.inc\";qreg q[3];barrier q";
    let mut text = text(rt.alloc(), 0, head).expect(&rt, "memory");
    for _ in 1..32000 {
        text.extend_from_slice(b",q").expect(&rt, "memory");
    }
    text.push(b';').expect(&rt, "memory");
    assert_eq!(rt; outcome(rt.alloc(), &text), Ok(0));
}
