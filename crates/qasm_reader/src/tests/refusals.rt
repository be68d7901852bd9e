// Texts that are refused, by number and place.
use super::{refusal, text, text_of_times};
use crate::MOST_STATEMENTS;

// How many qubits the head declares, the lines behind it, the number of the refusal, and its place.
const REFUSALS: [(usize, &[u8], u8, usize); 91] = [
    // No header.
    (0, b"", 1, 0),
    (0, b" // nothing", 1, 11),
    (0, b"OPENQASM 2.0", 1, 0),
    (0, b" OPENQASM 2;", 1, 1),
    (0, b"OPENQASM 2.00;", 1, 0),
    (0, b"OPENQASM 3.0;", 1, 0),
    (0, b"openqasm 2.0;", 1, 0),
    (0, b"// one\nqreg q[1];", 1, 7),
    (0, b";", 1, 0),
    // Bad bytes.
    (1, b"#", 2, 25),
    (1, b"\x00", 2, 25),
    (1, b"\x80", 2, 25),
    (1, b"\"", 2, 25),
    (1, b"include \"qelib1.inc\n\";", 2, 33),
    (0, b"qreg q[1]; @", 2, 11),
    (1, b"h q[9]; foo q; $", 2, 40),
    // No statement.
    (1, b"h q[0]", 3, 25),
    (1, b";", 3, 25),
    (1, b" ; ", 3, 26),
    (1, b"[[[[;", 3, 25),
    (1, b"h q[0;", 3, 25),
    (1, b"h;", 3, 25),
    (1, b"h h q[0];", 3, 25),
    (1, b"h q[0] q[0];", 3, 25),
    (1, b"h q[0],;", 3, 25),
    (1, b"h ,q[0];", 3, 25),
    (1, b"h q[];", 3, 25),
    (1, b"h q[0.0];", 3, 25),
    (1, b"h q[q];", 3, 25),
    (1, b"h q[-1];", 3, 25),
    (1, b"h 0;", 3, 25),
    (1, b"h pi;", 3, 25),
    (1, b"h qreg;", 3, 25),
    (1, b"pi q[0];", 3, 25),
    (1, b"include qelib1;", 3, 25),
    (1, b"include \"qelib1.inc\"", 3, 25),
    (1, b"include \"a\" \"b\";", 3, 25),
    (1, b"qreg r;", 3, 25),
    (1, b"qreg r[1.0];", 3, 25),
    (1, b"qreg gate[1];", 3, 25),
    (1, b"creg c[1], d[1];", 3, 25),
    (1, b"barrier;", 3, 25),
    (1, b"OPENQASM 2.0;", 3, 25),
    (1, b"measure q[0] -> c[0]", 3, 25),
    (1, b"u1(pi/4) q[0]", 3, 25),
    (1, b"(u1) q[0];", 3, 25),
    (1, b"h q,q;", 3, 25),
    (2, b"cx q[0];", 3, 25),
    (2, b"cx q;", 3, 25),
    (3, b"ccx q[0],q[1];", 3, 25),
    (2, b"swap q[0],q[1],q[0];", 3, 25),
    (1, b"h r[9],q[9];", 3, 25),
    // Outside the profile.
    (1, b"measure q -> c;", 11, 25),
    (1, b"reset q;", 11, 25),
    (1, b"if (c == 1) x q[0];", 11, 25),
    (1, b"opaque g a;", 11, 25),
    (1, b"U(0,0,0) q[0];", 11, 25),
    (1, b"CX q[0],q[0];", 11, 25),
    (1, b"u2(0,pi) q[0];", 11, 25),
    (1, b"foo(;", 11, 25),
    (1, b"include \"other.inc\";", 11, 25),
    (2, b"cx q,q[0];", 11, 25),
    (2, b"swap r,r;", 11, 25),
    (
        0,
        b"OPENQASM 2.0;\r\ninclude \"qelib1.inc\";\r\n// two qubits\r\nqreg q[2];\r\ncreg c[2];\r\nh q[0];\r\ncx q[0],q[1];\r\nbarrier q[0],q[1];\r\nt q[1];\r\nmeasure q -> c;\r\n",
        11,
        130,
    ),
    // Two names, and qubits behind a gate.
    (1, b"qreg q[1];", 12, 25),
    (1, b"creg q[1];", 12, 25),
    (1, b"creg c[1]; creg c[2];", 12, 36),
    (1, b"qreg q[0];", 12, 25),
    (1, b"qreg q[9];", 12, 25),
    (1, b"h q; qreg r[1];", 12, 30),
    (1, b"id q; qreg r[0];", 12, 31),
    // Unknown gates and registers.
    (1, b"foo q[0];", 4, 25),
    (1, b"foo r[7],r[7];", 4, 25),
    (1, b"H q[0];", 4, 25),
    (1, b"h r[0];", 5, 25),
    (1, b"creg c[1]; h c[0];", 5, 36),
    (1, b"barrier q,r;", 5, 25),
    (2, b"cx q[9],r[0];", 5, 25),
    // Sizes and indexes.
    (1, b"h q[1];", 6, 25),
    (1, b"creg c[0];", 6, 25),
    (0, b"OPENQASM 2.0;\nqreg q[00];", 6, 14),
    (1, b"h q[18446744073709551616];", 6, 25),
    (1, b"h q[340282366920938463463374607431768211456];", 6, 25),
    (1, b"barrier q[0],q[1];", 6, 25),
    (1, b"cx q[1],q[1];", 6, 25),
    // One qubit twice, and too many qubits or none.
    (2, b"cx q[0],q[0];", 7, 25),
    (3, b"ccx q[0],q[1],q[00];", 7, 25),
    (0, b"OPENQASM 2.0;\nqreg q[4];\n", 8, 14),
    (0, b"OPENQASM 2.0;\nqreg q[99999999999999999999];", 8, 14),
    (2, b"creg c[1]; qreg r[2];", 8, 36),
    (0, b"OPENQASM 2.0;\n", 8, 14),
];

/// Each text is refused with the number at the place beside it.
#[test]
fn texts_are_refused(rt: HostRuntime) {
    for (head, lines, number, place) in REFUSALS {
        let text = text(rt.alloc(), head, lines).expect(&rt, "memory");
        assert_eq!(rt;
            refusal(rt.alloc(), &text),
            Some((number, place)),
            "at {lines:?}"
        );
    }
}

// A line behind the most statements, and the number of its refusal, whose place is 32,785.
const LATE: [(&[u8], u8); 4] = [(b"h q;", 10), (b"foo q;", 4), (b";", 3), (b"h q", 3)];

/// Behind the most statements each row but the last comes before the last.
#[test]
fn a_statement_too_many(rt: HostRuntime) {
    for (line, number) in LATE {
        let mut text = text_of_times(rt.alloc(), b"h q[0];\n", MOST_STATEMENTS - 1).expect(
            &rt, "memory",
        );
        text.extend_from_slice(line).expect(&rt, "memory");
        assert_eq!(rt;
            refusal(rt.alloc(), &text),
            Some((number, 32785)),
            "at {line:?}"
        );
    }
}

/// A text of blanks alone has no header, and a header ends with its first semicolon.
#[test]
fn blanks_and_semis(rt: HostRuntime) {
    let spaces = vec![in rt.alloc(); b' '; 65536].expect(&rt, "memory");
    assert_eq!(rt; refusal(rt.alloc(), &spaces), Some((1, 65536)));
    let mut semis = text(rt.alloc(), 0, b"OPENQASM 2.0").expect(&rt, "memory");
    for _ in 0..5000 {
        semis.push(b';').expect(&rt, "memory");
    }
    assert_eq!(rt; refusal(rt.alloc(), &semis), Some((3, 13)));
}
