// Gates of an angle, and gates that take more than one argument.
use super::{refusal, text};
use crate::read;
use tc_circuit::Gate::{self, Cx, H, S, Sdg, T, Tdg};

// Circuits with gates of an angle, and with gates that take more than one argument, told likewise.
const TURNS: [(usize, &[u8], u8, &[Gate]); 40] = [
    // The eight turns.
    (1, b"u1(0) q[0];", 1, &[]),
    (1, b"u1(pi/4) q[0];", 1, &[T(0)]),
    (1, b"u1(pi/2) q[0];", 1, &[S(0)]),
    (1, b"u1(3*pi/4) q[0];", 1, &[S(0), T(0)]),
    (1, b"u1(pi) q[0];", 1, &[S(0), S(0)]),
    (1, b"u1(5*pi/4) q[0];", 1, &[S(0), S(0), T(0)]),
    (1, b"u1(3*pi/2) q[0];", 1, &[Sdg(0)]),
    (1, b"u1(7*pi/4) q[0];", 1, &[Tdg(0)]),
    (1, b"rz(0) q[0];", 1, &[]),
    (1, b"rz(pi/4) q[0];", 1, &[T(0)]),
    (1, b"rz(2*pi/4) q[0];", 1, &[S(0)]),
    (1, b"rz(3*pi/4) q[0];", 1, &[S(0), T(0)]),
    (1, b"rz(4*pi/4) q[0];", 1, &[S(0), S(0)]),
    (1, b"rz(5*pi/4) q[0];", 1, &[S(0), S(0), T(0)]),
    (1, b"rz(6*pi/4) q[0];", 1, &[Sdg(0)]),
    (1, b"rz(7*pi/4) q[0];", 1, &[Tdg(0)]),
    // Signs, sums and other spellings.
    (1, b"rz(-pi/4) q[0];", 1, &[Tdg(0)]),
    (1, b"rz(-pi/2) q;", 1, &[Sdg(0)]),
    (1, b"rz ( - 3 * pi / 4 ) q[0];", 1, &[S(0), S(0), T(0)]),
    (1, b"rz(pi*3/4)q;", 1, &[S(0), T(0)]),
    (1, b"u1(pi/4+pi) q[0];", 1, &[S(0), S(0), T(0)]),
    (1, b"u1(9*pi/4) q[0];", 1, &[T(0)]),
    // Whole registers, in rising order, and the places of qubits.
    (3, b"u1(pi/4) q;", 3, &[T(0), T(1), T(2)]),
    (2, b"rz(3*pi/4) q;", 2, &[S(0), T(0), S(1), T(1)]),
    (3, b"rz(pi/4) q[2]; rz(pi/2) q[1];", 3, &[T(2), S(1)]),
    (1, b"creg u1[1]; u1(pi/4) q[0];", 1, &[T(0)]),
    (0, b"OPENQASM 2.0; qreg u1[1]; u1(pi/4) u1[0];", 1, &[T(0)]),
    // Bodies.
    (1, b"gate g a { u1(pi/4) a; } g q[0];", 1, &[T(0)]),
    (
        2,
        b"gate g a,b { h a; rz(3*pi/4) b; cx a,b; u1(-pi/4) a; } g q[1],q[0];",
        2,
        &[H(1), S(0), T(0), Cx(1, 0), Tdg(1)],
    ),
    (
        2,
        b"gate g a { rz(pi/2) a; barrier a; h a; } g q;",
        2,
        &[S(0), H(0), S(1), H(1)],
    ),
    (1, b"gate g a,b,c,d { u1(pi) d; }", 1, &[]),
    // Controlled gates.
    (
        2,
        b"ch q[0],q[1];",
        2,
        &[S(1), H(1), T(1), Cx(0, 1), Tdg(1), H(1), Sdg(1)],
    ),
    (
        3,
        b"ch q[2],q[0];",
        3,
        &[S(0), H(0), T(0), Cx(2, 0), Tdg(0), H(0), Sdg(0)],
    ),
    (2, b"cy q[0],q[1];", 2, &[Sdg(1), Cx(0, 1), S(1)]),
    (2, b"cy q[1],q[0];", 2, &[Sdg(0), Cx(1, 0), S(0)]),
    (
        3,
        b"cswap q[0],q[1],q[2];",
        3,
        &[
            Cx(2, 1),
            H(2),
            Cx(1, 2),
            Tdg(2),
            Cx(0, 2),
            T(2),
            Cx(1, 2),
            Tdg(2),
            Cx(0, 2),
            T(1),
            T(2),
            H(2),
            Cx(0, 1),
            T(0),
            Tdg(1),
            Cx(0, 1),
            Cx(2, 1),
        ],
    ),
    (
        2,
        b"gate g a,b { cy b,a; } g q[0],q[1];",
        2,
        &[Sdg(0), Cx(1, 0), S(0)],
    ),
    // A controlled s as exporters write it, and two turns that cancel.
    (
        2,
        b"u1(pi/4) q[0]; cx q[0],q[1]; u1(-pi/4) q[1]; cx q[0],q[1]; u1(pi/4) q[1];",
        2,
        &[T(0), Cx(0, 1), Tdg(1), Cx(0, 1), T(1)],
    ),
    (1, b"rz(pi/4) q[0]; rz(-pi/4) q[0];", 1, &[T(0), Tdg(0)]),
    (1, b"u1(00) q;", 1, &[]),
];

/// Texts with gates of an angle read as the circuits beside them.
#[test]
fn turns_are_read(rt: HostRuntime) {
    for (head, lines, qubits, gates) in TURNS {
        let text = text(rt.alloc(), head, lines).expect(&rt, "memory");
        let circuit = read(rt.alloc(), &text).expect(&rt, "is read");
        assert_eq!(rt; circuit.qubits(), qubits, "at {lines:?}");
        assert_eq!(rt; circuit.gates(), gates, "at {lines:?}");
    }
}

// Refusals of texts with gates of an angle, told likewise.
const REFUSED_TURNS: [(usize, &[u8], u8, usize); 50] = [
    // Angles that aren't whole multiples of pi/4.
    (1, b"u1(pi/8) q[0];", 20, 25),
    (1, b"rz(pi/0) q[0];", 20, 25),
    (1, b"rz(pi/3) q;", 20, 25),
    (1, b"u1(pi/8+pi/8) q[0];", 20, 25),
    (1, b"gate g a { u1(pi/8) a; }", 20, 25),
    (1, b"gate g a { h a; rz(pi/16) a; t a; }", 20, 25),
    (1, b"h q; u1(pi/8) q[0];", 20, 30),
    // What is no angle.
    (1, b"u1(0.785) q[0];", 11, 25),
    (1, b"rz(0.25*pi) q[0];", 11, 25),
    (1, b"rz(1) q[0];", 11, 25),
    (1, b"rz() q[0];", 11, 25),
    (1, b"rz(pi/4,0) q[0];", 11, 25),
    (1, b"rz(--pi) q[0];", 11, 25),
    (1, b"rz((pi)) q[0];", 11, 25),
    (1, b"rz(sin(pi)) q[0];", 11, 25),
    (1, b"u1(1000000000*pi) q[0];", 11, 25),
    (1, b"gate g a { u1(0.5) a; }", 11, 25),
    (1, b"gate g a { u1(pi/4) a }", 11, 25),
    (1, b"gate g a { u1(pi/4) a,a; }", 11, 25),
    (2, b"gate g a,b { u1(pi/4) a,b; }", 11, 25),
    (1, b"gate g a { u1(pi/4) a[0]; }", 11, 25),
    (1, b"gate g a { u1(pi/4); }", 11, 25),
    (1, b"gate g(x) a { u1(pi/4) a; }", 11, 25),
    // Other numbers of arguments, and other gates with parameters.
    (1, b"rz(pi/4) q[0],q[0];", 11, 25),
    (1, b"rz(pi/4);", 11, 25),
    (1, b"rz(pi/4 q[0];", 11, 25),
    (1, b"rx(pi/4) q[0];", 11, 25),
    (1, b"p(pi/4) q[0];", 11, 25),
    (1, b"h(pi/4) q[0];", 11, 25),
    (2, b"cu1(pi/2) q[0],q[1];", 11, 25),
    (1, b"u1(pi/4) q[0", 3, 25),
    (1, b"u1 q[0];", 4, 25),
    (1, b"rz q[0];", 4, 25),
    // Bodies.
    (1, b"gate g a { u1(pi/8) b; }", 17, 25),
    (1, b"gate g a { u1(pi/4) b; }", 17, 25),
    (1, b"gate g a,a { u1(pi/8) a; }", 17, 25),
    (1, b"gate u1 a { u1(pi/8) a; }", 12, 25),
    (1, b"gate rz a { rz(pi/4) a; }", 12, 25),
    // Registers and indexes.
    (1, b"u1(pi/8) r[0];", 20, 25),
    (1, b"u1(pi/4) r[0];", 5, 25),
    (1, b"creg c[1]; rz(pi/4) c;", 5, 36),
    (1, b"u1(pi/4) q[1];", 6, 25),
    (1, b"u1(pi/8) q[1];", 20, 25),
    // Qubits behind a gate of an angle.
    (1, b"u1(pi/4) q[0]; qreg r[1];", 12, 40),
    (1, b"rz(0) q[0]; qreg r[1];", 12, 37),
    // Controlled gates.
    (2, b"ch q[0];", 3, 25),
    (2, b"ch q,q[1];", 11, 25),
    (2, b"cy q[0],q[0];", 7, 25),
    (3, b"cswap q[0],q[1],q[1];", 7, 25),
    (2, b"gate g a,b { ch a,a; }", 17, 25),
];

/// Texts with gates of an angle are refused as told beside them.
#[test]
fn turns_are_refused(rt: HostRuntime) {
    for (head, lines, number, place) in REFUSED_TURNS {
        let text = text(rt.alloc(), head, lines).expect(&rt, "memory");
        assert_eq!(rt;
            refusal(rt.alloc(), &text),
            Some((number, place)),
            "at {lines:?}"
        );
    }
}
