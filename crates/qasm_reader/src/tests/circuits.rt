// Texts and the circuits that they read as.
use super::text;
use crate::read;
use tc_circuit::Gate::{self, Cx, H, S, Sdg, T, Tdg};

// How many qubits the head declares, the lines behind it, how many qubits the circuit has, and its gates.
const CIRCUITS: [(usize, &[u8], u8, &[Gate]); 64] = [
    // Each gate.
    (1, b"h q[0];", 1, &[H(0)]),
    (2, b"s q[1];", 2, &[S(1)]),
    (2, b"sdg q[0];", 2, &[Sdg(0)]),
    (3, b"t q[2];", 3, &[T(2)]),
    (3, b"tdg q[1];", 3, &[Tdg(1)]),
    (1, b"id q[0];", 1, &[]),
    (1, b"x q[0];", 1, &[H(0), S(0), S(0), H(0)]),
    (2, b"z q[1];", 2, &[S(1), S(1)]),
    (1, b"y q[0];", 1, &[S(0), S(0), H(0), S(0), S(0), H(0)]),
    (2, b"cx q[1],q[0];", 2, &[Cx(1, 0)]),
    (2, b"cz q[0],q[1];", 2, &[H(1), Cx(0, 1), H(1)]),
    (3, b"swap q[2],q[0];", 3, &[Cx(2, 0), Cx(0, 2), Cx(2, 0)]),
    (
        3,
        b"ccx q[0],q[1],q[2];",
        3,
        &[
            H(2),
            Cx(1, 2),
            Tdg(2),
            Cx(0, 2),
            T(2),
            Cx(1, 2),
            Tdg(2),
            Cx(0, 2),
            T(1),
            T(2),
            H(2),
            Cx(0, 1),
            T(0),
            Tdg(1),
            Cx(0, 1),
        ],
    ),
    (
        3,
        b"ccx q[2],q[0],q[1];",
        3,
        &[
            H(1),
            Cx(0, 1),
            Tdg(1),
            Cx(2, 1),
            T(1),
            Cx(0, 1),
            Tdg(1),
            Cx(2, 1),
            T(0),
            T(1),
            H(1),
            Cx(2, 0),
            T(2),
            Tdg(0),
            Cx(2, 0),
        ],
    ),
    // Whole registers.
    (3, b"h q;", 3, &[H(0), H(1), H(2)]),
    (2, b"z q;", 2, &[S(0), S(0), S(1), S(1)]),
    (1, b"id q;", 1, &[]),
    (
        1,
        b"qreg r[2]; t r; h q; tdg r[0];",
        3,
        &[T(1), T(2), H(0), Tdg(1)],
    ),
    (0, b"OPENQASM 2.0;\nqreg a[2];\nqreg b[1];\n", 3, &[]),
    (
        0,
        b"OPENQASM 2.0; qreg a[1]; creg c[7]; qreg b[2]; cx b[1],a[0];",
        3,
        &[Cx(2, 0)],
    ),
    // An exporter's file, whose lines end with a carriage return and a line feed.
    (
        0,
        b"OPENQASM 2.0;\r\ninclude \"qelib1.inc\";\r\n// two qubits\r\nqreg q[2];\r\ncreg c[2];\r\nh q[0];\r\ncx q[0],q[1];\r\nbarrier q[0],q[1];\r\nt q[1];\r\n",
        2,
        &[H(0), Cx(0, 1), T(1)],
    ),
    // What the reader allows beyond the standard.
    (
        1,
        b"include \"qelib1.inc\"; h q[0]; include\"qelib1.inc\";",
        1,
        &[H(0)],
    ),
    (
        0,
        b"OPENQASM 2.0; qreg h[1]; h h[0]; h h;",
        1,
        &[H(0), H(0)],
    ),
    (1, b"creg h[1]; h q[0];", 1, &[H(0)]),
    (1, b"creg cx[1]; h q[0];", 1, &[H(0)]),
    (1, b"h q[000];", 1, &[H(0)]),
    (
        1,
        b"h q[00000000000000000000000000000000000000];",
        1,
        &[H(0)],
    ),
    (
        0,
        b"OPENQASM 2.0; qreg q[0000000000000000000000002]; s q[01];",
        2,
        &[S(1)],
    ),
    (2, b"barrier q[0],q[0],q,q[1],q;", 2, &[]),
    (1, b"barrier q; qreg r[1]; t r[0];", 2, &[T(1)]),
    (0, b"OPENQASM 2.0; qreg _Q9[1]; s _Q9;", 1, &[S(0)]),
    (
        0,
        b"OPENQASM 2.0; qreg sin[1]; creg cos[1]; creg tan[1]; creg exp[1]; creg ln[1]; creg sqrt[1]; s sin;",
        1,
        &[S(0)],
    ),
    (
        1,
        b"creg c[340282366920938463463374607431768211456];",
        1,
        &[],
    ),
    // Blanks and comments.
    (1, b"", 1, &[]),
    (1, b"// \"\x00", 1, &[]),
    (1, b"// no line feed", 1, &[]),
    (1, b"h//\x80\nq\t[\r0 ]\n;//", 1, &[H(0)]),
    (0, b"// first\nOPENQASM // 3\n2.0 ; qreg q [ 1 ] ;", 1, &[]),
    (0, b"OPENQASM 2.0;qreg q[1];h q;", 1, &[H(0)]),
    // A controlled s, and a gate with its qubits in each place.
    (
        2,
        b"t q[0];\nt q[1];\ncx q[0],q[1];\ntdg q[1];\ncx q[0],q[1];\n",
        2,
        &[T(0), T(1), Cx(0, 1), Tdg(1), Cx(0, 1)],
    ),
    (
        3,
        b"cx q[0],q[2]; cx q[2],q[1]; cx q[1],q[0];",
        3,
        &[Cx(0, 2), Cx(2, 1), Cx(1, 0)],
    ),
    (
        0,
        b"OPENQASM 2.0; qreg a[1]; qreg b[1]; qreg c[1]; cx c[0],a[0]; cx b[0],c[0];",
        3,
        &[Cx(2, 0), Cx(1, 2)],
    ),
    (2, b"x q[1];", 2, &[H(1), S(1), S(1), H(1)]),
    (3, b"barrier q;", 3, &[]),
    (1, b"id q; id q[0];", 1, &[]),
    (1, b"creg c[1]; barrier q;", 1, &[]),
    (2, b"sdg q;", 2, &[Sdg(0), Sdg(1)]),
    (2, b"tdg q;", 2, &[Tdg(0), Tdg(1)]),
    (2, b"s q; t q;", 2, &[S(0), S(1), T(0), T(1)]),
    // Definitions of gates.
    (1, b"gate g a { h a; }", 1, &[]),
    (1, b"gate g a { } g q;", 1, &[]),
    (1, b"gate g a{h a;t a;}g q[0];", 1, &[H(0), T(0)]),
    (
        3,
        b"gate g a { h a; t a; } g q;",
        3,
        &[H(0), T(0), H(1), T(1), H(2), T(2)],
    ),
    (2, b"gate r a,b { cx b,a; } r q[0],q[1];", 2, &[Cx(1, 0)]),
    (
        3,
        b"gate r a,b,c { cx c,a; t b; } r q[1],q[2],q[0];",
        3,
        &[Cx(0, 1), T(2)],
    ),
    (
        2,
        b"gate g a,b { barrier b,a,b; s b; barrier a; } g q[0],q[1];",
        2,
        &[S(1)],
    ),
    (
        1,
        b"gate g a { t a; } gate k b { g b; h b; g b; } k q;",
        1,
        &[T(0), H(0), T(0)],
    ),
    (
        2,
        b"gate r a,b { cx b,a; } gate k b,a { r a,b; } k q[0],q[1];",
        2,
        &[Cx(0, 1)],
    ),
    (1, b"gate q q { h q; } q q[0];", 1, &[H(0)]),
    (
        1,
        b"gate g a { x a; } gate w a,b,c,d { cx a,d; g c; }",
        1,
        &[],
    ),
    (
        0,
        b"OPENQASM 2.0; gate g a { s a; } qreg q[1]; gate k a { g a; } qreg r[1]; k r[0];",
        2,
        &[S(1)],
    ),
    (
        2,
        b"gate cs a,b { t a; t b; cx a,b; tdg b; cx a,b; } cs q[0],q[1];",
        2,
        &[T(0), T(1), Cx(0, 1), Tdg(1), Cx(0, 1)],
    ),
    // Toffoli's circuit, by a definition of its own, and a controlled controlled z by ccx.
    (
        3,
        b"gate toffoli a,b,c { h c; cx b,c; tdg c; cx a,c; t c; cx b,c; tdg c; cx a,c; t b; t c; h c; cx a,b; t a; tdg b; cx a,b; } toffoli q[0],q[1],q[2];",
        3,
        &[
            H(2),
            Cx(1, 2),
            Tdg(2),
            Cx(0, 2),
            T(2),
            Cx(1, 2),
            Tdg(2),
            Cx(0, 2),
            T(1),
            T(2),
            H(2),
            Cx(0, 1),
            T(0),
            Tdg(1),
            Cx(0, 1),
        ],
    ),
    (
        3,
        b"gate ccz a,b,c { h c; ccx a,b,c; h c; } ccz q[2],q[0],q[1];",
        3,
        &[
            H(1),
            H(1),
            Cx(0, 1),
            Tdg(1),
            Cx(2, 1),
            T(1),
            Cx(0, 1),
            Tdg(1),
            Cx(2, 1),
            T(0),
            T(1),
            H(1),
            Cx(2, 0),
            T(2),
            Tdg(0),
            Cx(2, 0),
            H(1),
        ],
    ),
];

/// Each text reads as the circuit beside it.
#[test]
fn circuits_are_read(rt: HostRuntime) {
    for (head, lines, qubits, gates) in CIRCUITS {
        let text = text(rt.alloc(), head, lines).expect(&rt, "memory");
        let circuit = read(rt.alloc(), &text).expect(&rt, "is read");
        assert_eq!(rt; circuit.qubits(), qubits, "at {lines:?}");
        assert_eq!(rt; circuit.gates(), gates, "at {lines:?}");
    }
}
