// Definitions of gates.
use super::{outcome, refusal, text};
use crate::read;
use std::alloc::{AllocError, Global};

// Refusals of texts with definitions, told likewise.
const REFUSED_DEFINITIONS: [(usize, &[u8], u8, usize); 62] = [
    // Definitions without their end or of no form.
    (1, b"gate", 3, 25),
    (1, b"gate g a { h a;", 3, 25),
    (1, b"gate g a { h a; h q[0];", 3, 25),
    (1, b"gate g(x) a { h a;", 3, 25),
    (1, b"gate g { h a; }", 3, 25),
    (1, b"gate a { }", 3, 25),
    (1, b"gate g a { h a }", 3, 25),
    (1, b"gate g a { h a; t a }", 3, 25),
    (1, b"gate g a { ; }", 3, 25),
    (1, b"gate g a { h a[0]; }", 3, 25),
    (1, b"gate g a { h; }", 3, 25),
    (1, b"gate g a { barrier; }", 3, 25),
    (1, b"gate g a[1] { }", 3, 25),
    (1, b"gate g a, { }", 3, 25),
    (1, b"gate g a b { }", 3, 25),
    (1, b"gate gate a { }", 3, 25),
    (1, b"gate pi a { }", 3, 25),
    (1, b"gate g if { }", 3, 25),
    (1, b"gate g a { measure a; }", 3, 25),
    (1, b"gate g a { gate k b; }", 3, 25),
    (1, b"gate g a h a; }", 3, 25),
    (1, b"gate g a { { }", 3, 25),
    (1, b"gate g a } { }", 3, 25),
    (1, b"gate g a { }; h q;", 3, 37),
    (1, b"gate g a { h a; } g q[0],q[0];", 3, 43),
    (1, b"gate g a { h a; } }", 3, 43),
    // Definitions outside the profile.
    (1, b"gate g(x) a { h a; }", 11, 25),
    (1, b"gate g() a { h a; }", 11, 25),
    (1, b"gate g a { u3(pi,0,pi) a; }", 11, 25),
    (1, b"gate g a { U(0,0,0) a; }", 11, 25),
    (1, b"gate g a { CX a,a; }", 11, 25),
    (1, b"gate U a { h a; }", 11, 25),
    (1, b"gate ( }", 11, 25),
    (2, b"gate g a,b { cx a,b; } g q,q[0];", 11, 48),
    // Names of gates that are known, or of gates of an angle.
    (1, b"gate g a { h a; }gate g a { h a; }", 12, 42),
    (1, b"gate h a { }", 12, 25),
    (1, b"gate ccx a,b,c { }", 12, 25),
    (1, b"gate ch a,b { }", 12, 25),
    (1, b"gate cy a,b { }", 12, 25),
    (1, b"gate cswap a,b,c { }", 12, 25),
    (1, b"gate u1 a { }", 12, 25),
    (1, b"gate rz a { }", 12, 25),
    (1, b"gate h a,a { foo a; }", 12, 25),
    // Bodies.
    (1, b"gate g a { g a; }", 17, 25),
    (1, b"gate g a { h b; }", 17, 25),
    (1, b"gate g a,a { h a; }", 17, 25),
    (1, b"gate g a,b,c,b { }", 17, 25),
    (1, b"gate g a { k a; } gate k a { }", 17, 25),
    (1, b"gate g a { barrier a,b; }", 17, 25),
    (1, b"gate g a { barrier q; }", 17, 25),
    (1, b"gate g a,b { h a,b; }", 17, 25),
    (1, b"gate g a,b { cx a; }", 17, 25),
    (1, b"gate g a,b { cx a,a; }", 17, 25),
    (1, b"gate g a { h a; u1 a; }", 17, 25),
    (1, b"gate k a,b { } gate g a { k a; }", 17, 40),
    // Defined gates that are applied.
    (1, b"g q[0]; gate g a { }", 4, 25),
    (1, b"gate g a { } k q[0];", 4, 38),
    (2, b"gate g a,b { } g q[0],r[0];", 5, 40),
    (2, b"gate g a,b { } g q[0],q[2];", 6, 40),
    (2, b"gate g a,b { } g q[1],q[1];", 7, 40),
    (3, b"gate g a,b,c,d { } g q[0],q[1],q[2],q[0];", 7, 44),
    (1, b"gate g a { } g q; qreg r[1];", 12, 43),
];

/// Texts with definitions are refused as told beside them.
#[test]
fn definitions_are_refused(rt: HostRuntime) {
    for (head, lines, number, place) in REFUSED_DEFINITIONS {
        let text = text(rt.alloc(), head, lines).expect(&rt, "memory");
        assert_eq!(rt;
            refusal(rt.alloc(), &text),
            Some((number, place)),
            "at {lines:?}"
        );
    }
}

/// The header, a register q of so many qubits and a gate g0 with the body; then, up to a gate of the last number, each with a body
/// that has one of the gate before it so many times.
fn chain(alloc: Global, first: &[u8], last: usize, times: usize) -> Result<Vec<u8>, AllocError> {
    let mut text = text(alloc, 1, b"gate g0 a {")?;
    text.extend_from_slice(first)?;
    text.extend_from_slice(b" }\n")?;
    for k in 0..last {
        let head = format!(in alloc; "gate g{} a {{", k + 1)?;
        text.extend_from_slice(head.as_bytes())?;
        let call = format!(in alloc; " g{k} a;")?;
        for _ in 0..times {
            text.extend_from_slice(call.as_bytes())?;
        }
        text.extend_from_slice(b" }\n")?;
    }
    Ok(text)
}

// The body of the first gate, the number of the last, how often each body has the gate before it, a line behind them, and how many
// gates there are, or the refusal.
const CHAINS: [(&[u8], usize, usize, &[u8], Result<usize, (u8, usize)>); 9] = [
    // A gate that does nothing, 2 to the 60 times.
    (b"", 60, 2, b"g60 q;", Ok(0)),
    (b" barrier a;", 60, 2, b"g60 q;", Ok(0)),
    // Gates nested in one another.
    (b" h a;", 2900, 1, b"g2900 q;", Ok(1)),
    // Gates that double.
    (b" h a; h a;", 13, 2, b"g0 q;", Err((18, 368))),
    (b" h a; h a;", 12, 2, b"g12 q;", Ok(8192)),
    (b" h a; h a;", 60, 2, b"g60 q;", Err((18, 368))),
    (b" t a;", 6, 2, b"g6 q; g5 q; g4 q; g3 q;", Ok(120)),
    (b" t a;", 7, 2, b"h q; g7 q;", Err((9, 231))),
    // As many gates as a defined gate may stand for.
    (
        b" h a; h a; h a; h a; h a; h a; h a; h a; h a; h a;",
        3,
        10,
        b"g3 q;",
        Ok(10000),
    ),
];

/// Definitions that stand on one another are counted and written out as told beside them.
#[test]
fn chains_of_definitions(rt: HostRuntime) {
    for (first, last, times, line, want) in CHAINS {
        let mut text = chain(rt.alloc(), first, last, times).expect(&rt, "memory");
        text.extend_from_slice(line).expect(&rt, "memory");
        assert_eq!(rt; outcome(rt.alloc(), &text), want, "at {first:?}, {last}");
    }
}

/// The header, a register of so many qubits, a gate of 10,000 gates, and it on the register so many times.
#[test]
fn as_many_gates_as_there_may_be(rt: HostRuntime) {
    let ten: &[u8] = b" h a; h a; h a; h a; h a; h a; h a; h a; h a; h a;";
    let mut text = chain(rt.alloc(), ten, 3, 10).expect(&rt, "memory");
    for _ in 0..10 {
        text.extend_from_slice(b"g3 q;").expect(&rt, "memory");
    }
    assert_eq!(rt; outcome(rt.alloc(), &text), Ok(100000));
    let place = text.len();
    text.extend_from_slice(b"h q;").expect(&rt, "memory");
    assert_eq!(rt; outcome(rt.alloc(), &text), Err((18, place)));
}

/// A gate with more names than a byte counts, whose body is its last names.
#[test]
fn many_names(rt: HostRuntime) {
    let mut text = text(rt.alloc(), 1, b"gate g n0").expect(&rt, "memory");
    for k in 1..400 {
        let name = format!(in rt.alloc(); ",n{k}").expect(&rt, "memory");
        text.extend_from_slice(name.as_bytes())
            .expect(&rt, "memory");
    }
    text.extend_from_slice(b" { cx n0,n256; t n399; }")
        .expect(&rt, "memory");
    assert_eq!(rt; outcome(rt.alloc(), &text), Ok(0));
    let place = text.len();
    text.extend_from_slice(b"gate k a { g a; }")
        .expect(&rt, "memory");
    assert_eq!(rt; outcome(rt.alloc(), &text), Err((17, place)));
}
