// Where the second of two programs begins.
use crate::{ReadFault, halves};

// A text, and where its second half begins, if it has two; or its first bad byte.
const HALVES: [(&[u8], Result<Option<usize>, usize>); 11] = [
    (
        b"OPENQASM 2.0;\nqreg q[1];\nOPENQASM 2.0;\nqreg q[1];\n",
        Ok(Some(25)),
    ),
    (b"OPENQASM OPENQASM", Ok(Some(9))),
    (b";OPENQASM;OPENQASM;", Ok(Some(10))),
    (b"", Ok(None)),
    (b"OPENQASM", Ok(None)),
    (b"OPENQASM OPENQASM OPENQASM", Ok(None)),
    (b"OPENQASM // OPENQASM\n", Ok(None)),
    (b"// OPENQASM\nOPENQASM 2.0; OPENQASM", Ok(Some(26))),
    (b"\"OPENQASM\" OPENQASMS openqasm OPENQASM", Ok(None)),
    (b"OPENQASM # OPENQASM #", Err(9)),
    (b"OPENQASM OPENQASM OPENQASM \"", Err(27)),
];

/// Each text has its second half at the place beside it, or none.
#[test]
fn halves_of_texts(rt: HostRuntime) {
    for (text, want) in HALVES {
        let found = match halves(rt.alloc(), text) {
            Ok(found) => Ok(found),
            Err(ReadFault::Refused { number: 2, place }) => Err(place),
            Err(_) => Err(text.len()),
        };
        assert_eq!(rt; found, want, "in {text:?}");
    }
}
