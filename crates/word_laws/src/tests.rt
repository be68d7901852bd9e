ghost use Rattle.std.specs.Prelude.{◌<◌};

use crate::divisions;
use std::test::Fail;

/// Nothing but even numbers.
const NONE: [u64; 16] = [0; 16];

/// The identity on two qubits.
const IDENTITY: [u64; 16] = [
    0x1, 0x2, 0x4, 0x8, 0x10, 0x20, 0x40, 0x80, 0x100, 0x200, 0x400, 0x800, 0x1000, 0x2000, 0x4000,
    0x8000,
];

/// The whole parts of R(XI)·R(IY), and its parts of √2.
const WHOLES_XI_IY: [u64; 16] = [
    0, 0, 0, 0, 0, 0, 0, 0, 0, 0xaa00, 0, 0xaa00, 0, 0xaa00, 0, 0xaa00,
];

const PARTS_XI_IY: [u64; 16] = [
    0, 0xa, 0, 0xa, 0, 0xa0, 0, 0xa0, 0x1100, 0, 0x4400, 0, 0x1100, 0, 0x4400, 0,
];

/// The whole parts of R(ZY)·R(IY)·R(ZI), whose parts of √2 are even.
const WHOLES_ZY_IY_ZI: [u64; 16] = [
    0, 0xa00a, 0, 0xa00a, 0x550, 0xaa0, 0x550, 0xaa0, 0x550, 0xaa0, 0x550, 0xaa0, 0, 0xa00a, 0,
    0xa00a,
];

/// The divisions behind a letter on two qubits, with the rows that commute as bits.
fn of_two_qubits(wholes: &[u64; 16], parts: &[u64; 16], commuting: u16, p: usize) -> u8
    requires { p < 16 }
{
    let mut commutes = [false; 16];
    for row in 0..16usize {
        commutes[row] = commuting >> row & 1 == 1;
    }
    divisions(wholes, parts, &commutes, p)
}

/// Words, a letter in front of each, and how often its rotation divides by √2.
#[test]
fn letters_divide_so_often(rt: HostRuntime) -> Result<(), Fail> {
    // Whole parts, parts of √2, the rows that commute with the letter, the letter, and how often its rotation's product was
    // divided by √2 outside this program. The second row is √2 times the identity, and letter 0 makes it of any table.
    let rows: [([u64; 16], [u64; 16], u16, usize, u8); 8] = [
        (IDENTITY, NONE, 0xaa55, 6, 0),
        (NONE, IDENTITY, 0xaa55, 6, 1),
        (IDENTITY, NONE, 0xffff, 0, 1),
        (NONE, NONE, 0xaa55, 6, 2),
        (WHOLES_XI_IY, PARTS_XI_IY, 0xaa55, 6, 1),
        (WHOLES_XI_IY, PARTS_XI_IY, 0x00ff, 4, 2),
        (WHOLES_XI_IY, PARTS_XI_IY, 0x5555, 2, 2),
        (WHOLES_ZY_IY_ZI, NONE, 0x5aa5, 14, 1),
    ];
    for (wholes, parts, commuting, p, count) in rows {
        if p < 16 {
            assert_eq!(rt;
                of_two_qubits(&wholes, &parts, commuting, p),
                count,
                "letter {p}, {commuting}"
            );
        }
    }
    Ok(())
}
