ghost use Rattle.std.specs.Prelude.{◌≡◌, ◌^◌, ◌<◌, ◌≤◌, length};

use super::words::{channel_of, pauli, word};
use crate::parities::Parities;
use pauli_basis::Pauli;
use std::test::Fail;

/// Which Paulis on two qubits commute with one.
fn commuting_with(p: &Pauli) -> Result<[bool; 16], &'static str>
    requires { p.now.qubits ≡ 2 }
{
    let mut commuting = [false; 16];
    for code in 0..16u8 {
        commuting[code as usize] = p.commutes(&pauli(2, code)?);
    }
    Ok(commuting)
}

/// How often letters before words divide.
#[test]
fn letters_divide_so_often(rt: HostRuntime) -> Result<(), Fail> {
    // A word on two qubits, the letter before it, and how often the product of its rotation and the word's channel was divided
    // by √2 outside this program.
    let rows: [(&[u8], u8, u8); 7] = [
        (&[], 3, 0),
        (&[3], 3, 2),
        (&[3], 1, 0),
        (&[3], 15, 0),
        (&[4, 2], 4, 2),
        (&[4, 2], 2, 2),
        (&[4, 2], 6, 1),
    ];
    let mut parities = Parities::new(rt.alloc(), 2)?;
    for (codes, letter, count) in rows {
        let channel = channel_of(rt.alloc(), word(2, codes)?)?;
        let p = pauli(2, letter)?;
        parities.take(&channel);
        let found = parities.divisions(&commuting_with(&p)?, p);
        assert_eq!(rt; found, count, "letter {letter} before {codes:?}");
    }
    Ok(())
}
