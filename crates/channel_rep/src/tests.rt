ghost use Rattle.std.specs.Prelude.{◌≡◌, ◌≢◌, IfOk};

use crate::{Channel, ChannelGate, Conjugation, MOST_EXPONENT, laws};
use pauli_basis::{Pauli, SignedPauli};
use std::process::Abort;
use std::test::Fail;
use tc_ring::Root2;

/// A Pauli other than the identity.
pub fn pauli(n: u8, code: u8) -> Result<Pauli, &'static str>
    ensures qubits { IfOk result (λ p. p.qubits ≡ n) }
    ensures other { IfOk result (λ p. p.code ≢ 0) }
{
    match Pauli::new(n, code) {
        Some(p) if p.code() != 0 => Ok(p),
        _ => Err("no such Pauli"),
    }
}

/// Two rotations by π/4 about Z are one by π/2, cell by cell.
#[test]
fn two_quarter_phases_are_a_half(rt: HostRuntime) -> Result<(), Fail> {
    let z = pauli(1, 3)?;
    let mut c = Channel::identity(rt.alloc(), 1)?;
    c.left_rotation(z);
    assert_eq!(rt; c.exponent(), 1);
    // Rows and columns I, X, Y, Z; each cell as a and b.
    let want = [
        [(0, 1), (0, 0), (0, 0), (0, 0)],
        [(0, 0), (1, 0), (-1, 0), (0, 0)],
        [(0, 0), (1, 0), (1, 0), (0, 0)],
        [(0, 0), (0, 0), (0, 0), (0, 1)],
    ];
    for row in 0..4usize {
        for col in 0..4usize {
            let (a, b) = want[row][col];
            assert_eq!(rt; c.cell(row, col), Root2 { a, b }, "at {row}, {col}");
        }
    }
    assert!(rt; !c.signed_permutation());
    c.left_rotation(z);
    c.reduce();
    assert_eq!(rt; c.exponent(), 0);
    assert_images(&rt, &c, &[(1, 2, false), (2, 1, true), (3, 3, false)])
}

/// Asserts that each code goes to the code and the sign beside it.
fn assert_images(rt: &impl Abort, c: &Channel, want: &[(u8, u8, bool)]) -> Result<(), Fail> {
    assert!(rt; c.signed_permutation());
    for (code, image, negative) in want {
        let p = Pauli::new(c.qubits(), *code).ok_or("no such Pauli")?;
        let want = SignedPauli::new(*image, *negative);
        assert_eq!(rt; c.image(p), want, "the image of {p}");
    }
    Ok(())
}

/// The images of Paulis under each gate.
#[test]
fn gates_conjugate(rt: HostRuntime) -> Result<(), Fail> {
    let mut c = Channel::identity(rt.alloc(), 1)?;
    c.left_gate(ChannelGate::H(0));
    assert_images(
        &rt,
        &c,
        &[(0, 0, false), (1, 3, false), (2, 2, true), (3, 1, false)],
    )?;
    let mut c = Channel::identity(rt.alloc(), 1)?;
    c.left_gate(ChannelGate::S(0));
    assert_images(&rt, &c, &[(1, 2, false), (2, 1, true), (3, 3, false)])?;
    let mut c = Channel::identity(rt.alloc(), 1)?;
    c.left_gate(ChannelGate::Sdg(0));
    assert_images(&rt, &c, &[(1, 2, true), (2, 1, false), (3, 3, false)])?;
    // Control 0, target 1: X and Y of the control take X along, Y and Z of the target take Z along, and X with Z and Y
    // with Y change places with a sign.
    let mut c = Channel::identity(rt.alloc(), 2)?;
    c.left_gate(ChannelGate::Cx(0, 1));
    let want = [
        (1, 5, false),
        (2, 6, false),
        (3, 3, false),
        (4, 4, false),
        (8, 11, false),
        (12, 15, false),
        (13, 10, true),
        (10, 13, true),
        (9, 14, false),
        (14, 9, false),
    ];
    assert_images(&rt, &c, &want)
}

/// A rotation and its inverse leave the identity.
#[test]
fn an_inverse_undoes_a_rotation(rt: HostRuntime) -> Result<(), Fail> {
    let mut c = Channel::identity(rt.alloc(), 3)?;
    c.left_rotation(pauli(3, 27)?);
    let mut d = Channel::identity(rt.alloc(), 3)?;
    d.copy_from(&c);
    assert_eq!(rt; d.qubits(), 3);
    assert_eq!(rt; d.exponent(), 1);
    d.left_rotation_inverse(pauli(3, 27)?);
    assert_eq!(rt; d.exponent(), 2);
    d.reduce();
    assert_eq!(rt; d.exponent(), 0);
    assert_images(
        &rt,
        &d,
        &[
            (1, 1, false),
            (8, 8, false),
            (48, 48, false),
            (63, 63, false),
        ],
    )
}

/// As many rotations as the largest exponent allows keep their cells.
#[test]
fn the_most_rotations_fit(rt: HostRuntime) -> Result<(), Fail> {
    laws::channels_are_orthogonal();
    // Eight of them are the identity, and so are 120: its cells are √2^120.
    let z = pauli(1, 3)?;
    let mut c = Channel::identity(rt.alloc(), 1)?;
    while c.exponent() < MOST_EXPONENT {
        c.left_rotation(z);
    }
    assert_eq!(rt; c.exponent(), 120);
    for row in 0..4usize {
        for col in 0..4usize {
            let a = if row == col { 1 << 60 } else { 0 };
            assert_eq!(rt; c.cell(row, col), Root2 { a, b: 0 }, "at {row}, {col}");
        }
    }
    c.reduce();
    assert_eq!(rt; c.exponent(), 0);
    assert_images(&rt, &c, &[(1, 1, false), (2, 2, false), (3, 3, false)])
}

/// The images of Paulis under three gates one after another.
#[test]
fn a_run_conjugates_each_pauli(rt: HostRuntime) -> Result<(), Fail> {
    // sdg and h on the control, and then cx: X of the control goes to −Y and on to Y, which takes X along; Z goes to X and
    // so to X on both; Z of the target takes Z along.
    let mut run = Conjugation::identity(2);
    run.then(ChannelGate::Sdg(0));
    run.then(ChannelGate::H(0));
    run.then(ChannelGate::Cx(0, 1));
    assert_eq!(rt; run.qubits(), 2);
    let want = [
        (0, 0, false),
        (1, 6, false),
        (2, 3, false),
        (3, 5, false),
        (4, 4, false),
        (8, 11, false),
        (12, 15, false),
    ];
    for (code, image, negative) in want {
        let want = SignedPauli::new(image, negative);
        assert_eq!(rt; run.image(code), want, "the image of {code}");
    }
    Ok(())
}

/// Gates at once make the same channel as one by one.
#[test]
fn a_run_moves_rows_as_its_gates_do(rt: HostRuntime) -> Result<(), Fail> {
    let mut run = Conjugation::identity(3);
    run.then(ChannelGate::S(1));
    run.then(ChannelGate::H(1));
    run.then(ChannelGate::Cx(2, 1));
    let mut one_by_one = Channel::identity(rt.alloc(), 3)?;
    one_by_one.left_rotation(pauli(3, 27)?);
    let mut at_once = Channel::identity(rt.alloc(), 3)?;
    at_once.conjugate_from(&one_by_one, &run);
    one_by_one.left_gate(ChannelGate::S(1));
    one_by_one.left_gate(ChannelGate::H(1));
    one_by_one.left_gate(ChannelGate::Cx(2, 1));
    assert_eq!(rt; at_once.exponent(), one_by_one.exponent());
    for row in 0..64usize {
        for col in 0..64usize {
            assert_eq!(rt;
                at_once.cell(row, col),
                one_by_one.cell(row, col),
                "at {row}, {col}"
            );
        }
    }
    Ok(())
}

/// Calls the laws, which do nothing.
#[test]
fn laws_are_called() {
    laws::tables_compare();
    laws::tables_multiply();
    laws::rotations_undo();
}
