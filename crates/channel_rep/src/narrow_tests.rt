ghost use Rattle.std.specs.Prelude.{◌≡◌, ◌≢◌, ◌<◌};

use crate::steps::codes;
use crate::tests::pauli;
use crate::{Channel, MOST_NARROW_EXPONENT, Narrow};
use pauli_basis::Pauli;
use std::process::Abort;
use std::test::Fail;

/// Asserts that two channels have one exponent and the same cells.
fn same(rt: &impl Abort, c: &Channel, m: &Narrow)
    requires { c.now.qubits ≡ m.now.qubits }
{
    assert_eq!(rt; m.exponent(), c.exponent());
    let size = codes(c.qubits());
    for row in 0..size {
        for col in 0..size {
            let wide = c.cell(row, col);
            let (a, b) = m.cell(row, col);
            assert_eq!(rt; (a as i64, b as i64), (wide.a, wide.b), "at {row}, {col}");
        }
    }
}

/// Two rotations by π/4 about Z are one by π/2, as a narrow channel.
#[test]
fn two_quarter_phases_are_a_half_in_narrow_rows(rt: HostRuntime) -> Result<(), Fail> {
    let two = Narrow::new(rt.alloc(), 2)?;
    assert_eq!(rt; (two.qubits(), two.exponent()), (2, 0));
    let z = pauli(1, 3)?;
    let mut m = Narrow::new(rt.alloc(), 1)?;
    assert!(rt; m.signed_permutation());
    m.left_rotation(z);
    assert_eq!(rt; m.exponent(), 1);
    // Rows and columns I, X, Y, Z; each cell as a and b.
    let want: [[(i16, i16); 4]; 4] = [
        [(0, 1), (0, 0), (0, 0), (0, 0)],
        [(0, 0), (1, 0), (-1, 0), (0, 0)],
        [(0, 0), (1, 0), (1, 0), (0, 0)],
        [(0, 0), (0, 0), (0, 0), (0, 1)],
    ];
    for row in 0..4usize {
        for col in 0..4usize {
            assert_eq!(rt; m.cell(row, col), want[row][col], "at {row}, {col}");
        }
    }
    assert!(rt; !m.signed_permutation());
    m.left_rotation(z);
    m.reduce();
    assert_eq!(rt; m.exponent(), 0);
    // X goes to Y, and Y to −X.
    assert_eq!(rt; (m.cell(2, 1), m.cell(1, 2)), ((1, 0), (-1, 0)));
    assert!(rt; m.signed_permutation());
    Ok(())
}

/// The next number below `sides`, of a sequence that a state determines.
fn roll(state: &mut u64, sides: u8) -> u8
    requires { 0 < sides }
    ensures { result < sides }
{
    *state = state
        .wrapping_mul(6364136223846793005)
        .wrapping_add(1442695040888963407);
    ((*state >> 33) % sides as u64) as u8
}

/// One rotation, or its inverse, of both channels.
fn rotate_both(c: &mut Channel, m: &mut Narrow, p: Pauli, inverse: bool)
    requires channel { p.qubits ≡ c.old.qubits }
    requires narrow { p.qubits ≡ m.old.qubits }
    requires other { p.code ≢ 0 }
    requires same { c.old.exponent ≡ m.old.exponent }
    requires room { m.old.exponent < 28 }
    ensures channel { c.new.qubits ≡ c.old.qubits }
    ensures narrow { m.new.qubits ≡ m.old.qubits }
{
    if inverse {
        c.left_rotation_inverse(p);
        m.left_rotation_inverse(p);
    } else {
        c.left_rotation(p);
        m.left_rotation(p);
    }
}

/// Makes the same products of rotations in both, and compares them.
fn walk(
    rt: &impl Abort,
    c: &mut Channel,
    m: &mut Narrow,
    state: &mut u64,
) -> Result<(), &'static str>
    requires { c.old.qubits ≡ m.old.qubits }
{
    let n = c.qubits();
    let others = match n {
        1 => 3,
        2 => 15,
        _ => 63,
    };
    for _ in 0..60u8 {
        if c.exponent() != m.exponent() {
            return Err("the exponents differ");
        }
        let code = 1 + roll(state, others);
        if m.exponent() < MOST_NARROW_EXPONENT {
            rotate_both(c, m, pauli(n, code)?, roll(state, 2) == 0);
        } else {
            same(rt, c, m);
            c.make_identity();
            m.make_identity();
        }
        if roll(state, 4) == 0 {
            c.reduce();
            m.reduce();
            same(rt, c, m);
            assert_eq!(rt; m.signed_permutation(), c.signed_permutation());
        }
    }
    Ok(())
}

/// A narrow channel has the cells of the channel that the same rotations make.
#[test]
fn narrow_rows_are_those_of_a_channel(rt: HostRuntime) -> Result<(), Fail> {
    let mut state = 1;
    for n in 1..4u8 {
        let mut c = Channel::identity(rt.alloc(), n)?;
        let mut m = Narrow::new(rt.alloc(), n)?;
        walk(&rt, &mut c, &mut m, &mut state)?;
    }
    Ok(())
}

/// As many rotations as the largest narrow exponent allows keep their cells.
#[test]
fn the_most_rotations_fit_narrow_rows(rt: HostRuntime) -> Result<(), Fail> {
    // 28 of them are Z, and its cells are √2^28 and −√2^28.
    let z = pauli(1, 3)?;
    let mut m = Narrow::new(rt.alloc(), 1)?;
    while m.exponent() < MOST_NARROW_EXPONENT {
        m.left_rotation(z);
    }
    let want = [1 << 14, -(1 << 14), -(1 << 14), 1 << 14];
    for code in 0..4usize {
        assert_eq!(rt; m.cell(code, code), (want[code], 0));
    }
    m.reduce();
    assert_eq!(rt; m.exponent(), 0);
    assert_eq!(rt; (m.cell(1, 1), m.cell(3, 3)), ((-1, 0), (1, 0)));
    Ok(())
}

/// A channel that is made narrow and wide again is the same.
#[test]
fn channels_become_narrow_and_wide_again(rt: HostRuntime) -> Result<(), Fail> {
    let mut c = Channel::identity(rt.alloc(), 2)?;
    c.left_rotation(pauli(2, 6)?);
    c.left_rotation_inverse(pauli(2, 9)?);
    c.left_rotation(pauli(2, 3)?);
    let mut m = Narrow::new(rt.alloc(), 2)?;
    m.take(&c);
    same(&rt, &c, &m);
    let mut copy = Narrow::new(rt.alloc(), 2)?;
    copy.copy_from(&m);
    m.left_rotation(pauli(2, 1)?);
    let mut wide = Channel::identity(rt.alloc(), 2)?;
    wide.copy_from_narrow(&copy);
    same(&rt, &wide, &copy);
    same(&rt, &c, &copy);
    Ok(())
}
