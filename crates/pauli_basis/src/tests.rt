ghost use Rattle.std.specs.Prelude.{◌≡◌, IfOk};

use crate::{Pauli, SignedPauli, laws};
use std::test::Fail;

/// The Pauli of a code, or a word that says that there is none.
fn pauli(n: u8, code: u8) -> Result<Pauli, &'static str>
    ensures { IfOk result (λ p. p.qubits ≡ n) }
{
    Pauli::new(n, code).ok_or("no such Pauli")
}

/// The products of all pairs of letters.
#[test]
fn letters_multiply(rt: HostRuntime) -> Result<(), Fail> {
    // Two letters, the letter of their product, and its quarter turns.
    let products = [
        (0, 0, 0, 0),
        (0, 1, 1, 0),
        (0, 2, 2, 0),
        (0, 3, 3, 0),
        (1, 0, 1, 0),
        (1, 1, 0, 0),
        (1, 2, 3, 1),
        (1, 3, 2, 3),
        (2, 0, 2, 0),
        (2, 1, 3, 3),
        (2, 2, 0, 0),
        (2, 3, 1, 1),
        (3, 0, 3, 0),
        (3, 1, 2, 1),
        (3, 2, 1, 3),
        (3, 3, 0, 0),
    ];
    for (left, right, letter, turns) in products {
        let (product, quarter_turns) = pauli(1, left)?.product(&pauli(1, right)?);
        assert_eq!(rt; product.code(), letter, "at {left}, {right}");
        assert_eq!(rt; quarter_turns, turns, "at {left}, {right}");
    }
    Ok(())
}

/// Operators whose letters clash on two qubits commute.
#[test]
fn clashes_on_two_qubits_cancel(rt: HostRuntime) -> Result<(), Fail> {
    // XX and ZZ, XX and YZ, XI and ZI, IX and ZI, XYZ and ZXY, XYZ and XYZ
    let pairs = [
        (2, 5, 15, true),
        (2, 5, 11, true),
        (2, 4, 12, false),
        (2, 1, 12, true),
        (3, 27, 54, false),
        (3, 27, 27, true),
    ];
    for (n, left, right, commute) in pairs {
        assert_eq!(rt;
            pauli(n, left)?.commutes(&pauli(n, right)?),
            commute,
            "at {left}, {right}"
        );
    }
    Ok(())
}

/// The signs of −i·Z·X and of −i·X·Z, and the laws of products.
#[test]
fn minus_i_times_a_product(rt: HostRuntime) -> Result<(), Fail> {
    // −i·Z·X = Y, and −i·X·Z = −Y
    for (left, right, negative) in [(3, 1, false), (1, 3, true)] {
        let p = pauli(1, left)?;
        let q = pauli(1, right)?;
        assert!(rt; !p.commutes(&q));
        let image = p.anti_image(&q);
        assert_eq!(rt; image, SignedPauli::new(2, negative));
        assert_eq!(rt; (image.code(), image.letter(0)), (2, 2));
        assert_eq!(rt; image.is_negative(), negative);
        laws::anti_image_turns_back(&p, &q);
        laws::products_associate(&p, &q, &p);
        laws::square_is_identity(&p);
    }
    Ok(())
}

/// The letters and the text of a code, and codes that there aren't.
#[test]
fn a_code_has_a_letter_for_each_qubit(rt: HostRuntime) -> Result<(), Fail> {
    let p = pauli(3, 49)?;
    assert_eq!(rt; p.qubits(), 3);
    assert_eq!(rt; p.code(), 49);
    assert_eq!(rt; (p.letter(0), p.letter(1), p.letter(2)), (1, 0, 3));
    assert_eq!(rt; p.to_string(rt.alloc())?.as_str(), "ZIX");
    assert_eq!(rt; p, pauli(3, 49)?);
    assert_eq!(rt; Pauli::of_code(3, 49), p);
    assert_eq!(rt; Pauli::of_code(2, 49).code(), 1);
    for (n, code) in [(0, 0), (1, 4), (2, 16), (3, 64), (4, 0)] {
        assert!(rt; Pauli::new(n, code).is_none(), "at {n}, {code}");
    }
    Ok(())
}
