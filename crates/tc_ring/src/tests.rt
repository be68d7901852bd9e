use crate::{Omega, Root2};

/// Sums, products and halves in Z[√2], worked by hand.
#[test]
fn root2_counts_by_hand(rt: HostRuntime) {
    // (3 + 5√2) and (2 − √2)
    let x = Root2 { a: 3, b: 5 };
    let y = Root2 { a: 2, b: -1 };
    assert_eq!(rt; x.add(y), Root2 { a: 5, b: 4 });
    assert_eq!(rt; x.sub(y), Root2 { a: 1, b: 6 });
    assert_eq!(rt; y.neg(), Root2 { a: -2, b: 1 });
    assert_eq!(rt; x.times_root2(), Root2 { a: 10, b: 3 });
    assert_eq!(rt; Root2 { a: 10, b: 3 }.half_root2(), Some(x));
    assert_eq!(rt;
        Root2 { a: -6, b: 1 }.half_root2(),
        Some(Root2 { a: 1, b: -3 })
    );
    assert!(rt; x.half_root2().is_none());
    assert!(rt; Root2 { a: -1, b: 9 } < Root2 { a: 0, b: -9 });
}

/// Sums, turns and products in Z[ω], worked by hand.
#[test]
fn omega_counts_by_hand(rt: HostRuntime) {
    let x = Omega { x: [1, 2, 3, 4] };
    let y = Omega { x: [0, 1, 0, -1] };
    assert_eq!(rt; x.add(y), Omega { x: [1, 3, 3, 3] });
    assert_eq!(rt; x.sub(y), Omega { x: [1, 1, 3, 5] });
    assert_eq!(rt;
        x.neg(),
        Omega {
            x: [-1, -2, -3, -4]
        }
    );
    assert_eq!(rt; x.times_omega(1), Omega { x: [-4, 1, 2, 3] });
    assert_eq!(rt; x.times_root2(), Omega { x: [-2, 4, 6, 2] });
}
