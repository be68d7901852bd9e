use crate::fold_cells;
use std::test::Fail;
use tc_ring::Root2;

/// 2^64 − 5.
const MINUS_FIVE: u64 = 0xffff_ffff_ffff_fffb;

/// Columns of a channel, and their folds.
#[test]
fn columns_have_these_folds(rt: HostRuntime) -> Result<(), Fail> {
    let wholes = [1_000_003, 7, MINUS_FIVE, 1 << 63];
    let parts = [1, 1_000_003, 11, 1 << 62];
    assert_eq!(rt; fold_cells(&[], &[], &wholes, &parts), 0);
    let first = [Root2 { a: 3, b: -2 }];
    assert_eq!(rt; fold_cells(&[0], &first, &wholes, &parts), 3_000_007);
    let negative = [Root2 { a: -3, b: 2 }];
    assert_eq!(rt;
        fold_cells(&[0], &negative, &wholes, &parts),
        0xffff_ffff_ffd2_3939
    );
    let three = [
        Root2 { a: 0, b: 1 },
        Root2 { a: 4, b: 0 },
        Root2 { a: -1, b: 3 },
    ];
    assert_eq!(rt;
        fold_cells(&[1, 2, 3], &three, &wholes, &parts),
        0x4000_0000_000f_422f
    );
    Ok(())
}
