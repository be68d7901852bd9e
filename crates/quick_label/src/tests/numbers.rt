use crate::numbers::{lead_of, number_of};
use std::test::Fail;

/// Numbers from their halves.
#[test]
fn halves_make_numbers(rt: HostRuntime) -> Result<(), Fail> {
    assert_eq!(rt; number_of(1, 2, false), 0x1_0000_0000_0000_0002);
    // −1 in both halves.
    assert_eq!(rt;
        number_of(u64::MAX, u64::MAX, false),
        -0x1_0000_0000_0000_0001
    );
    assert_eq!(rt; number_of(0, u64::MAX, false), -1);
    assert_eq!(rt; number_of(1, 0, true), 0x8000_0000_0000_0000);
    assert_eq!(rt;
        number_of(u64::MAX, u64::MAX - 1, true),
        -0x8000_0000_0000_0001
    );
    Ok(())
}

/// Lead rows by numbers of one and more digits.
#[test]
fn numbers_tell_lead_rows(rt: HostRuntime) -> Result<(), Fail> {
    let rows = [9, 6, 5, 3];
    let cases: [(i128, u8); 8] = [
        (1, 9),
        (-127, 9),
        (128, 6),
        (-32767, 6),
        (32768, 5),
        (-0x7f_ffff, 5),
        (0x80_0000, 3),
        (0x8000_0000, 0),
    ];
    for (number, row) in cases {
        assert_eq!(rt; lead_of(&rows, number), row);
    }
    Ok(())
}
