ghost use Rattle.std.specs.Prelude.{◌≡◌};

use super::words::{columns_of, word};
use std::test::Fail;

/// Columns of words on one qubit, without their zeros.
#[test]
fn columns_have_these_numbers(rt: HostRuntime) -> Result<(), Fail> {
    // A word on one qubit, a column of its channel, and the rows of its numbers and the numbers, first of the whole parts and then
    // of the parts of √2: R(Z) takes X to (X + Y)/√2 and Y to (Y − X)/√2, and R(Z)·R(Z) takes X to Y and Y to −X.
    let rows: [(&[u8], usize, &[u8], &[i16], usize); 8] = [
        (&[3], 0, &[0], &[1], 0),
        (&[3], 1, &[2, 1], &[1, 1], 2),
        (&[3], 2, &[2, 1], &[1, -1], 2),
        (&[3], 3, &[3], &[1], 0),
        (&[3, 3], 0, &[0], &[1], 1),
        (&[3, 3], 1, &[2], &[1], 1),
        (&[3, 3], 2, &[1], &[-1], 1),
        (&[3, 3], 3, &[3], &[1], 1),
    ];
    for (codes, column, places, numbers, wholes) in rows {
        let columns = columns_of(rt.alloc(), word(1, codes)?)?;
        if columns.size() == 4 && column < 4 {
            let (start, middle, end) = columns.runs(column);
            assert_eq!(rt;
                middle.saturating_sub(start),
                wholes,
                "of {codes:?}, column {column}"
            );
            assert_eq!(rt;
                columns.rows().get(start..end),
                Some(places),
                "of {codes:?}, column {column}"
            );
            assert_eq!(rt;
                columns.values().get(start..end),
                Some(numbers),
                "of {codes:?}, column {column}"
            );
        }
    }
    Ok(())
}
