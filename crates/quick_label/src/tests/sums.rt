ghost use Rattle.std.specs.Prelude.{◌≡◌};

use super::words::{columns_of, word};
use crate::sums::weigh_columns;
use crate::weights::{BASE, Weights};
use std::test::Fail;

/// The sums of the columns of a rotation.
#[test]
fn columns_have_these_sums(rt: HostRuntime) -> Result<(), Fail> {
    // The columns of R(Z) are √2 in row 0, 1 and 1 in rows 1 and 2, −1 and 1 there, and √2 in row 3. The weights of the fold are
    // the powers of the base, falling to 1, for whole part and part of √2 of one row after the other.
    let cube = BASE.wrapping_mul(BASE).wrapping_mul(BASE);
    let fifth = cube.wrapping_mul(BASE).wrapping_mul(BASE);
    let sixth = fifth.wrapping_mul(BASE);
    let columns = columns_of(rt.alloc(), word(1, &[3])?)?;
    let fold = Weights::of_fold(rt.alloc(), 1)?;
    let none = Weights::new(rt.alloc(), 1)?;
    let (mut folds, mut highs, mut lows) = ([0; 4], [1; 4], [2; 4]);
    if columns.size() == 4 {
        weigh_columns(
            &columns, &fold, &none, &fold, &mut folds, &mut highs, &mut lows,
        );
        let expected = [sixth, fifth.wrapping_add(cube), cube.wrapping_sub(fifth), 1];
        assert_eq!(rt; folds, expected);
        assert_eq!(rt; highs, [0; 4]);
        assert_eq!(rt; lows, expected);
    }
    Ok(())
}
