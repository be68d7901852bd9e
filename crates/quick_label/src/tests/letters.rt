ghost use Rattle.std.specs.Prelude.{◌≡◌, ◌<◌, length};
ghost use Rattle.quick_label.specs.Rooms.{MarksSubspace};

use crate::blocks::Blocks;
use crate::spans::{empty_span, widen};
use crate::turns::Turns;
use crate::weights::Weights;
use std::alloc::{AllocError, Global};
use std::test::Fail;

/// The weights of the tag's fold before X on one qubit: those of the whole parts, and those of the parts of √2.
const WHOLES_BEFORE_X: [u64; 4] = [
    0x9798_1ed7_103e_4359,
    0xc257_8e76_5af1_5351,
    0x0de0_bee3_22dc_cf1e,
    0xf21f_411c_dd41_b568,
];

const PARTS_BEFORE_X: [u64; 4] = [
    0x66ba_f03e_7fbf_2496,
    0x9128_411f_ccc5_6066,
    0x0000_00e8_d500_9d8a,
    0xffff_ff17_2aff_6278,
];

/// The span of two letters on two qubits.
fn span_of_two(p: usize, q: usize) -> [bool; 16]
    requires p { p < 16 }
    requires q { q < 16 }
    ensures { MarksSubspace 16 result }
{
    let mut none = [false; 16];
    let mut first = [false; 16];
    let mut both = [false; 16];
    empty_span(&mut none);
    widen(&none, p, &mut first);
    widen(&first, q, &mut both);
    both
}

/// The weights before X on one qubit, where the table behind it is divided so often.
fn weights_before_x(
    alloc: Global,
    turns: &Turns,
    weights: &Weights,
    divisions: u8,
) -> Result<Weights, AllocError>
    requires one { turns.now.qubits ≡ 1 }
    requires rows { length weights.now.wholes ≡ 4 }
{
    let mut before = Weights::new(alloc, 1)?;
    before.take_before(weights, turns.commuting(1), turns.negative(1), 1, divisions);
    Ok(before)
}

/// Two letters on one qubit, and what they do to each row.
#[test]
fn letters_turn_rows(rt: HostRuntime) -> Result<(), Fail> {
    let turns = Turns::new(rt.alloc(), 1)?;
    // X commutes with I and X. −i·X·Y is Z, and −i·X·Z is −Y.
    assert_eq!(rt; turns.commuting(1), [true, true, false, false].as_slice());
    assert_eq!(rt; turns.negative(1), [false, false, false, true].as_slice());
    // −i·Y·X is −Z, and −i·Y·Z is X.
    assert_eq!(rt; turns.commuting(2), [true, false, true, false].as_slice());
    assert_eq!(rt; turns.negative(2), [false, true, false, false].as_slice());
    Ok(())
}

/// The blocks of a span on two qubits.
#[test]
fn blocks_have_these_rows(rt: HostRuntime) -> Result<(), Fail> {
    let mut blocks = Blocks::new(rt.alloc(), 2)?;
    let span = span_of_two(5, 6);
    assert!(rt; blocks.take(&span));
    assert_eq!(rt; blocks.rows_of(0), [6, 5, 3, 0].as_slice());
    assert_eq!(rt; blocks.rows_of(3), [6, 5, 3, 0].as_slice());
    assert_eq!(rt; blocks.rows_of(9), [15, 12, 10, 9].as_slice());
    assert_eq!(rt;
        (blocks.behind(6), blocks.behind(0), blocks.behind(10)),
        (0, 3, 2)
    );
    Ok(())
}

/// The weights of the fold and of the digits.
#[test]
fn rows_have_these_weights(rt: HostRuntime) -> Result<(), Fail> {
    // The powers of 1000003 from the seventh on, modulo 2^64.
    let fold = Weights::of_fold(rt.alloc(), 1)?;
    let wholes = [
        0xb35d_781f_3fdf_924b,
        0xc894_208f_e662_b033,
        0x0de0_bee3_22cd_8cdb,
        1_000_003,
    ];
    let parts = [
        0x9798_1ed7_103e_4359,
        0xc257_8e76_5af1_5351,
        1_000_006_000_009,
        1,
    ];
    assert_eq!(rt; fold.wholes(), wholes.as_slice());
    assert_eq!(rt; fold.parts(), parts.as_slice());
    let mut blocks = Blocks::new(rt.alloc(), 2)?;
    let span = span_of_two(5, 6);
    assert!(rt; blocks.take(&span));
    let mut digits = Weights::new(rt.alloc(), 2)?;
    digits.take_high(&blocks);
    assert_eq!(rt; digits.parts(), [0; 16].as_slice());
    digits.take_low(&blocks);
    let places = [1 << 24, 1 << 24, 1 << 16, 1 << 16, 1 << 8, 1 << 8, 1, 1];
    let eleven = [
        11 << 24,
        11 << 24,
        11 << 16,
        11 << 16,
        11 << 8,
        11 << 8,
        11,
        11,
    ];
    assert_eq!(rt; digits.parts().get(0..8), Some(places.as_slice()));
    assert_eq!(rt; digits.wholes().get(0..8), Some(eleven.as_slice()));
    Ok(())
}

/// The weights of the fold before a letter.
#[test]
fn letters_change_weights(rt: HostRuntime) -> Result<(), Fail> {
    let turns = Turns::new(rt.alloc(), 1)?;
    let fold = Weights::of_fold(rt.alloc(), 1)?;
    // The last two rows anticommute with X: there the weights of both are added up, or the other's is taken away.
    let before = weights_before_x(rt.alloc(), &turns, &fold, 0)?;
    assert_eq!(rt; before.wholes(), WHOLES_BEFORE_X.as_slice());
    assert_eq!(rt; before.parts(), PARTS_BEFORE_X.as_slice());
    let once = weights_before_x(rt.alloc(), &turns, &fold, 1)?;
    assert_eq!(rt; once.wholes(), PARTS_BEFORE_X.as_slice());
    Ok(())
}
