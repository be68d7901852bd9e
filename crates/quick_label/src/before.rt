// Weights before letters.
ghost use Rattle.std.specs.Prelude.{◌≡◌, ℕ, ◌^◌, ◌<◌, ◌≤◌, IfOk, length};
ghost use Rattle.channel_rep.specs.Tables.{SurdTable};
ghost use Rattle.label_laws.specs.Sparse.{AreWeights};
ghost use Rattle.quick_label.specs.Folds.{AreFolds};
ghost use Rattle.quick_label.specs.Weights.{before_letter, IsLetterOf};

use crate::spans::codes;
use crate::turns::Turns;
use crate::weights::Weights;
use std::alloc::{AllocError, Global};

/// The weights of the tag's fold, and those before each letter that make sums by them behind it, where the channel behind the
/// letter isn't divided by √2 just once.
#[derive(Drop)]
pub struct Folds {
    pub plain: Weights,
    pub before: Vec<Weights>,
}

/// Makes the weights before a letter that make sums behind it by given weights.
pub fn take_before(
    n: u8,
    weights: &Weights,
    commuting: &[bool],
    negative: &[bool],
    p: usize,
    divisions: u8,
    before: &mut Weights,
)
    requires weights { length weights.now.wholes ≡ 4 ^ n }
    requires letter { p < 4 ^ n }
    requires commuting { length commuting.now ≡ 4 ^ n }
    requires negative { length negative.now ≡ 4 ^ n }
    requires before { length before.old.wholes ≡ 4 ^ n }
    ensures long { length before.new.wholes ≡ 4 ^ n }
    ensures are { (w : SurdTable) → IsLetterOf n p commuting.now negative.now → AreWeights (4 ^ n) w weights.now.wholes weights.now.parts
        → AreWeights (4 ^ n) (before_letter n p divisions w) before.new.wholes before.new.parts }
{
    before.take_before(weights, commuting, negative, p, divisions);
}

impl Folds {
    /// The weights on n qubits, by the turns of all letters.
    pub fn new(alloc: Global, n: u8, turns: &Turns) -> Result<Folds, AllocError>
        requires few { n ≤ 3 }
        requires turns { turns.now.qubits ≡ n }
        ensures { IfOk result (AreFolds n) }
    {
        let plain = Weights::of_fold(alloc, n)?;
        let mut before = Vec::with_capacity(alloc, codes(n))?;
        for p in 0..codes(n) {
            let mut weights = Weights::new(alloc, n)?;
            take_before(
                n,
                &plain,
                turns.commuting(p),
                turns.negative(p),
                p,
                0,
                &mut weights,
            );
            before.push(weights)?;
        }
        Ok(Folds { plain, before })
    }
}
