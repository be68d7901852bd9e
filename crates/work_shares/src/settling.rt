//! A deal taken apart.
ghost use Rattle.std.specs.Prelude.{◌≡◌, ℕ, ◌<◌, All, Some, map, length, slice_get, flat_map, IfSome, vec_len, IsPermutation};
ghost use Rattle.std.specs.List.{range_with_len};
ghost use Rattle.work_shares.specs.Cuts.{dealt, positions_of, IsPartOf};
ghost use Rattle.work_shares.specs.Blocks.{extents_of};
ghost use Rattle.work_shares.specs.Shares.{AreDeal, AreEnded, HasOwnEnd, own_blocks, place_of, noted_by, load_of, blocks_of, all_blocks, loads_of};
ghost use Rattle.work_shares.specs.Apart.{ArePartsOf};

use crate::block::Block;
use crate::parts::Parts;
use crate::returns::{learn_all, take_back_all};
use crate::share::Share;

/// A settled deal: the blocks and the load of each worker.
#[derive(Drop)]
pub struct Settled<L> {
    pub(crate) notes: Vec<Vec<Block>>,
    pub(crate) loads: Vec<L>,
}

/// The parts of shares, in their order. The room for them comes from the first share.
fn take_apart<L>(mut shares: Vec<Share<L>>) -> Parts<L>
    requires some { 0 < vec_len shares }
    requires first { IfSome (slice_get shares.items 0) (λ share. (place_of share).worker ≡ 0) }
    requires room { IfSome (slice_get shares.items 0) (λ share. (place_of share).workers ≡ vec_len shares) }
    ensures { ArePartsOf shares.items result }
{
    let Share {
        load,
        seat,
        room: mut parts,
    } = shares.remove(0);
    parts.put(load, seat);
    while !shares.is_empty() {
        let Share { load, seat, room } = shares.remove(0);
        room.free();
        parts.put(load, seat);
    }
    shares.destroy_empty();
    parts
}

/// Takes the shares of a deal apart: all of them, in order, at any time. Of the blocks that their workers were given until
/// then each was dealt, and none was given twice; where a share has taken an end mark from its own deque, all blocks of that
/// deque were given; once all shares have ended, the blocks given are the dealt ones, each once, and their positions, share
/// by share, are those below the total, each once.
pub fn settle<L>(shares: Vec<Share<L>>) -> Settled<L>
    requires { (total : ℕ) × ((block : ℕ) × AreDeal total block shares.items) }
    ensures blocks { blocks_of result ≡ map noted_by shares.items }
    ensures loads { loads_of result ≡ map load_of shares.items }
    ensures apart { (total block : ℕ) → AreDeal total block shares.items → IsPartOf (all_blocks result) (dealt total block) }
    ensures own { All (λ share. HasOwnEnd share → IsPartOf (own_blocks share) (all_blocks result)) shares.items }
    ensures once { (total block : ℕ) → AreDeal total block shares.items → AreEnded shares.items
        → IsPermutation (dealt total block) (all_blocks result) }
    ensures positions { (total block : ℕ) → AreDeal total block shares.items → AreEnded shares.items
        → IsPermutation (range_with_len 0 total) (flat_map positions_of (all_blocks result)) }
    ensures shared { (total block : ℕ) → AreDeal total block shares.items → AreEnded shares.items
        → IsPermutation (range_with_len 0 total) (flat_map (λ share. flat_map positions_of (extents_of (noted_by share))) shares.items) }
{
    let Parts {
        mut owners,
        thefts,
        notes,
        loads,
    } = take_apart(shares);
    take_back_all(&mut owners, thefts);
    learn_all(&mut owners);
    Settled { notes, loads }
}

impl<L> Settled<L> {
    /// The blocks that a worker was given, in the order in which it took them.
    pub fn blocks(&self, worker: u32) -> &[Block]
        requires { worker < length (blocks_of self.now) }
        ensures { slice_get (blocks_of self.now) worker ≡ Some result.now }
    {
        self.notes[worker as usize].as_slice()
    }

    /// The load of each worker, at its place.
    pub fn loads(self) -> Vec<L>
        ensures { result.items ≡ loads_of self }
    {
        self.loads
    }
}
