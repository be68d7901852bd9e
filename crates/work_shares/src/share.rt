//! One worker's end of a deal.
ghost use Rattle.std.specs.Prelude.{◌≡◌, ◌<◌, ◌++◌, ◌∷◌, [], ◌||◌, ◌⊎◌, IfSome, IfNone, Contains, is_none};
ghost use Rattle.work_shares.specs.Cuts.{dealt, IsPartOf};
ghost use Rattle.work_shares.specs.Blocks.{extent_of, extents_of};
ghost use Rattle.work_shares.specs.Seats.{IsSeated};
ghost use Rattle.work_shares.specs.Parts.{IsEmpty, HasRoom};

use crate::block::Block;
use crate::parts::Parts;
use crate::seat::Seat;

/// One worker's end of a deal, with what the worker carries.
#[derive(Drop)]
pub struct Share<L> {
    /// What the worker carries through the work.
    pub load: L,
    pub(crate) seat: Seat,
    // the room to take the deal apart, at the first share
    pub(crate) room: Parts<L>,
    ghost seated: { IsSeated seat },
    ghost empty: { IsEmpty room },
    ghost roomy: { seat.worker ≡ 0 → HasRoom seat.workers room },
}

impl<L> Share<L> {
    ghost use Rattle.work_shares.specs.Shares.{place_of, noted_by, is_ended, share_left, HasOwnEnd, own_blocks};

    /// A block that no other `next` of this deal gives: one of its own, as long as its own deque has any. `None` only once this
    /// share's own deque has no more blocks; others may still lie in other deques.
    ///
    /// It never waits: at most two rounds of tries to steal.
    pub fn next(&mut self) -> Option<Block>
        ensures place { place_of self.new ≡ place_of self.old }
        ensures load { self.new.load ≡ self.old.load }
        ensures ended { is_ended self.new ≡ is_none result || is_ended self.old }
        ensures noted { IfSome result (λ block. noted_by self.new ≡ noted_by self.old ++ block ∷ []) }
        ensures apart { IsPartOf (extents_of (noted_by self.new)) (dealt (place_of self.old).total (place_of self.old).size) }
        ensures dealt { IfSome result (λ block. Contains (dealt (place_of self.old).total (place_of self.old).size) (extent_of block)) }
        ensures fewer { IfSome result (λ _. share_left self.new < share_left self.old) }
        ensures none { IfNone result (noted_by self.new ≡ noted_by self.old) }
        ensures left { IfNone result (share_left self.new ≡ share_left self.old) }
        ensures own_end { IfNone result (HasOwnEnd self.new) }
        ensures own_first { IfSome result (λ block. Contains (own_blocks self.old) (extent_of block) ⊎ HasOwnEnd self.new) }
    {
        self.seat.next()
    }

    /// Whether a `next` of this share answered `None`.
    pub fn ended(&self) -> bool
        ensures { result ≡ is_ended self.now }
    {
        self.seat.ended
    }
}
