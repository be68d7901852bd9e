//! What a worker takes and notes, apart from its load.
ghost use Rattle.std.specs.Prelude.{◌≡◌, ◌<◌, ◌++◌, ◌∷◌, [], IfSome, IfNone, Contains, is_none, ◌||◌, ◌⊎◌};
ghost use Rattle.work_shares.specs.Cuts.{dealt, blocks_for};
ghost use Rattle.work_shares.specs.Blocks.{extent_of};
ghost use Rattle.work_shares.specs.Thefts.{Steals};

use crate::block::{Block, Cut};
use crate::deque::{Owner, pop};
use crate::entry::Entry;
use crate::theft::Theft;

/// One worker's end of a deal, without its load.
#[derive(Drop)]
pub struct Seat {
    /// What was dealt.
    pub cut: Cut,
    /// How many workers there are.
    pub workers: u32,
    /// Which of them this one is.
    pub worker: u32,
    /// Its own deque.
    pub own: Owner,
    /// Into the deques of the workers after this one, in order.
    pub thefts: Vec<Theft>,
    /// The blocks that it was given, in order.
    pub noted: Vec<Block>,
    /// Whether its own end mark was taken.
    pub over: bool,
    /// Whether a call for a block was answered by none.
    pub ended: bool,
}

/// The number of a block of another's, if one round of tries gets it.
fn steal_round(thefts: &mut Vec<Theft>) -> Option<u32>
    ensures { Steals result thefts.old.items thefts.new.items }
{
    for i in 0..thefts.len() {
        let theft = &mut thefts[i];
        if let Some(number) = theft.try_steal() {
            return Some(number);
        }
    }
    None
}

impl Seat {
    ghost use Rattle.work_shares.specs.Seats.{IsSeated, IsStanding, Takes, TakesOwn, HasOwnMark, place_of_seat, seat_left};

    /// The number of the next block of its own deque, if there is one.
    fn take_own(&mut self) -> Option<u32>
        requires { IsStanding self.old }
        ensures { TakesOwn result self.old self.new }
    {
        if self.over {
            return None;
        }
        self.over = true;
        match pop(&mut self.own) {
            Entry::Work(number) => {
                self.over = false;
                Some(number)
            }
            Entry::End => None,
        }
    }

    /// The number of a block of another's, if two rounds of tries get it.
    fn steal(&mut self) -> Option<u32>
        ensures steals { Steals result self.old.thefts.items self.new.thefts.items }
        ensures rest { self.new ≡ record self.old { thefts = self.new.thefts } }
    {
        match steal_round(&mut self.thefts) {
            Some(number) => Some(number),
            None => steal_round(&mut self.thefts),
        }
    }

    /// The number of a block, if its own deque has one or if two rounds of tries get one.
    fn take(&mut self) -> Option<u32>
        requires { IsStanding self.old }
        ensures { Takes result self.old self.new }
    {
        match self.take_own() {
            Some(number) => Some(number),
            None => self.steal(),
        }
    }

    /// A block that no other seat is given. `None` only once its own end mark was taken.
    pub fn next(&mut self) -> Option<Block>
        requires { IsSeated self.old }
        ensures seated { IsSeated self.new }
        ensures place { place_of_seat self.new ≡ place_of_seat self.old }
        ensures ended { self.new.ended ≡ is_none result || self.old.ended }
        ensures noted { IfSome result (λ block. self.new.noted.items ≡ self.old.noted.items ++ block ∷ []) }
        ensures dealt { IfSome result (λ block. Contains (dealt self.old.cut.total self.old.cut.size) (extent_of block)) }
        ensures fewer { IfSome result (λ _. seat_left self.new < seat_left self.old) }
        ensures none { IfNone result (self.new.noted.items ≡ self.old.noted.items) }
        ensures left { IfNone result (seat_left self.new ≡ seat_left self.old) }
        ensures own_end { IfNone result (HasOwnMark self.new) }
        ensures own_first { IfSome result (λ block. Contains (blocks_for self.old.cut.total self.old.cut.size self.old.workers self.old.worker) (extent_of block) ⊎ HasOwnMark self.new) }
    {
        match self.take() {
            Some(number) => {
                let block = self.cut.block(number);
                self.noted.push_reserved(block);
                Some(block)
            }
            None => {
                self.ended = true;
                None
            }
        }
    }
}
