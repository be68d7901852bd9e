// What a worker fills a table with.
ghost use Rattle.std.specs.Prelude.{◌≡◌, ◌<◌, ◌≤◌, All, IfOk, map};
ghost use Rattle.level_store.specs.Hands.{IsHand};

use channel_rep::Narrow;
use coset_label::Scratch;
use coset_table::TableSeat;
use quick_label::Suffix;
use std::alloc::{AllocError, Global};

/// What a worker fills with: a seat at the table, the word whose candidates it makes, and all the room that it needs beside:
/// for a candidate's label, where it has to be made, and for the channel of a word which a candidate meets.
#[derive(Drop)]
pub struct Hand {
    pub seat: TableSeat,
    pub label: Scratch,
    pub room: Narrow,
    pub suffix: Suffix,
}

impl Hand {
    /// A hand with a seat.
    fn new(alloc: Global, n: u8, seat: TableSeat) -> Result<Hand, AllocError>
        requires some { 0 < n }
        requires few { n ≤ 3 }
        ensures seat { IfOk result (λ hand. hand.seat ≡ seat) }
        ensures hand { IfOk result (IsHand n) }
    {
        Ok(Hand {
            seat,
            label: Scratch::new(alloc, n)?,
            room: Narrow::new(alloc, n)?,
            suffix: Suffix::new(alloc, n)?,
        })
    }
}

/// A hand for each seat.
pub fn hands_of(alloc: Global, n: u8, seats: Vec<TableSeat>) -> Result<Vec<Hand>, AllocError>
    requires some { 0 < n }
    requires few { n ≤ 3 }
    ensures seats { IfOk result (λ v. map (λ hand. hand.seat) v.items ≡ seats.items) }
    ensures hands { IfOk result (λ v. All (IsHand n) v.items) }
{
    let mut hands = Vec::with_capacity(alloc, seats.len())?;
    for seat in seats {
        hands.push(Hand::new(alloc, n, seat)?)?;
    }
    Ok(hands)
}

/// The seats of hands.
pub fn seats_of(alloc: Global, hands: Vec<Hand>) -> Result<Vec<TableSeat>, AllocError>
    ensures { IfOk result (λ v. v.items ≡ map (λ hand. hand.seat) hands.items) }
{
    hands.into_iter().map(|hand| hand.seat).collect(alloc)
}
