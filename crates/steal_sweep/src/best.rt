// The word that keeps the least hit.
ghost use Rattle.std.specs.Prelude.{◌≡◌, ◌<◌, ◌≤◌, ◌+◌, ◌-◌, ◌⊎◌, min, [], ◌∷◌, ◌++◌, length, All, Contains, IfOk};
ghost use Rattle.steal_sweep.specs.BestRule.{known, none_yet};

use crate::rule::{Known, LeastRule, Look, OnePart, PutIn};
use atomic_table::{Seat, Table};
use std::alloc::{AllocError, Global};

/// One word that threads share: the least position that any of its seats put, or 2^64 − 1 where none was. It only falls.
#[derive(Drop)]
pub struct Best {
    table: Table<(), Known, (), LeastRule, Global>,
    ghost one: { (table.shared.table_id.words ≡ 1) × (table.shared.table_id.slots ≡ 0) },
}

/// A worker's seat at a best word.
#[derive(Drop)]
pub struct BestSeat {
    seat: Seat<(), Known>,
    ghost bare: { seat.me.1 ≡ [] },
    ghost live: { 0 < seat.me.0.parts },
}

impl BestSeat {
    ghost use Rattle.steal_sweep.specs.Seats.{seat_table, known_by};

    /// The seat at a best word that a seat at its table is.
    fn of(seat: Seat<(), Known>) -> BestSeat
        requires bare { seat.me.1 ≡ [] }
        requires live { 0 < seat.me.0.parts }
        ensures { (seat_table result ≡ seat.table_id) × (known_by result ≡ seat.me.0) }
    {
        BestSeat { seat }
    }
}

impl Best {
    ghost use Rattle.steal_sweep.specs.Seats.{table_id_of, seat_table, known_by, IsSeatOf, AreNewSeatsOf};

    /// A word and its one seat, with all eight parts.
    fn alone(alloc: Global) -> Result<(Best, BestSeat), AllocError>
        ensures seat { IfOk result (λ r. IsSeatOf r.0 r.1) }
        ensures known { IfOk result (λ r. known_by r.1 ≡ known 8 none_yet [] []) }
    {
        let (table, seat) = Table::<(), _, (), LeastRule, Global>::of_words(
            alloc,
            &[u64::MAX],
            &(),
        )?;
        Ok((Best { table }, BestSeat { seat }))
    }

    /// A word at 2^64 − 1 and its seats, at most eight, each for one worker.
    pub fn new(alloc: Global, seats: u32) -> Result<(Best, Vec<BestSeat>), AllocError>
        requires some { 1 ≤ seats }
        requires few { seats ≤ 8 }
        ensures count { IfOk result (λ r. length r.1.items ≡ seats) }
        ensures seats { IfOk result (λ r. AreNewSeatsOf r.0 r.1.items) }
        ensures seen { IfOk result (λ r. All (λ s. (known_by s).seen ≡ []) r.1.items) }
    {
        let mut all = Vec::with_capacity(alloc, seats as usize)?;
        let (best, mut first) = Best::alone(alloc)?;
        for _ in 1..seats {
            all.push(best.split(&mut first))?;
        }
        all.push(first)?;
        Ok((best, all))
    }

    /// The word, as it is loaded now: the seat has seen it then.
    pub(crate) fn load(&self, seat: &mut BestSeat) -> u64
        requires { IsSeatOf self.now seat.old }
        ensures same { seat_table seat.new ≡ seat_table seat.old }
        ensures known { known_by seat.new ≡ known (known_by seat.old).parts result (known_by seat.old).put
            (result ∷ (known_by seat.old).seen) }
        ensures falls { result ≤ (known_by seat.old).least }
    {
        self.table.shared.load::<Look>(&mut seat.seat, 0)
    }

    /// Lowers the word to the position, where that is less.
    pub(crate) fn put(&self, seat: &mut BestSeat, position: u64)
        requires { IsSeatOf self.now seat.old }
        ensures same { seat_table seat.new ≡ seat_table seat.old }
        ensures parts { (known_by seat.new).parts ≡ (known_by seat.old).parts }
        ensures put { (known_by seat.new).put ≡ position ∷ (known_by seat.old).put }
        ensures seen { (known_by seat.new).seen ≡ (known_by seat.old).seen }
        ensures position { (known_by seat.new).least ≤ position }
        ensures falls { (known_by seat.new).least ≤ (known_by seat.old).least }
    {
        self.table
            .shared
            .fetch_min::<PutIn>(&mut seat.seat, 0, position);
    }

    /// A seat with one of the parts.
    fn split(&self, seat: &mut BestSeat) -> BestSeat
        requires seat { IsSeatOf self.now seat.old }
        requires parts { 1 < (known_by seat.old).parts }
        ensures same { seat_table seat.new ≡ seat_table seat.old }
        ensures left { known_by seat.new
            ≡ known ((known_by seat.old).parts - 1) (known_by seat.old).least (known_by seat.old).put
            (known_by seat.old).seen }
        ensures seat { IsSeatOf self.now result }
        ensures right { known_by result ≡ known 1 (known_by seat.old).least [] [] }
    {
        BestSeat::of(self.table.shared.split_seat::<OnePart>(&mut seat.seat))
    }

    /// Takes another seat in: what that one put, but not what it has seen.
    pub(crate) fn join(&self, seat: &mut BestSeat, other: BestSeat)
        requires seat { IsSeatOf self.now seat.old }
        requires other { IsSeatOf self.now other }
        ensures same { seat_table seat.new ≡ seat_table seat.old }
        ensures both { known_by seat.new
            ≡ known ((known_by seat.old).parts + (known_by other).parts)
            (min (known_by seat.old).least (known_by other).least)
            ((known_by seat.old).put ++ (known_by other).put) (known_by seat.old).seen }
    {
        let BestSeat { seat: theirs } = other;
        self.table
            .shared
            .join_seat::<OnePart>(&mut seat.seat, theirs);
    }

    /// The word at the end, by the seat that took all others in.
    pub(crate) fn close(self, seat: BestSeat) -> u64
        requires seat { IsSeatOf self seat }
        requires whole { (known_by seat).parts ≡ 8 }
        ensures least { result ≤ (known_by seat).least }
        ensures put { (result ≡ none_yet) ⊎ Contains (known_by seat).put result }
    {
        let Best { table } = self;
        let BestSeat { seat } = seat;
        let closed = table.close_with(seat);
        let word = closed.word(0);
        closed.free();
        word
    }
}
