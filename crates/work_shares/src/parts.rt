//! The shares of a deal taken apart.
ghost use Rattle.std.specs.Prelude.{ℕ, ◌+◌, IfOk};

use crate::block::Block;
use crate::deque::Owner;
use crate::seat::Seat;
use crate::theft::Theft;
use std::alloc::{AllocError, Global};

/// What the shares of a deal are made of, each in a list of its own.
#[derive(Drop)]
pub struct Parts<L> {
    /// Each share's own deque.
    pub owners: Vec<Owner>,
    /// Its ways into the deques of others.
    pub thefts: Vec<Vec<Theft>>,
    /// The blocks that it was given.
    pub notes: Vec<Vec<Block>>,
    /// Its load.
    pub loads: Vec<L>,
}

impl<L> Parts<L> {
    ghost use Rattle.work_shares.specs.Parts.{HasRoom, IsEmpty, Gains};

    /// No parts, with room for those of so many shares.
    pub fn with_room(alloc: Global, shares: usize) -> Result<Parts<L>, AllocError>
        ensures { IfOk result (λ parts. IsEmpty parts × HasRoom shares parts) }
    {
        Ok(Parts {
            owners: Vec::with_capacity(alloc, shares)?,
            thefts: Vec::with_capacity(alloc, shares)?,
            notes: Vec::with_capacity(alloc, shares)?,
            loads: Vec::with_capacity(alloc, shares)?,
        })
    }

    /// Adds the parts of one share.
    pub fn put(&mut self, load: L, seat: Seat)
        requires { HasRoom 1 self.old }
        ensures gains { Gains load seat self.old self.new }
        ensures room { (n : ℕ) → HasRoom (n + 1) self.old → HasRoom n self.new }
    {
        let Seat {
            cut: _,
            workers: _,
            worker: _,
            own,
            thefts,
            noted,
            over: _,
            ended: _,
        } = seat;
        self.owners.push_reserved(own);
        self.thefts.push_reserved(thefts);
        self.notes.push_reserved(noted);
        self.loads.push_reserved(load);
    }

    /// Gives up room that holds nothing.
    pub fn free(self)
        requires { IsEmpty self }
    {
        let Parts {
            owners: _,
            thefts: _,
            notes: _,
            loads,
        } = self;
        loads.destroy_empty();
    }
}
