//! A worker's way into another's deque.
ghost use Rattle.std.specs.Prelude.{◌≡◌, false};
ghost use Rattle.crossbeam_deque.specs.Handles.{view as pass_view, IsPassOf, stealer_deque};
ghost use Rattle.work_shares.specs.Entries.{ends};
ghost use Rattle.work_shares.specs.Rule.{GotApart};

use crate::deque::{Thief, steal};
use crate::entry::{Entry, View};
use crossbeam_deque::Pass;

/// A way into another's deque, with one part of the right to take there.
#[derive(Drop)]
pub struct Theft {
    /// The other's deque.
    pub thief: Thief,
    /// The right to take there.
    pub pass: Pass<Entry, View>,
    /// Whether its end mark was stolen.
    pub over: bool,
    ghost of: { IsPassOf (stealer_deque thief) pass },
    ghost one: { (pass_view pass).parts ≡ 1 },
    ghost apart: { GotApart (pass_view pass) },
    ghost marks: { over ≡ false → ends (pass_view pass).got ≡ 0 },
}

impl Theft {
    ghost use Rattle.work_shares.specs.Gives.{Gives};
    ghost use Rattle.work_shares.specs.Thefts.{view_into, deque_into};

    /// The number of a block, if one try gets it.
    pub fn try_steal(&mut self) -> Option<u32>
        ensures gives { Gives result (view_into self.old) (view_into self.new) }
        ensures deque { deque_into self.new ≡ deque_into self.old }
    {
        if self.over {
            return None;
        }
        // the mark stands while the pass changes
        self.over = true;
        match steal(&self.thief, &mut self.pass) {
            Some(Entry::Work(number)) => {
                self.over = false;
                Some(number)
            }
            Some(Entry::End) => None,
            None => {
                self.over = false;
                None
            }
        }
    }
}
