// The rule of the best word, and the steps that its seats make.

use atomic_table::{Join, Play, Split, TableRule};
use std::collections::LinkedList;

/// What a seat knows of the best word. No value of it is ever made.
pub struct Known {
    /// How many of the eight parts it has.
    pub parts: u64,
    /// A number that the word isn't above.
    pub least: u64,
    /// The positions put by it and by the seats that it took in.
    pub put: LinkedList<u64>,
    /// The words that it has itself loaded, the last one first.
    pub seen: LinkedList<u64>,
}

/// The word is no greater than what any seat knows, and is a position that a seat put, or 2^64 − 1.
pub struct LeastRule;

impl TableRule<(), Known, ()> for LeastRule {
    ghost use Rattle.std.specs.Prelude.{[]};
    ghost use Rattle.steal_sweep.specs.BestRule.{known, none_yet, Leads};

    ghost holds = { λ _ s. Leads s };

    ghost first = { λ _. known 8 none_yet [] [] };
}

/// A load.
pub struct Look;

impl Play<(), Known> for Look {
    ghost use Rattle.steal_sweep.specs.BestRule.{Looked};

    ghost then = { Looked };
}

/// A `fetch_min`.
pub struct PutIn;

impl Play<(), Known> for PutIn {
    ghost use Rattle.steal_sweep.specs.BestRule.{PutThere};

    ghost then = { PutThere };
}

/// One part for a new seat, which has put and seen nothing. A seat that joins brings its parts and what it put; what it has
/// seen is dropped, so that the taker's list stays that of its own loads.
pub struct OnePart;

impl Split<Known> for OnePart {
    ghost use Rattle.std.specs.Prelude.{[], ◌-◌};
    ghost use Rattle.steal_sweep.specs.BestRule.{known};

    ghost left = { λ v. known (v.parts - 1) v.least v.put v.seen };

    ghost right = { λ v. known 1 v.least [] [] };
}

impl Join<Known> for OnePart {
    ghost use Rattle.std.specs.Prelude.{[], ◌+◌, ◌++◌, min};
    ghost use Rattle.steal_sweep.specs.BestRule.{known, none_yet};

    ghost both = { λ v w. known (v.parts + w.parts) (min v.least w.least) (v.put ++ w.put) v.seen };

    ghost spent = { known 0 none_yet [] [] };
}
