//! One deque under the rule.
ghost use Rattle.std.specs.Prelude.{◌≡◌, ◌<◌, ◌≤◌, ◌+◌, ◌-◌, [], ◌∷◌, ◌++◌, IfOk, IfSome, IfNone};
ghost use Rattle.crossbeam_deque.specs.Handles.{view as pass_view, IsPassOf, worker_deque, stealer_deque, stealer_flavor, worker_view, worker_flavor, worker_capacity, worker_index, SameWorker};
ghost use Rattle.work_shares.specs.Entries.{view, ends};
ghost use Rattle.work_shares.specs.Rule.{Took, Learnt, all_parts};

use crate::entry::{Entry, View};
use crossbeam_deque::protocol::{Join, Lesson, Outcome, Protocol, Split};
use crossbeam_deque::{Pass, Steal, Stealer, Worker};
use std::alloc::{AllocError, Global};

/// The rule of one deque: what was taken from it and what it holds is what was pushed, and each entry that was taken is known
/// to one pass alone.
pub struct DealRule;

impl Protocol<Entry, View> for DealRule {
    ghost use Rattle.std.specs.Prelude.{[]};
    ghost use Rattle.work_shares.specs.Entries.{view};
    ghost use Rattle.work_shares.specs.Rule.{IsRuled, all_parts};

    ghost holds = { IsRuled };

    ghost first = { view all_parts [] [] };

    ghost guest = { view 0 [] [] };
}

struct PushedIn;

impl Outcome<Entry, View> for PushedIn {
    ghost use Rattle.work_shares.specs.Rule.{Pushed};

    ghost then = { Pushed };
}

struct Stolen;

impl Outcome<Entry, View> for Stolen {
    ghost use Rattle.work_shares.specs.Rule.{Took};

    ghost then = { Took };
}

// The owner never finds its deque empty.
struct Popped;

impl Outcome<Entry, View> for Popped {
    ghost use Rattle.work_shares.specs.Rule.{Took};

    ghost then = { Took };

    ghost empty = { λ v. ⊥ };
}

struct OnePart;

impl Split<View> for OnePart {
    ghost use Rattle.std.specs.Prelude.{[], ◌-◌};
    ghost use Rattle.work_shares.specs.Entries.{view};

    ghost left = { λ v. view (v.parts - 1) v.pushed v.got };

    ghost right = { λ v. view 1 v.pushed [] };
}

impl Join<View> for OnePart {
    ghost use Rattle.std.specs.Prelude.{[], ◌+◌, ◌++◌};
    ghost use Rattle.work_shares.specs.Entries.{view};

    ghost both = { λ v w. view (v.parts + w.parts) v.pushed (v.got ++ w.got) };

    ghost spent = { view 0 [] [] };
}

struct Whole;

impl Lesson<Entry, View> for Whole {
    ghost use Rattle.work_shares.specs.Rule.{Learnt};

    ghost fact = { Learnt };
}

/// The end of a deque that its owner pushes to and takes from.
pub type Owner = Worker<Entry, Global, View, DealRule>;

/// The end of a deque that others take from.
pub type Thief = Stealer<Entry, Global, View, DealRule>;

/// An empty deque with room for `capacity` entries.
pub fn empty(alloc: Global, capacity: usize) -> Result<Owner, AllocError>
    ensures view { IfOk result (λ owner. worker_view owner ≡ view all_parts [] []) }
    ensures front { IfOk result (λ owner. worker_flavor owner ≡ 0) }
    ensures room { IfOk result (λ owner. (capacity ≤ worker_capacity owner) × (worker_index owner ≡ 0)) }
{
    Owner::fifo_as(alloc, capacity)
}

/// Puts an entry behind the others, where there is room, and while there is no other pass.
pub fn push(owner: &mut Owner, entry: Entry)
    requires room { worker_index owner.old < worker_capacity owner.old }
    requires alone { (worker_view owner.old).parts ≡ all_parts }
    ensures view { worker_view owner.new ≡ view all_parts ((worker_view owner.old).pushed ++ entry ∷ []) (worker_view owner.old).got }
    ensures same { SameWorker owner.old owner.new × (worker_index owner.new ≡ worker_index owner.old + 1) }
{
    match owner.push_as::<PushedIn>(entry) {
        Ok(()) => {}
        Err(_) => unreachable!(),
    }
}

/// The first entry of one's own deque, where more end marks were pushed than all others may have taken.
pub fn pop(owner: &mut Owner) -> Entry
    requires front { worker_flavor owner.old ≡ 0 }
    requires marks { ends (worker_view owner.old).got < (worker_view owner.old).parts }
    requires left { ends (worker_view owner.old).got + all_parts < ends (worker_view owner.old).pushed + (worker_view owner.old).parts }
    ensures view { Took (worker_view owner.old) (result ∷ []) (worker_view owner.new) }
    ensures same { SameWorker owner.old owner.new }
{
    match owner.pop_as::<Popped>() {
        Some(entry) => entry,
        None => unreachable!(),
    }
}

/// The first entry of another's deque, if one try gets it.
pub fn steal(thief: &Thief, pass: &mut Pass<Entry, View>) -> Option<Entry>
    requires pass { IsPassOf (stealer_deque thief.now) pass.old }
    requires marks { ends (pass_view pass.old).got < (pass_view pass.old).parts }
    ensures pass { IsPassOf (stealer_deque thief.now) pass.new }
    ensures some { IfSome result (λ entry. Took (pass_view pass.old) (entry ∷ []) (pass_view pass.new)) }
    ensures none { IfNone result (pass_view pass.new ≡ pass_view pass.old) }
{
    match thief.steal_as::<Stolen>(pass) {
        Steal::Success(entry) => Some(entry),
        Steal::Empty | Steal::Retry => None,
    }
}

/// A pass for another worker, with one part of the owner's.
pub fn lend(owner: &mut Owner) -> Pass<Entry, View>
    requires parts { 1 < (worker_view owner.old).parts }
    requires fresh { (worker_view owner.old).got ≡ [] }
    ensures owner { worker_view owner.new ≡ view ((worker_view owner.old).parts - 1) (worker_view owner.old).pushed [] }
    ensures pass { IsPassOf (worker_deque owner.old) result × (pass_view result ≡ view 1 (worker_view owner.old).pushed []) }
    ensures same { SameWorker owner.old owner.new }
{
    owner.another::<OnePart>()
}

/// Takes a pass back, with its parts and what it got.
pub fn take_back(owner: &mut Owner, pass: Pass<Entry, View>)
    requires { IsPassOf (worker_deque owner.old) pass × (0 < (worker_view owner.old).parts) }
    ensures view { worker_view owner.new ≡ view ((worker_view owner.old).parts + (pass_view pass).parts) (worker_view owner.old).pushed ((worker_view owner.old).got ++ (pass_view pass).got) }
    ensures same { SameWorker owner.old owner.new }
{
    owner.absorb::<OnePart>(pass);
}

/// Once every part is back, each entry was got at most as often as it was pushed; and where an end mark was got, each block
/// was got once.
pub fn learn(owner: &mut Owner)
    requires { (worker_view owner.old).parts ≡ all_parts }
    ensures view { worker_view owner.new ≡ worker_view owner.old }
    ensures learnt { Learnt (worker_view owner.old) [] }
    ensures same { SameWorker owner.old owner.new }
{
    owner.len_as::<Whole>();
}
