//! The owners take back what was lent to the thefts, and learn that no block was got twice.
ghost use Rattle.std.specs.Prelude.{◌≡◌, ◌<◌, ◌≤◌, [], All, map, length, sum_by, vec_len};
ghost use Rattle.crossbeam_deque.specs.Handles.{worker_view};
ghost use Rattle.work_shares.specs.Rule.{Learnt, all_parts};
ghost use Rattle.work_shares.specs.Thefts.{got_by};
ghost use Rattle.work_shares.specs.Ways.{ways_of, ways_from};
ghost use Rattle.work_shares.specs.Owners.{deque_of, parts_of, LeadOn, LeadAllOn, IsLive, KeepMarks, TookBack};

use crate::deque::{Owner, learn, take_back};
use crate::theft::Theft;

/// What a worker's thefts took goes back to the owners.
fn take_back_from(owners: &mut Vec<Owner>, worker: usize, mut thefts: Vec<Theft>)
    requires few { vec_len owners.old ≤ 8 }
    requires worker { worker < vec_len owners.old }
    requires ways { LeadOn (map deque_of owners.old.items) worker thefts.items }
    requires live { All IsLive owners.old.items }
    ensures live { All IsLive owners.new.items }
    ensures marks { KeepMarks owners.old.items owners.new.items }
    ensures took { TookBack (λ d. ways_of (length owners.old.items) d worker (length thefts.items)) (λ weight. sum_by (got_by weight) thefts.items) owners.old.items owners.new.items }
{
    let workers = owners.len();
    while let Some(theft) = thefts.pop() {
        let deque = (worker + 1 + thefts.len()) % workers;
        let Theft {
            thief: _,
            pass,
            over: _,
        } = theft;
        take_back(&mut owners[deque], pass);
    }
}

/// What all workers' thefts took goes back to the owners.
pub fn take_back_all(owners: &mut Vec<Owner>, mut thefts: Vec<Vec<Theft>>)
    requires few { (0 < vec_len owners.old) × (vec_len owners.old ≤ 8) }
    requires workers { vec_len thefts ≡ vec_len owners.old }
    requires ways { LeadAllOn (map deque_of owners.old.items) thefts.items }
    requires live { All IsLive owners.old.items }
    ensures live { All IsLive owners.new.items }
    ensures marks { KeepMarks owners.old.items owners.new.items }
    ensures took { TookBack (λ d. ways_from (length owners.old.items) d 0 (map (λ own. length own.items) thefts.items)) (λ weight. sum_by (λ own. sum_by (got_by weight) own.items) thefts.items) owners.old.items owners.new.items }
{
    while let Some(last) = thefts.pop() {
        take_back_from(owners, thefts.len(), last);
    }
}

/// Each owner that has every part learns that no block of its deque was got twice, and none was left where it got an end mark.
pub fn learn_all(owners: &mut Vec<Owner>)
    requires { All (λ owner. parts_of owner ≡ all_parts) owners.old.items }
    ensures views { map (λ owner. worker_view owner) owners.new.items ≡ map (λ owner. worker_view owner) owners.old.items }
    ensures learnt { All (λ owner. Learnt (worker_view owner) []) owners.old.items }
{
    for i in 0..owners.len() {
        learn(&mut owners[i]);
    }
}
