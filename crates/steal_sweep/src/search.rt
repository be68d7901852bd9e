// The search for the least hit, as a job.
ghost use Rattle.std.specs.Prelude.{◌≡◌, ℕ, ◌<◌, true, List, [], ◌∷◌, ◌++◌};
ghost use Rattle.steal_sweep.specs.Tests.{fit_for};
ghost use Rattle.steal_sweep.specs.Searches.{StandsFor, Seeks};

use crate::best::{Best, BestSeat};
use crate::job::Job;
use crate::sweep::{Local, Sweep, Test};

/// What a worker carries through a search.
#[derive(Drop)]
pub struct Seeker<L> {
    /// Its seat at the best word.
    pub seat: BestSeat,
    /// What it tests with.
    pub local: L,
}

/// The search for the least hit of a sweep: the job that the workers of `least_hit` do.
///
/// At each position a worker loads the best word, skips the position where that word is no greater, and asks the test
/// everywhere else. A seeker stands for the positions of a list where its local is fit and fits the test, what its seat put
/// are hits, and the seat knows a number that no hit of the list is below.
///
/// A caller who wants the seekers back gives it to `for_each`.
#[derive(Drop)]
pub struct Search<'a, L: Local, F: Test<L>> {
    /// What is asked at the positions below its total.
    pub sweep: &'a Sweep<L, F>,
    /// The best word, at which each worker has a seat.
    pub best: &'a Best,
}

impl<'a, L: Local, F: Test<L>> Job<Seeker<L>> for Search<'a, L, F> {
    ghost use Rattle.steal_sweep.specs.Seats.{IsSeatOf, known_by};

    ghost own = { λ job position. (position < job.sweep.now.total) × F.needs job.sweep.now.test };

    ghost stands = { λ job seeker done.
        StandsFor (fit_for F.fits L.fit job.sweep.now.test) job.best.now (F.truth job.sweep.now.test) job.sweep.now.total seeker done };

    ghost name = { λ job seeker. (known_by seeker.seat).parts ∷ [] };

    /// Loads the best word, and asks the test unless that word is no greater than the position.
    fn turn(&self, seeker: &mut Seeker<L>, position: u64)
        requires own { position < self.now.sweep.now.total }
        requires needs { F.needs self.now.sweep.now.test }
        requires fit { fit_for F.fits L.fit self.now.sweep.now.test seeker.old.local ≡ true }
        requires seat { IsSeatOf self.now.best.now seeker.old.seat }
        ensures stands { let stands = StandsFor (fit_for F.fits L.fit self.now.sweep.now.test) self.now.best.now (F.truth self.now.sweep.now.test) self.now.sweep.now.total in
            (done : List ℕ) → stands seeker.old done → stands seeker.new (done ++ position ∷ []) }
        ensures name { (known_by seeker.new.seat).parts ∷ [] ≡ (known_by seeker.old.seat).parts ∷ [] }
        ensures seeks { Seeks F.gives self.now.sweep.now.test seeker.old position seeker.new }
    {
        if self.best.load(&mut seeker.seat) <= position {
            return;
        }
        if self.sweep.at(&mut seeker.local, position) {
            self.best.put(&mut seeker.seat, position);
        }
    }
}
