// A job, and the positions that it is done at.
ghost use Rattle.std.specs.Prelude.{◌≡◌, ℕ, ◌<◌, ◌≤◌, ◌+◌, ◌^◌, [], ◌∷◌, ◌++◌, List};
ghost use Rattle.std.specs.List.{range_with_len};

/// What is done at each position of a deal.
pub trait Job<L> {
    /// The positions that the job may be done at.
    ghost own: { Self → ℕ → Type 0 };

    /// A local stands for a list of positions, in the order in which they were done on it.
    ghost stands: { Self → L → List ℕ → Type 0 };

    /// A name of a local, which a turn leaves as it was.
    ghost name: { Self → L → List ℕ };

    /// Does the position: where the local stood for a list, it stands for that list and the position behind it.
    fn turn(&self, local: &mut L, position: u64)
        requires own { own self.now position }
        requires stands { (done : List ℕ) × stands self.now local.old done }
        ensures stands { (done : List ℕ) → stands self.now local.old done
            → stands self.now local.new (done ++ position ∷ []) }
        ensures name { name self.now local.new ≡ name self.now local.old };
}

/// Does `count` positions from `first` on.
pub fn do_positions<L, J: Job<L>>(job: &J, local: &mut L, first: u64, count: u32)
    requires room { first + count < 2 ^ 64 }
    requires own { (p : ℕ) → first ≤ p → p < first + count → J.own job.now p }
    requires stands { (done : List ℕ) × J.stands job.now local.old done }
    ensures stands { (done : List ℕ) → J.stands job.now local.old done
        → J.stands job.now local.new (done ++ range_with_len first count) }
    ensures name { J.name job.now local.new ≡ J.name job.now local.old }
{
    for position in first..first + u64::from(count) {
        job.turn(local, position);
    }
}
