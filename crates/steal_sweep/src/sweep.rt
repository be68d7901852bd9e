// A test beside the fact that it answers.
ghost use Rattle.std.specs.Prelude.{◌≡◌, ℕ, ◌<◌, Bool, true, ⊤};
ghost use Rattle.steal_sweep.specs.Tests.{fit_for, MayBeCalled, LeavesFit, AnswersBy};

use std::marker::PhantomData;

/// What a worker tests with.
pub trait Local {
    /// Whether it is fit to test with, whatever the test is.
    ghost fit: { Self → Bool };
}

/// A test of positions, made with what a worker carries.
pub trait Test<L> {
    /// Whether a local fits this very test: what it keeps from one position to the next is of this test's values. A local
    /// that keeps nothing fits every test.
    ghost fits: { Self → L → Bool } = { λ _ _. true };

    /// What has to hold of the test wherever it is asked. It may have more than one proof, so no sweep keeps it: whoever
    /// searches shows it.
    ghost needs: { Self → Type 0 } = { λ _. ⊤ };

    /// Whether it may be called on a local and a position.
    ghost may: { Self → L → ℕ → Bool };

    /// What a call on a local and a position may answer, and which local it may leave.
    ghost gives: { Self → L → ℕ → Bool → L → Type 0 };

    /// The truth value that it has at a position.
    ghost truth: { Self → ℕ → Bool };

    /// Whether the position is a hit.
    fn answer(&self, local: &mut L, position: u64) -> bool
        requires may { may self.now local.old position ≡ true }
        requires needs { needs self.now }
        ensures { gives self.now local.old position result local.new };
}

/// A test of the positions below `total`, beside the fact that it answers: on every fit local that fits the test it may be
/// called at each of them, leaves the local so, and answers its truth value there, whatever the local is.
#[derive(Drop)]
pub struct Sweep<L: Local, F: Test<L>> {
    /// The number of positions, which begin at 0.
    pub total: u64,
    /// The test.
    pub test: F,
    of: PhantomData<L>,
    /// It may be called at each position on every fit local that fits it.
    pub ghost may: { MayBeCalled F.may test (fit_for F.fits L.fit test) total },
    /// A call leaves such a local fit, and fitting the test.
    pub ghost stays: { LeavesFit F.gives test (fit_for F.fits L.fit test) total },
    /// A call on such a local answers the position's truth value.
    pub ghost answers: { AnswersBy F.gives test (fit_for F.fits L.fit test) total (F.truth test) },
}

impl<L: Local, F: Test<L>> Sweep<L, F> {
    /// A sweep over the positions below `total`.
    pub fn new(total: u64, test: F) -> Sweep<L, F>
        requires may { MayBeCalled F.may test (fit_for F.fits L.fit test) total }
        requires stays { LeavesFit F.gives test (fit_for F.fits L.fit test) total }
        requires answers { AnswersBy F.gives test (fit_for F.fits L.fit test) total (F.truth test) }
        ensures total { result.total ≡ total }
        ensures test { result.test ≡ test }
    {
        Sweep {
            total,
            test,
            of: PhantomData,
        }
    }

    /// The truth value at a position.
    pub(crate) fn at(&self, local: &mut L, position: u64) -> bool
        requires fit { fit_for F.fits L.fit self.now.test local.old ≡ true }
        requires needs { F.needs self.now.test }
        requires position { position < self.now.total }
        ensures fit { fit_for F.fits L.fit self.now.test local.new ≡ true }
        ensures truth { result ≡ F.truth self.now.test position }
        ensures gives { F.gives self.now.test local.old position result local.new }
    {
        self.test.answer(local, position)
    }
}
