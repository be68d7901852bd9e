// What holds of the definitions.
ghost use Rattle.std.specs.Prelude.{◌⊎◌};
ghost use Rattle.tc_circuit.specs.Circuit.{Gates};
ghost use Rattle.count_checker.specs.Check.{AreSame};

/// Two circuits are the same, or they aren't.
///
/// So [`same`](crate::same), which says of any two without too many h gates which of it holds, leaves none out. The call does
/// nothing.
pub fn sameness_is_decided()
    ensures { (a b : Gates) → AreSame a b ⊎ (AreSame a b → ⊥) }
{}
