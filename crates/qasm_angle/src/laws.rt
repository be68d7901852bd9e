// What holds of the definitions.
ghost use Rattle.std.specs.Prelude.{◌≡◌, ◌<◌, ℕ, List};
ghost use Rattle.qasm_angle.specs.declared.symbols.Symbol.{Symbol};
ghost use Rattle.qasm_angle.specs.declared.angles.AngleValue.{AngleValue};
ghost use Rattle.qasm_angle.specs.declared.angles.AngleValue.TheVariants.{Eighths};
ghost use Rattle.qasm_angle.specs.Angles.{HasValue};

/// Every list of symbols is an exact angle, an angle that isn't exact, or no angle, and one alone of these, with one number of
/// eighths, which is below 8.
///
/// So [`angle`](crate::angle), which answers each only where it holds, answers each exactly there.
pub fn one_value()
    ensures some { (ss : List Symbol) → (v : AngleValue) × HasValue ss v }
    ensures same { (ss : List Symbol) (v w : AngleValue) → HasValue ss v → HasValue ss w → v ≡ w }
    ensures below { (ss : List Symbol) (j : ℕ) → HasValue ss (Eighths j) → j < 8 }
{}
