// What holds of the definitions.
ghost use Rattle.std.specs.Prelude.{◌≡◌, ◌⊎◌, ℕ, List};
ghost use Rattle.qasm_lex.specs.declared.token.Token.{Token};
ghost use Rattle.qasm_lex.specs.Tokens.{Tokens, Bad};

/// Every text has tokens or a first bad byte, never both, and no two of either.
///
/// So [`lex`](crate::lex), which gives tokens only where they are the text's and a bad byte only where it is the text's
/// first, gives each of them exactly there.
pub fn one_cut()
    ensures some { (text : List ℕ) → ((ts : List Token) × Tokens text ts) ⊎ ((p : ℕ) × Bad text p) }
    ensures never_both { (text : List ℕ) (ts : List Token) (p : ℕ) → Tokens text ts → Bad text p → ⊥ }
    ensures tokens { (text : List ℕ) (ts us : List Token) → Tokens text ts → Tokens text us → ts ≡ us }
    ensures bad { (text : List ℕ) (p q : ℕ) → Bad text p → Bad text q → p ≡ q }
{}
