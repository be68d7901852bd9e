// What tokens are as an angle.
ghost use Rattle.std.specs.Prelude.{All, map};
ghost use Rattle.qasm_angle.specs.Symbols.{symbol_of};
ghost use Rattle.qasm_lex.specs.Tokens.{IsWithin};
ghost use Rattle.qasm_angle.specs.Angles.{HasValue};

use crate::readings::AngleReading;
use qasm_lex::Token;

/// What tokens are as an angle.
#[derive(Clone, Copy, Debug, PartialEq, Eq)]
pub enum AngleValue {
    /// An exact angle of so many eighths of a full turn, which is 2 pi; 0 to 7.
    Eighths(u8),
    /// An angle of which a term is no whole number of eighths of a full turn.
    Inexact,
    /// No angle.
    NotAngle,
}

/// What tokens of a text are as an angle.
///
/// An angle is an optional sign and a term, and then none or more of a sign and a term. A term is `pi`, or a number and `pi` with
/// `*` between them either way round, each alone or with `/` and a number behind it; or 0. A number has no point and at most
/// nine characters. No memory is taken.
pub fn angle(text: &[u8], tokens: &[Token]) -> AngleValue
    requires { All (IsWithin text.now) tokens.now }
    ensures { HasValue (map (symbol_of text.now) tokens.now) result }
{
    let mut reading = AngleReading::new();
    for token in tokens {
        reading = reading.behind(token.kind, &text[token.start..token.end]);
    }
    reading.value()
}
