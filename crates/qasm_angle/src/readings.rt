// An angle, token by token.
ghost use Rattle.std.specs.Prelude.{◌≡◌, List, [], ◌∷◌, ◌++◌, Option};
ghost use Rattle.qasm_angle.specs.declared.symbols.Symbol.{Symbol};
ghost use Rattle.qasm_angle.specs.Symbols.{symbol};
ghost use Rattle.qasm_angle.specs.Angles.{HasValue};
ghost use Rattle.qasm_angle.specs.Steps.{sum_with, sum_at, start, behind_sign, reading_behind, value_at, value_of_sum, HasRead};

use crate::angles::AngleValue;
use crate::symbols::{Symbol, symbol_from};
use crate::terms::{Place, Term, is_exact, place_behind, term_at};
use qasm_lex::Kind;

/// A sum of terms: whether each is exact, and if so, the eighths of a full turn, modulo 8.
#[derive(Clone, Copy)]
pub struct Sum {
    pub exact: bool,
    pub eighths: u8,
}

/// What the tokens of an angle are so far.
#[derive(Clone, Copy)]
pub struct AngleReading {
    place: Place,
    minus: bool,
    sum: Sum,
}

/// The sum with a term.
fn sum_with(sum: Sum, minus: bool, term: Term) -> Sum
    ensures { result ≡ sum_with sum minus term }
{
    if !is_exact(term) {
        return Sum {
            exact: false,
            eighths: sum.eighths,
        };
    }
    let sign: u64 = if minus { 7 } else { 1 };
    let eighths = 4 * u64::from(term.times) / u64::from(term.over);
    Sum {
        exact: sum.exact,
        eighths: ((u64::from(sum.eighths) + sign * eighths) % 8) as u8,
    }
}

/// What a sum is.
fn value_of_sum(sum: Sum) -> AngleValue
    ensures { result ≡ value_of_sum sum }
{
    if sum.exact {
        AngleValue::Eighths(sum.eighths)
    } else {
        AngleValue::Inexact
    }
}

/// The sum up to a place where a sign may stand, if it is one.
fn sum_at(place: Place, sum: Sum, minus: bool) -> Option<Sum>
    ensures { result ≡ sum_at place sum minus }
{
    match place {
        Place::Start => Some(sum),
        _ => match term_at(place) {
            Some(term) => Some(sum_with(sum, minus, term)),
            None => None,
        },
    }
}

/// The reading behind a sign.
fn behind_sign(minus: bool, reading: AngleReading) -> AngleReading
    ensures { result ≡ behind_sign minus reading (sum_at reading.place reading.sum reading.minus) }
{
    match sum_at(reading.place, reading.sum, reading.minus) {
        Some(sum) => AngleReading {
            place: Place::Signed,
            minus,
            sum,
        },
        None => AngleReading {
            place: Place::Nowhere,
            minus: reading.minus,
            sum: reading.sum,
        },
    }
}

/// The reading behind a symbol.
#[tactic(auto, unfolding(crate::specs::Steps::reading_behind))]
fn reading_behind(reading: AngleReading, symbol: Symbol) -> AngleReading
    ensures { result ≡ reading_behind reading symbol }
{
    match symbol {
        Symbol::Plus => behind_sign(false, reading),
        Symbol::Minus => behind_sign(true, reading),
        _ => AngleReading {
            place: place_behind(reading.place, symbol),
            minus: reading.minus,
            sum: reading.sum,
        },
    }
}

/// What the symbols that were read are.
#[tactic(auto, unfolding(crate::specs::Steps::value_at))]
fn value_at(reading: AngleReading) -> AngleValue
    ensures { result ≡ value_at reading }
{
    match term_at(reading.place) {
        Some(term) => value_of_sum(sum_with(reading.sum, reading.minus, term)),
        None => AngleValue::NotAngle,
    }
}

impl AngleReading {
    /// Before any token.
    pub fn new() -> AngleReading
        ensures { HasRead result [] }
    {
        AngleReading {
            place: Place::Start,
            minus: false,
            sum: Sum {
                exact: true,
                eighths: 0,
            },
        }
    }

    /// Behind one token more, of this kind and with these bytes.
    pub fn behind(self, kind: Kind, bytes: &[u8]) -> AngleReading
        ensures { (ss : List Symbol) → HasRead self ss → HasRead result (ss ++ symbol kind bytes.now ∷ []) }
    {
        reading_behind(self, symbol_from(kind, bytes))
    }

    /// What the tokens so far are.
    pub fn value(self) -> AngleValue
        ensures { (ss : List Symbol) → HasRead self ss → HasValue ss result }
    {
        value_at(self)
    }
}
