// The terms of an angle.
ghost use Rattle.std.specs.Prelude.{◌≡◌};
ghost use Rattle.qasm_angle.specs.Angles.{is_exact};
ghost use Rattle.qasm_angle.specs.Steps.{place_behind, term_at};

use crate::symbols::Symbol;

/// So many times pi, divided.
#[derive(Clone, Copy)]
pub struct Term {
    /// How many times pi.
    pub times: u32,
    /// The divisor.
    pub over: u32,
}

/// A place in a term, by what stands before it.
#[derive(Clone, Copy)]
pub enum Place {
    /// Nothing.
    Start,
    /// A sign.
    Signed,
    /// A number.
    Factor(u32),
    /// A number and `*`.
    FactorTimes(u32),
    /// `pi`
    JustPi,
    /// `pi *`
    PiTimes,
    /// A number times pi, either way round.
    Multiple(u32),
    /// So many times pi, and `/`.
    Divided(u32),
    /// So many times pi over a number.
    Ratio(u32, u32),
    /// No beginning of a term.
    Nowhere,
}

/// The place behind a symbol.
#[tactic(auto, unfolding(crate::specs::Steps::place_behind))]
pub fn place_behind(place: Place, symbol: Symbol) -> Place
    ensures { result ≡ place_behind place symbol }
{
    match (place, symbol) {
        (Place::Start | Place::Signed, Symbol::Digits(d)) => Place::Factor(d),
        (Place::Start | Place::Signed, Symbol::Pi) => Place::JustPi,
        (Place::Factor(d), Symbol::Times) => Place::FactorTimes(d),
        (Place::FactorTimes(d), Symbol::Pi) => Place::Multiple(d),
        (Place::JustPi, Symbol::Times) => Place::PiTimes,
        (Place::PiTimes, Symbol::Digits(d)) => Place::Multiple(d),
        (Place::JustPi, Symbol::Over) => Place::Divided(1),
        (Place::Multiple(d), Symbol::Over) => Place::Divided(d),
        (Place::Divided(d), Symbol::Digits(b)) => Place::Ratio(d, b),
        _ => Place::Nowhere,
    }
}

/// The term that ends at a place, if one does.
#[tactic(auto, unfolding(crate::specs::Steps::term_at))]
pub fn term_at(place: Place) -> Option<Term>
    ensures { result ≡ term_at place }
{
    match place {
        Place::Factor(0) => Some(Term { times: 0, over: 1 }),
        Place::JustPi => Some(Term { times: 1, over: 1 }),
        Place::Multiple(times) => Some(Term { times, over: 1 }),
        Place::Ratio(times, over) => Some(Term { times, over }),
        _ => None,
    }
}

/// Whether a term is a whole number of eighths of a full turn.
pub fn is_exact(term: Term) -> bool
    ensures { result ≡ is_exact term }
{
    term.over != 0 && (4 * u64::from(term.times)) % u64::from(term.over) == 0
}
