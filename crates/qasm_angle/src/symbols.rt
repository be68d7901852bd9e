// What a token is in an angle.
ghost use Rattle.std.specs.Prelude.{◌≡◌, ◌≤◌, IsTrue, length};
ghost use Rattle.std.specs.List.{list_all};
ghost use Rattle.qasm_lex.specs.Bytes.{is_digit};
ghost use Rattle.qasm_angle.specs.Symbols.{most_digits, number, word, figure, mark, symbol};

use qasm_lex::Kind;

/// What a token is in an angle.
#[derive(Clone, Copy)]
pub enum Symbol {
    /// `+`
    Plus,
    /// `-`
    Minus,
    /// `*`
    Times,
    /// `/`
    Over,
    /// `pi`
    Pi,
    /// A number without a point, of at most nine characters.
    Digits(u32),
    /// Any other token.
    Foreign,
}

// The most characters of digits.
const MOST_DIGITS: usize = 9;

/// What a word is.
fn word(bytes: &[u8]) -> Symbol
    ensures { result ≡ word bytes.now }
{
    if bytes == b"pi".as_slice() {
        Symbol::Pi
    } else {
        Symbol::Foreign
    }
}

/// The number that digits write.
fn number(digits: &[u8]) -> u32
    requires digits { IsTrue (list_all is_digit digits.now) }
    requires few { length digits.now ≤ most_digits }
    ensures { result ≡ number digits.now }
{
    let mut n = 0;
    for digit in digits {
        n = n * 10 + u32::from(*digit - b'0');
    }
    n
}

/// Whether all bytes are digits.
fn are_digits(bytes: &[u8]) -> bool
    ensures { result ≡ list_all is_digit bytes.now }
{
    bytes.iter().all(|b| b.is_ascii_digit())
}

/// What a number is.
fn figure(bytes: &[u8]) -> Symbol
    ensures { result ≡ figure bytes.now }
{
    if are_digits(bytes) && bytes.len() <= MOST_DIGITS {
        Symbol::Digits(number(bytes))
    } else {
        Symbol::Foreign
    }
}

/// What another mark is.
fn mark(bytes: &[u8]) -> Symbol
    ensures { result ≡ mark bytes.now }
{
    if bytes == b"+".as_slice() {
        return Symbol::Plus;
    }
    if bytes == b"-".as_slice() {
        return Symbol::Minus;
    }
    if bytes == b"*".as_slice() {
        return Symbol::Times;
    }
    if bytes == b"/".as_slice() {
        return Symbol::Over;
    }
    Symbol::Foreign
}

/// What a token of this kind with these bytes is.
#[tactic(auto, unfolding(crate::specs::Symbols::symbol))]
pub fn symbol_from(kind: Kind, bytes: &[u8]) -> Symbol
    ensures { result ≡ symbol kind bytes.now }
{
    match kind {
        Kind::Ident => word(bytes),
        Kind::Number => figure(bytes),
        Kind::Other => mark(bytes),
        _ => Symbol::Foreign,
    }
}
