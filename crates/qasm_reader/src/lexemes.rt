// Tokens with their bytes.
ghost use Rattle.std.specs.Prelude.{◌≡◌, ℕ, ◌≤◌, List, map, length, codes, IfOk, All, IsTrue, not, ◌&&◌};
ghost use Rattle.std.specs.Str.{bytes_eq};
ghost use Rattle.std.specs.List.{position_or_len, prefix_len};
ghost use Rattle.qasm_lex.specs.Tokens.{IsWithin};
ghost use Rattle.qasm_reader.specs.Lexemes.{lexeme_of, is_kind, is_ident, is_free, is_whole, is_name, is_digits, is_reserved, closer};
ghost use Rattle.qasm_reader.specs.View.{lexeme, lexemes};

use qasm_lex::{Kind, Token};
use std::alloc::{AllocError, Global};

#[derive(Clone, Copy)]
pub struct Lexeme<'a> {
    pub kind: Kind,
    pub bytes: &'a [u8],
    pub place: usize,
}

/// The token with its bytes.
pub fn lexeme_of<'a>(text: &'a [u8], token: &Token) -> Lexeme<'a>
    requires { IsWithin text.now token.now }
    ensures { lexeme result ≡ lexeme_of text.now token.now }
{
    Lexeme {
        kind: token.kind,
        bytes: &text[token.start..token.end],
        place: token.start,
    }
}

/// The lexemes of the tokens.
pub fn lexemes_of<'a>(
    alloc: Global,
    text: &'a [u8],
    tokens: &[Token],
) -> Result<Vec<Lexeme<'a>>, AllocError>
    requires { All (IsWithin text.now) tokens.now }
    ensures { IfOk result (λ ws. lexemes ws.items ≡ map (lexeme_of text.now) tokens.now) }
{
    let mut lexemes = Vec::with_capacity(alloc, tokens.len())?;
    for token in tokens {
        lexemes.push(lexeme_of(text, token))?;
    }
    Ok(lexemes)
}

/// Whether it is a token of the kind.
pub fn is_kind(w: &Lexeme, kind: Kind) -> bool
    ensures { result ≡ is_kind kind (lexeme w.now) }
{
    w.kind == kind
}

/// Whether it is the Ident with these bytes.
pub fn is_ident(w: &Lexeme, text: &[u8]) -> bool
    ensures { result ≡ is_ident text.now (lexeme w.now) }
{
    is_kind(w, Kind::Ident) && w.bytes == text
}

/// Whether it is the Number with these bytes.
pub fn is_number(w: &Lexeme, text: &[u8]) -> bool
    ensures { result ≡ (is_kind Kind.Number (lexeme w.now) && bytes_eq (lexeme w.now).bytes text.now) }
{
    is_kind(w, Kind::Number) && w.bytes == text
}

/// Whether it is one of the reserved words, which are no names.
#[tactic(auto, unfolding(crate::specs::Lexemes::is_reserved))]
fn is_reserved(bytes: &[u8]) -> bool
    ensures { result ≡ is_reserved bytes.now }
{
    bytes == b"OPENQASM".as_slice()
        || bytes == b"include".as_slice()
        || bytes == b"qreg".as_slice()
        || bytes == b"creg".as_slice()
        || bytes == b"barrier".as_slice()
        || bytes == b"measure".as_slice()
        || bytes == b"reset".as_slice()
        || bytes == b"if".as_slice()
        || bytes == b"opaque".as_slice()
        || bytes == b"gate".as_slice()
        || bytes == b"U".as_slice()
        || bytes == b"CX".as_slice()
        || bytes == b"pi".as_slice()
}

/// Whether it is a name.
pub fn is_name(w: &Lexeme) -> bool
    ensures { result ≡ is_name (lexeme w.now) }
{
    is_kind(w, Kind::Ident) && !is_reserved(w.bytes)
}

/// Whether no byte is a point.
fn is_whole(bytes: &[u8]) -> bool
    ensures { result ≡ is_whole bytes.now }
{
    bytes.iter().all(|b| b.is_ascii_digit())
}

/// Whether it is a number without a point.
pub fn is_digits(w: &Lexeme) -> bool
    ensures { result ≡ is_digits (lexeme w.now) }
{
    is_kind(w, Kind::Number) && is_whole(w.bytes)
}

/// The kind of the token that ends a statement with this first token.
pub fn closer(first: &Lexeme) -> Kind
    ensures { result ≡ closer (lexeme first.now) }
{
    if is_ident(first, b"gate".as_slice()) {
        Kind::RightBrace
    } else {
        Kind::Semi
    }
}

/// How many lexemes at the front are of other kinds.
fn others(ws: &[Lexeme], kind: Kind) -> usize
    ensures value { result ≡ prefix_len (λ w. not (is_kind kind (lexeme w))) ws.now }
    ensures within { result ≤ length ws.now }
{
    ws.iter().take_while(|w| !is_kind(w, kind)).count()
}

/// How many lexemes stand before the first of the kind.
pub fn before(ws: &[Lexeme], kind: Kind) -> usize
    ensures value { result ≡ position_or_len (is_kind kind) (lexemes ws.now) }
    ensures within { result ≤ length ws.now }
{
    others(ws, kind)
}
