// The longest token at the front of a text.
ghost use Rattle.std.specs.Prelude.{◌≡◌, ℕ, ◌≤◌, Option, length, IfSome};
ghost use Rattle.std.specs.List.{prefix_len};
ghost use Rattle.qasm_lex.specs.Bytes.{is_name_start, is_name_byte, is_plain, is_digit};
ghost use Rattle.qasm_lex.specs.Front.{kind_at, fraction_len, number_rest, closed_len, rest_len, front};

use crate::token::Kind;

/// An ASCII letter or `_`.
fn is_name_start(b: u8) -> bool
    ensures { result ≡ is_name_start b }
{
    b.is_ascii_alphabetic() || b == b'_'
}

/// An ASCII letter, a digit or `_`.
fn is_name_byte(b: u8) -> bool
    ensures { result ≡ is_name_byte b }
{
    is_name_start(b) || b.is_ascii_digit()
}

/// The kind of the tokens that begin with the byte.
#[tactic(auto, unfolding(crate::specs::Front::kind_at))]
fn kind_at(b: u8) -> Option<Kind>
    ensures { result ≡ kind_at b }
{
    if is_name_start(b) {
        return Some(Kind::Ident);
    }
    if b.is_ascii_digit() {
        return Some(Kind::Number);
    }
    match b {
        b'"' => Some(Kind::Quoted),
        b';' => Some(Kind::Semi),
        b',' => Some(Kind::Comma),
        b'[' => Some(Kind::LeftBracket),
        b']' => Some(Kind::RightBracket),
        b'{' => Some(Kind::LeftBrace),
        b'}' => Some(Kind::RightBrace),
        b'(' => Some(Kind::LeftParen),
        b')' => Some(Kind::RightParen),
        b'+' | b'-' | b'*' | b'/' | b'^' | b'>' | b'=' | b'.' => Some(Kind::Other),
        _ => None,
    }
}

/// How many bytes of a name are at the front.
#[tactic(auto, using(crate::proofs::Lens::lens))]
fn name_len(text: &[u8]) -> usize
    ensures value { result ≡ prefix_len is_name_byte text.now }
    ensures within { result ≤ length text.now }
{
    text.iter().take_while(|b| is_name_byte(**b)).count()
}

/// How many digits are at the front.
#[tactic(auto, using(crate::proofs::Lens::lens))]
fn digits_len(text: &[u8]) -> usize
    ensures value { result ≡ prefix_len is_digit text.now }
    ensures within { result ≤ length text.now }
{
    text.iter().take_while(|b| b.is_ascii_digit()).count()
}

/// The length of a point with digits behind it, or 0.
#[tactic(auto, unfolding(crate::specs::Front::fraction_len))]
fn fraction_len(text: &[u8]) -> usize
    ensures value { result ≡ fraction_len text.now }
    ensures within { result ≤ length text.now }
{
    match text {
        [b'.', digits @ ..] => {
            let n = digits_len(digits);
            if n > 0 { 1 + n } else { 0 }
        }
        _ => 0,
    }
}

/// How many bytes of a number stand behind its first digit.
fn number_rest(text: &[u8]) -> usize
    ensures value { result ≡ number_rest text.now }
    ensures within { result ≤ length text.now }
{
    let mut n = 0;
    while n < text.len() && text[n].is_ascii_digit() {
        n += 1;
    }
    n + fraction_len(&text[n..])
}

/// How many bytes at the front are neither `"` nor line feed.
#[tactic(auto, using(crate::proofs::Lens::lens))]
fn plain_len(text: &[u8]) -> usize
    ensures value { result ≡ prefix_len is_plain text.now }
    ensures within { result ≤ length text.now }
{
    text.iter()
        .take_while(|b| **b != b'"' && **b != b'\n')
        .count()
}

/// How many bytes a quoted text has behind its first `"`, if it is closed on its line.
#[tactic(auto, unfolding(crate::specs::Front::closed_len))]
fn closed_len(text: &[u8]) -> Option<usize>
    ensures value { result ≡ closed_len text.now }
    ensures within { IfSome result (λ n. n ≤ length text.now) }
{
    let n = plain_len(text);
    if n < text.len() && text[n] == b'"' {
        Some(n + 1)
    } else {
        None
    }
}

/// How many bytes a token of the kind has behind its first.
#[tactic(auto, unfolding(crate::specs::Front::rest_len))]
fn rest_len(kind: Kind, text: &[u8]) -> Option<usize>
    ensures value { result ≡ rest_len kind text.now }
    ensures within { IfSome result (λ n. n ≤ length text.now) }
{
    match kind {
        Kind::Ident => Some(name_len(text)),
        Kind::Number => Some(number_rest(text)),
        Kind::Quoted => closed_len(text),
        _ => Some(0),
    }
}

/// The kind and the length of the longest token at the front.
#[tactic(auto, unfolding(crate::specs::Front::front))]
pub fn front(text: &[u8]) -> Option<(Kind, usize)>
    ensures value { result ≡ front text.now }
    ensures within { IfSome result (λ f. f.1 ≤ length text.now) }
{
    let (first, rest) = text.split_first()?;
    let kind = kind_at(*first)?;
    let n = rest_len(kind, rest)?;
    Some((kind, 1 + n))
}
