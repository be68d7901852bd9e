// A text, statement by statement.
ghost use Rattle.std.specs.Prelude.{◌≡◌, ◌<◌, ◌≤◌, IfOk, IfErr, IfSome, IfNone, All, not, length, map, option_map};
ghost use Rattle.std.specs.List.{prefix_len};
ghost use Rattle.qasm_lex.specs.Tokens.{IsWithin};
ghost use Rattle.qasm_reader.specs.Lexemes.{lexeme_of, is_same_kind};
ghost use Rattle.qasm_reader.specs.Parse.{len_up_to, first_len, headed_at};
ghost use Rattle.qasm_reader.specs.Read.{place_of, Reads, IsFault};
ghost use Rattle.qasm_reader.specs.Run.{Takes, IsRowFault, Scans, IsScanFault};
ghost use Rattle.qasm_reader.specs.View.{lexemes, AreKept, state};

use crate::declare::{new_scan, with_statement};
use crate::fault::{ReadFault, refusal_at};
use crate::lexemes::{Lexeme, closer, is_ident, is_number, lexeme_of, lexemes_of};
use crate::refusal::Refusal;
use crate::rows::first_row;
use crate::scan::Scan;
use crate::statements::statement_behind;
use qasm_lex::{Kind, Token, lex};
use std::alloc::Global;
use tc_circuit::Circuit;

/// The scan behind a statement to which no row applies.
fn take_statement<'a>(
    alloc: Global,
    scan: Scan<'a>,
    ws: &[Lexeme<'a>],
) -> Result<Scan<'a>, ReadFault>
    requires some { 0 < length ws.now }
    requires kept { AreKept scan.definitions }
    ensures ok { IfOk result (Takes (state scan.entry) (lexemes ws.now)) }
    ensures err { IfErr result (IsRowFault (state scan.entry) (lexemes ws.now)) }
{
    let statement = statement_behind(alloc, &scan, ws)?;
    if let Some(why) = first_row(&scan, &statement) {
        return Err(refusal_at(why, ws[0].place));
    }
    let next = with_statement(alloc, scan, statement)?;
    Ok(next)
}

/// How many tokens stand before the first of the kind.
fn len_before(tokens: &[Token], kind: Kind) -> usize
    ensures value { result ≡ prefix_len (λ t. not (is_same_kind kind t.kind)) tokens.now }
    ensures within { result ≤ length tokens.now }
{
    tokens.iter().take_while(|t| t.kind != kind).count()
}

/// How many tokens there are up to the first of the kind, with it, or all of them.
fn len_up_to(tokens: &[Token], kind: Kind) -> usize
    ensures value { result ≡ len_up_to kind tokens.now }
    ensures within { result ≤ length tokens.now }
    ensures some { 0 < length tokens.now → 0 < result }
{
    let n = len_before(tokens, kind);
    if n < tokens.len() { n + 1 } else { n }
}

/// How many tokens the first statement has.
fn first_len(text: &[u8], tokens: &[Token]) -> usize
    requires { All (IsWithin text.now) tokens.now }
    ensures value { result ≡ first_len text.now tokens.now }
    ensures within { result ≤ length tokens.now }
    ensures some { 0 < length tokens.now → 0 < result }
{
    match tokens {
        [] => 0,
        [first, ..] => len_up_to(tokens, closer(&lexeme_of(text, first))),
    }
}

/// The scan behind all statements.
fn scan_all<'a>(alloc: Global, text: &'a [u8], tokens: &[Token]) -> Result<Scan<'a>, ReadFault>
    requires { All (IsWithin text.now) tokens.now }
    ensures ok { IfOk result (Scans (map (lexeme_of text.now) tokens.now)) }
    ensures err { IfErr result (IsScanFault (map (lexeme_of text.now) tokens.now)) }
{
    let mut scan = new_scan(alloc);
    let mut at = 0;
    'statements: while at < tokens.len() {
        let size = first_len(text, &tokens[at..]);
        let statement = lexemes_of(alloc, text, &tokens[at..at + size])?;
        scan = take_statement(alloc, scan, &statement)?;
        at += size;
    }
    Ok(scan)
}

/// The tokens behind the header, if it is there.
#[tactic(auto, unfolding(crate::specs::Parse::headed_at))]
fn behind_header<'b>(text: &[u8], tokens: &'b [Token]) -> Option<&'b [Token]>
    requires { All (IsWithin text.now) tokens.now }
    ensures value { option_map (λ b. map (lexeme_of text.now) b.now) result ≡ headed_at (map (lexeme_of text.now) tokens.now) }
    ensures within { IfSome result (λ b. All (IsWithin text.now) b.now) }
{
    match tokens {
        [name, version, semi, rest @ ..] => {
            if is_ident(&lexeme_of(text, name), b"OPENQASM".as_slice())
                && is_number(&lexeme_of(text, version), b"2.0".as_slice())
                && semi.kind == Kind::Semi
            {
                Some(rest)
            } else {
                None
            }
        }
        _ => None,
    }
}

/// Where the first token begins, or the end of the text.
fn first_place(text: &[u8], tokens: &[Token]) -> usize
    ensures { result ≡ place_of (length text.now) (map (lexeme_of text.now) tokens.now) }
{
    match tokens {
        [first, ..] => first.start,
        [] => text.len(),
    }
}

/// The circuit behind all statements, if there is a qubit.
fn circuit_of(alloc: Global, scan: Scan) -> Option<Circuit>
    ensures none { IfNone result ((state scan.entry).qubits ≡ 0) }
    ensures some { IfSome result (λ c. 0 < c.qubits) }
    ensures same { IfSome result (λ c. (c.qubits ≡ (state scan.entry).qubits) × (c.gates ≡ (state scan.entry).gates)) }
{
    let Scan {
        registers: _,
        names: _,
        definitions: _,
        qubits,
        circuit,
        t_count: _,
        count: _,
    } = scan;
    match circuit {
        Some(circuit) => Some(circuit),
        None if qubits == 0 => None,
        None => Some(Circuit::new(alloc, qubits)),
    }
}

/// The circuit of a text: the gates of all its statements in order, on all the qubits that it declares.
///
/// # Errors
///
/// [`ReadFault::Refused`] with the number of the first reason for which the text is refused and its place, exactly where there is
/// one ([`one_reading`](crate::one_reading)). A bad byte comes before a missing header, this before a statement, an earlier
/// statement before a later one, and at one statement the reasons come in the order 3, 11, 12, 17, 4, 20, 5, 6, 7, 8, 9, 18, 10;
/// last comes 8 for a text without qubits.
pub fn read(alloc: Global, text: &[u8]) -> Result<Circuit, ReadFault>
    ensures ok { IfOk result (Reads text.now) }
    ensures err { IfErr result (IsFault text.now) }
{
    let tokens = lex(alloc, text)?;
    let Some(statements) = behind_header(text, &tokens) else {
        return Err(refusal_at(Refusal::Header, first_place(text, &tokens)));
    };
    let scan = scan_all(alloc, text, statements)?;
    let Some(circuit) = circuit_of(alloc, scan) else {
        return Err(refusal_at(Refusal::Qubits, text.len()));
    };
    Ok(circuit)
}
