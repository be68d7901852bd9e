// The forms of a statement.
ghost use Rattle.std.specs.Prelude.{◌≡◌, ℕ, List, [], ◌∷◌, ◌++◌, map, codes, IfOk, IfSome, MatchOption, Option, option_map};
ghost use Rattle.qasm_angle.specs.Angles.{HasValue};
ghost use Rattle.std.specs.List.{slice_split};
ghost use Rattle.qasm_lex.specs.declared.token.Kind.TheVariants.{Comma as comma};
ghost use Rattle.qasm_reader.specs.Lexemes.{is_kind};
ghost use Rattle.qasm_reader.specs.Forms.{shape, is_rotation, symbols, is_angle, Define, Spin, Turn};
ghost use Rattle.qasm_reader.specs.Parse.{without_last, body_of, indexed_at, argument_at, arguments_at, all_some, names_of, names_at, around_first, in_parens, rotation_of, name_at, spin_in, turn_in, opens, call_at, gate_at, entry_at, entries_at, entries_behind, both, definition_at, include_at, form_behind, form_in, form_of};
ghost use Rattle.qasm_reader.specs.View.{lexeme, lexemes, argument, arguments, name_list, rotation, entry, entries, form};

use crate::lexemes::{Lexeme, before, closer, is_digits, is_ident, is_kind, is_name};
use qasm_angle::{AngleReading, AngleValue};
use qasm_lex::Kind;
use std::alloc::{AllocError, Global};

#[derive(Clone, Copy)]
pub struct Argument<'a> {
    pub name: &'a [u8],
    pub index: Option<&'a [u8]>,
}

/// A gate of an angle: its name, the tokens of the angle, and what the angle is.
#[derive(Drop)]
pub struct Rotation<'a> {
    pub name: &'a [u8],
    pub angle: Vec<Lexeme<'a>>,
    pub value: AngleValue,
}

/// An entry of a gate's body, on names.
#[derive(Drop)]
pub enum Entry<'a> {
    Barrier(Vec<&'a [u8]>),
    Call(&'a [u8], Vec<&'a [u8]>),
    Spin(Rotation<'a>, &'a [u8]),
}

/// A gate's name, its names, and its body.
#[derive(Drop)]
pub struct Definition<'a> {
    pub name: &'a [u8],
    pub names: Vec<&'a [u8]>,
    pub body: Vec<Entry<'a>>,
}

#[derive(Drop)]
pub enum Form<'a> {
    Include(&'a [u8]),
    Qreg(&'a [u8], &'a [u8]),
    Creg(&'a [u8], &'a [u8]),
    Barrier(Vec<Argument<'a>>),
    Apply(&'a [u8], Vec<Argument<'a>>),
    Turn(Rotation<'a>, Argument<'a>),
    Define(Definition<'a>),
}

/// The lexemes without one of the kind at their end, if it is there.
#[tactic(auto, unfolding(crate::specs::Parse::without_last))]
fn without_last<'b, 'a>(ws: &'b [Lexeme<'a>], kind: Kind) -> Option<&'b [Lexeme<'a>]>
    ensures { option_map (λ b. lexemes b.now) result ≡ without_last kind (lexemes ws.now) }
{
    let (last, body) = ws.split_last()?;
    if is_kind(last, kind) {
        Some(body)
    } else {
        None
    }
}

/// The statement without the token that ends it, if it has it.
#[tactic(auto, unfolding(crate::specs::Parse::body_of))]
fn body_of<'b, 'a>(statement: &'b [Lexeme<'a>]) -> Option<&'b [Lexeme<'a>]>
    ensures { option_map (λ b. lexemes b.now) result ≡ body_of (lexemes statement.now) }
{
    match statement {
        [] => None,
        [first, ..] => without_last(statement, closer(first)),
    }
}

/// `name [ digits ]`
#[tactic(auto, unfolding(crate::specs::Parse::indexed_at))]
fn indexed_at<'a>(ws: &[Lexeme<'a>]) -> Option<(&'a [u8], &'a [u8])>
    ensures { option_map (λ x. (x.0.now, x.1.now)) result ≡ indexed_at (lexemes ws.now) }
{
    match ws {
        [name, left, size, right] => {
            if is_name(name)
                && is_kind(left, Kind::LeftBracket)
                && is_digits(size)
                && is_kind(right, Kind::RightBracket)
            {
                Some((name.bytes, size.bytes))
            } else {
                None
            }
        }
        _ => None,
    }
}

/// An argument.
#[tactic(auto, unfolding(crate::specs::Parse::argument_at))]
fn argument_at<'a>(ws: &[Lexeme<'a>]) -> Option<Argument<'a>>
    ensures { option_map argument result ≡ argument_at (lexemes ws.now) }
{
    match ws {
        [] => None,
        [name] => {
            if is_name(name) {
                Some(Argument {
                    name: name.bytes,
                    index: None,
                })
            } else {
                None
            }
        }
        _ => {
            let (name, index) = indexed_at(ws)?;
            Some(Argument {
                name,
                index: Some(index),
            })
        }
    }
}

/// Arguments between commas.
fn arguments_at<'a>(
    alloc: Global,
    ws: &[Lexeme<'a>],
) -> Result<Option<Vec<Argument<'a>>>, AllocError>
    ensures { IfOk result (λ o. option_map (λ v. arguments v.items) o ≡ arguments_at (lexemes ws.now)) }
{
    let mut found = Vec::new(alloc);
    let mut at = 0;
    'parts: while at <= ws.len() {
        let (part, more) = ws[at..].split_at(before(&ws[at..], Kind::Comma));
        let Some(argument) = argument_at(part) else {
            return Ok(None);
        };
        found.push(argument)?;
        if more.is_empty() {
            return Ok(Some(found));
        }
        at += part.len() + 1;
    }
    Ok(Some(found))
}

/// The names of arguments, if none has an index.
fn names_of<'a>(alloc: Global, args: &[Argument<'a>]) -> Result<Option<Vec<&'a [u8]>>, AllocError>
    ensures { IfOk result (λ o. option_map (λ v. name_list v.items) o ≡ names_of (arguments args.now)) }
{
    let mut names = Vec::new(alloc);
    for argument in args {
        if argument.index.is_some() {
            return Ok(None);
        }
        names.push(argument.name)?;
    }
    Ok(Some(names))
}

/// Names between commas.
#[tactic(auto, unfolding(crate::specs::Parse::names_at))]
fn names_at<'a>(alloc: Global, ws: &[Lexeme<'a>]) -> Result<Option<Vec<&'a [u8]>>, AllocError>
    ensures { IfOk result (λ o. option_map (λ v. name_list v.items) o ≡ names_at (lexemes ws.now)) }
{
    match arguments_at(alloc, ws)? {
        Some(list) => names_of(alloc, &list),
        None => Ok(None),
    }
}

/// The front, and what is behind the first token of the rest.
fn around_first<'b, 'a>(
    front: &'b [Lexeme<'a>],
    rest: &'b [Lexeme<'a>],
) -> Option<(&'b [Lexeme<'a>], &'b [Lexeme<'a>])>
    ensures { option_map (λ x. (lexemes x.0.now, lexemes x.1.now)) result ≡ around_first (lexemes front.now) (lexemes rest.now) }
{
    match rest {
        [] => None,
        [_, behind @ ..] => Some((front, behind)),
    }
}

/// What is in parentheses, and what is behind them.
#[tactic(auto, unfolding(crate::specs::Parse::in_parens))]
fn in_parens<'b, 'a>(ws: &'b [Lexeme<'a>]) -> Option<(&'b [Lexeme<'a>], &'b [Lexeme<'a>])>
    ensures { option_map (λ x. (lexemes x.0.now, lexemes x.1.now)) result ≡ in_parens (lexemes ws.now) }
{
    let (first, rest) = ws.split_first()?;
    if !is_kind(first, Kind::LeftParen) {
        return None;
    }
    let (front, behind) = rest.split_at(before(rest, Kind::RightParen));
    around_first(front, behind)
}

/// Whether it is the name of a gate of an angle.
pub fn is_rotation(name: &[u8]) -> bool
    ensures { result ≡ is_rotation name.now }
{
    name == b"u1".as_slice() || name == b"rz".as_slice()
}

/// What tokens are as an angle.
fn value_of(ws: &[Lexeme]) -> AngleValue
    ensures { HasValue (symbols (map shape (lexemes ws.now))) result }
{
    let mut reading = AngleReading::new();
    for w in ws {
        reading = reading.behind(w.kind, w.bytes);
    }
    reading.value()
}

/// Whether tokens of this value are an angle.
fn is_angle(value: AngleValue) -> bool
    ensures { result ≡ is_angle value }
{
    match value {
        AngleValue::NotAngle => false,
        _ => true,
    }
}

/// The same tokens, to be kept.
fn copy_of<'a>(alloc: Global, ws: &[Lexeme<'a>]) -> Result<Vec<Lexeme<'a>>, AllocError>
    ensures { IfOk result (λ v. v.items ≡ ws.now) }
{
    let mut copy = Vec::with_capacity(alloc, ws.len())?;
    for w in ws {
        copy.push(*w)?;
    }
    Ok(copy)
}

/// The gate of an angle that a name and the tokens of its angle are, if they are one.
#[tactic(auto, unfolding(crate::specs::Parse::rotation_of))]
fn rotation_of<'a>(
    alloc: Global,
    name: &'a [u8],
    ws: &[Lexeme<'a>],
) -> Result<Option<Rotation<'a>>, AllocError>
    ensures { IfOk result (λ o. option_map rotation o ≡ rotation_of name.now (lexemes ws.now)) }
{
    if !is_rotation(name) {
        return Ok(None);
    }
    let value = value_of(ws);
    if !is_angle(value) {
        return Ok(None);
    }
    let angle = copy_of(alloc, ws)?;
    Ok(Some(Rotation { name, angle, value }))
}

/// A name alone.
#[tactic(auto, unfolding(crate::specs::Parse::name_at))]
fn name_at<'a>(ws: &[Lexeme<'a>]) -> Option<&'a [u8]>
    ensures { option_map (λ b. b.now) result ≡ name_at (lexemes ws.now) }
{
    match ws {
        [name] => {
            if is_name(name) {
                Some(name.bytes)
            } else {
                None
            }
        }
        _ => None,
    }
}

/// Whether a parenthesis stands first.
#[tactic(auto, unfolding(crate::specs::Parse::opens))]
fn opens(ws: &[Lexeme]) -> bool
    ensures { result ≡ opens (lexemes ws.now) }
{
    match ws {
        [] => false,
        [first, ..] => is_kind(first, Kind::LeftParen),
    }
}

/// The entry of a gate of an angle on a name, if both are there.
fn spin<'a>(found: Option<Rotation<'a>>, name: Option<&'a [u8]>) -> Option<Entry<'a>>
    ensures { option_map entry result ≡ both Spin (option_map rotation found.entry) (option_map (λ b. b.now) name.entry) }
{
    match (found, name) {
        (Some(found), Some(name)) => Some(Entry::Spin(found, name)),
        _ => None,
    }
}

/// The form of a gate of an angle on an argument, if both are there.
fn turn<'a>(found: Option<Rotation<'a>>, target: Option<Argument<'a>>) -> Option<Form<'a>>
    ensures { option_map form result ≡ both Turn (option_map rotation found.entry) (option_map argument target.entry) }
{
    match (found, target) {
        (Some(found), Some(target)) => Some(Form::Turn(found, target)),
        _ => None,
    }
}

/// The entry of a gate of an angle behind its name.
fn spin_at<'a>(
    alloc: Global,
    name: &'a [u8],
    ws: &[Lexeme<'a>],
) -> Result<Option<Entry<'a>>, AllocError>
    ensures { IfOk result (λ o. option_map entry o ≡ spin_in name.now (in_parens (lexemes ws.now))) }
{
    let Some((angle, rest)) = in_parens(ws) else {
        return Ok(None);
    };
    let found = rotation_of(alloc, name, angle)?;
    Ok(spin(found, name_at(rest)))
}

/// The form of a gate of an angle behind its name.
fn turn_at<'a>(
    alloc: Global,
    name: &'a [u8],
    ws: &[Lexeme<'a>],
) -> Result<Option<Form<'a>>, AllocError>
    ensures { IfOk result (λ o. option_map form o ≡ turn_in name.now (in_parens (lexemes ws.now))) }
{
    let Some((angle, rest)) = in_parens(ws) else {
        return Ok(None);
    };
    let found = rotation_of(alloc, name, angle)?;
    Ok(turn(found, argument_at(rest)))
}

/// An entry behind a name.
#[tactic(auto, unfolding(crate::specs::Parse::call_at))]
fn call_at<'a>(
    alloc: Global,
    name: &'a [u8],
    ws: &[Lexeme<'a>],
) -> Result<Option<Entry<'a>>, AllocError>
    ensures { IfOk result (λ o. option_map entry o ≡ call_at name.now (lexemes ws.now)) }
{
    if opens(ws) {
        return spin_at(alloc, name, ws);
    }
    Ok(names_at(alloc, ws)?.map(|list| Entry::Call(name, list)))
}

/// A form behind a name.
#[tactic(auto, unfolding(crate::specs::Parse::gate_at))]
fn gate_at<'a>(
    alloc: Global,
    name: &'a [u8],
    ws: &[Lexeme<'a>],
) -> Result<Option<Form<'a>>, AllocError>
    ensures { IfOk result (λ o. option_map form o ≡ gate_at name.now (lexemes ws.now)) }
{
    if opens(ws) {
        return turn_at(alloc, name, ws);
    }
    Ok(arguments_at(alloc, ws)?.map(|list| Form::Apply(name, list)))
}

/// An entry of a body, without its Semi.
#[tactic(auto, unfolding(crate::specs::Parse::entry_at))]
fn entry_at<'a>(alloc: Global, ws: &[Lexeme<'a>]) -> Result<Option<Entry<'a>>, AllocError>
    ensures { IfOk result (λ o. option_map entry o ≡ entry_at (lexemes ws.now)) }
{
    let Some((first, rest)) = ws.split_first() else {
        return Ok(None);
    };
    if is_ident(first, b"barrier".as_slice()) {
        return Ok(names_at(alloc, rest)?.map(|list| Entry::Barrier(list)));
    }
    if is_name(first) {
        return call_at(alloc, first.bytes, rest);
    }
    Ok(None)
}

/// The entries of a body.
fn entries_at<'a>(alloc: Global, ws: &[Lexeme<'a>]) -> Result<Option<Vec<Entry<'a>>>, AllocError>
    ensures { IfOk result (λ o. option_map (λ v. entries v.items) o ≡ entries_at (lexemes ws.now)) }
{
    let mut found = Vec::new(alloc);
    let mut at = 0;
    'parts: while at < ws.len() {
        let (part, more) = ws[at..].split_at(before(&ws[at..], Kind::Semi));
        if more.is_empty() {
            return Ok(None);
        }
        let Some(entry) = entry_at(alloc, part)? else {
            return Ok(None);
        };
        found.push(entry)?;
        at += part.len() + 1;
    }
    Ok(Some(found))
}

/// The entries behind a brace, if it is there.
fn entries_behind<'a>(
    alloc: Global,
    ws: &[Lexeme<'a>],
) -> Result<Option<Vec<Entry<'a>>>, AllocError>
    ensures { IfOk result (λ o. option_map (λ v. entries v.items) o ≡ entries_behind (lexemes ws.now)) }
{
    match ws {
        [] => Ok(None),
        [_, rest @ ..] => entries_at(alloc, rest),
    }
}

/// The form of a definition, if its names and its body are there.
fn defining<'a>(
    name: &'a [u8],
    names: Option<Vec<&'a [u8]>>,
    body: Option<Vec<Entry<'a>>>,
) -> Option<Form<'a>>
    ensures { option_map form result ≡ both (Define name.now) (option_map (λ v. name_list v.items) names.entry) (option_map (λ v. entries v.items) body.entry) }
{
    match (names, body) {
        (Some(names), Some(body)) => Some(Form::Define(Definition { name, names, body })),
        _ => None,
    }
}

/// The definition behind its word.
#[tactic(auto, unfolding(crate::specs::Parse::definition_at))]
fn definition_at<'a>(alloc: Global, ws: &[Lexeme<'a>]) -> Result<Option<Form<'a>>, AllocError>
    ensures { IfOk result (λ o. option_map form o ≡ definition_at (lexemes ws.now)) }
{
    let Some((first, rest)) = ws.split_first() else {
        return Ok(None);
    };
    if !is_name(first) {
        return Ok(None);
    }
    let (names, behind) = rest.split_at(before(rest, Kind::LeftBrace));
    let names = names_at(alloc, names)?;
    let body = entries_behind(alloc, behind)?;
    Ok(defining(first.bytes, names, body))
}

/// The form of an include behind its word.
#[tactic(auto, unfolding(crate::specs::Parse::include_at))]
fn include_at<'a>(ws: &[Lexeme<'a>]) -> Option<Form<'a>>
    ensures { option_map form result ≡ include_at (lexemes ws.now) }
{
    match ws {
        [text] => {
            if is_kind(text, Kind::Quoted) {
                Some(Form::Include(text.bytes))
            } else {
                None
            }
        }
        _ => None,
    }
}

/// The form of a statement without the token that ends it.
#[tactic(auto, unfolding(crate::specs::Parse::form_behind))]
fn form_behind<'a>(
    alloc: Global,
    first: &Lexeme<'a>,
    ws: &[Lexeme<'a>],
) -> Result<Option<Form<'a>>, AllocError>
    ensures { IfOk result (λ o. option_map form o ≡ form_behind (lexeme first.now) (lexemes ws.now)) }
{
    if is_ident(first, b"include".as_slice()) {
        return Ok(include_at(ws));
    }
    if is_ident(first, b"qreg".as_slice()) {
        return Ok(indexed_at(ws).map(|(name, size)| Form::Qreg(name, size)));
    }
    if is_ident(first, b"creg".as_slice()) {
        return Ok(indexed_at(ws).map(|(name, size)| Form::Creg(name, size)));
    }
    if is_ident(first, b"gate".as_slice()) {
        return definition_at(alloc, ws);
    }
    if is_ident(first, b"barrier".as_slice()) {
        return Ok(arguments_at(alloc, ws)?.map(|list| Form::Barrier(list)));
    }
    if is_name(first) {
        return gate_at(alloc, first.bytes, ws);
    }
    Ok(None)
}

/// The form of a statement, if it has one.
#[tactic(auto, unfolding(crate::specs::Parse::form_of, crate::specs::Parse::form_in))]
pub fn form_of<'a>(alloc: Global, statement: &[Lexeme<'a>]) -> Result<Option<Form<'a>>, AllocError>
    ensures { IfOk result (λ o. option_map form o ≡ form_of (lexemes statement.now)) }
{
    let Some(body) = body_of(statement) else {
        return Ok(None);
    };
    match body.split_first() {
        Some((first, rest)) => form_behind(alloc, first, rest),
        None => Ok(None),
    }
}
