// A text of two programs, one after the other.
ghost use Rattle.std.specs.Prelude.{◌≤◌, ◌≡◌, IfOk, IfErr, IfSome, All, length};
ghost use Rattle.qasm_reader.specs.Lexemes.{Lexeme};
ghost use Rattle.qasm_reader.specs.Read.{HasLexemes};
ghost use Rattle.qasm_reader.specs.Halves.{openings, AreHalves, IsBadByte};
ghost use Rattle.qasm_reader.specs.View.{lexemes};

use crate::fault::ReadFault;
use crate::lexemes::{Lexeme, is_ident, lexemes_of};
use qasm_lex::lex;
use std::alloc::Global;

/// Keeps the Ident tokens `OPENQASM`.
fn keep_openings(list: &mut Vec<Lexeme>)
    ensures { lexemes list.new.items ≡ openings (lexemes list.old.items) }
{
    list.retain(|w| is_ident(w, b"OPENQASM".as_slice()));
}

/// The place where the second half of a text begins, which is that of its second Ident token `OPENQASM`; `None` where it has
/// another number of them than two.
///
/// # Errors
///
/// [`ReadFault::Refused`] with number 2 and the place of the first bad byte, exactly where there is one
/// ([`one_halving`](crate::one_halving)).
pub fn halves(alloc: Global, text: &[u8]) -> Result<Option<usize>, ReadFault>
    ensures ok { IfOk result (AreHalves text.now) }
    ensures within { IfOk result (λ found. IfSome found (λ place. place ≤ length text.now)) }
    ensures err { IfErr result (IsBadByte text.now) }
{
    let tokens = lex(alloc, text)?;
    let mut list = lexemes_of(alloc, text, &tokens)?;
    keep_openings(&mut list);
    match list.as_slice() {
        [_, second] => Ok(Some(second.place)),
        _ => Ok(None),
    }
}
