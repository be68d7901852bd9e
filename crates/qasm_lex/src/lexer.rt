// A text, token by token.
ghost use Rattle.std.specs.Prelude.{IfOk, IfErr};
ghost use Rattle.qasm_lex.specs.Tokens.{Tokens, AreSpans, IsFault};

use crate::fault::LexFault;
use crate::front::front;
use crate::gap::gap;
use crate::token::Token;
use std::alloc::Global;

/// The tokens of a text, in order.
///
/// # Errors
///
/// [`LexFault::BadByte`] with the place of the first byte that is neither skipped nor in a token, exactly where there is
/// one ([`one_cut`](crate::one_cut)). A `"` that isn't closed on its line is such a byte.
pub fn lex(alloc: Global, text: &[u8]) -> Result<Vec<Token>, LexFault>
    ensures ok { IfOk result (λ tokens. Tokens text.now tokens.items) }
    ensures spans { IfOk result (λ tokens. AreSpans text.now 0 tokens.items) }
    ensures err { IfErr result (IsFault text.now) }
{
    let mut tokens = Vec::new(alloc);
    let mut at = gap(text);
    while at < text.len() {
        let Some((kind, len)) = front(&text[at..]) else {
            return Err(LexFault::BadByte(at));
        };
        let end = at + len;
        tokens.push(Token {
            kind,
            start: at,
            end,
        })?;
        at = end + gap(&text[end..]);
    }
    Ok(tokens)
}
