//! The lines that are answers.
ghost use Rattle.std.specs.Prelude.{◌≡◌, IfOk};
ghost use Rattle.tcount_top.specs.Lines.{refusal_line, limit_line, above_line, many_h_line};

use std::alloc::{AllocError, Global};

/// What is written where the words are no command.
pub const USAGE: &[u8] = b"usage: synth M W | check | levels N K W | bench N T SEED M W\n";

/// What is written where a text is too long.
pub const TOO_LONG: &[u8] = b"refused 14\n";

/// What is written where a text isn't two programs.
pub const NO_HALVES: &[u8] = b"refused 16\n";

/// What is written where two programs are the same.
pub const SAME: &[u8] = b"same\n";

/// What is written where they aren't.
pub const DIFFERENT: &[u8] = b"different\n";

/// The line of a text that is refused.
pub fn refusal(alloc: Global, number: u8, place: usize) -> Result<Vec<u8>, AllocError>
    ensures { IfOk result (λ line. line.items ≡ refusal_line number place) }
{
    let line = format!(in alloc; "refused {number} at {place}\n")?;
    Ok(line.into_bytes())
}

/// The line of a bound above the limit.
pub fn past_limit(alloc: Global, bound: u64, limit: u8) -> Result<Vec<u8>, AllocError>
    ensures { IfOk result (λ line. line.items ≡ limit_line bound limit) }
{
    let line = format!(in alloc; "refused 13 bound {bound} limit {limit}\n")?;
    Ok(line.into_bytes())
}

/// The line of a circuit that has too many h gates to be compared.
pub fn many_h(alloc: Global, count: u32) -> Result<Vec<u8>, AllocError>
    ensures { IfOk result (λ line. line.items ≡ many_h_line count) }
{
    let line = format!(in alloc; "refused 15 count {count}\n")?;
    Ok(line.into_bytes())
}

/// The line of a least T-count above the bound.
pub fn above(alloc: Global, bound: u8) -> Result<Vec<u8>, AllocError>
    ensures { IfOk result (λ line. line.items ≡ above_line bound) }
{
    let line = format!(in alloc; "above {bound}\n")?;
    Ok(line.into_bytes())
}
