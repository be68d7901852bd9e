// The blanks and comments between tokens.
ghost use Rattle.std.specs.Prelude.{◌≡◌, ℕ, ◌==◌, ◌≤◌, length};
ghost use Rattle.std.specs.List.{position_or_len};
ghost use Rattle.qasm_lex.specs.Tokens.{gap};
ghost use Rattle.qasm_lex.specs.Front.{skip_len};

/// How many bytes stand before the first line feed.
#[tactic(auto, using(crate::proofs::Lens::lens))]
fn line_len(text: &[u8]) -> usize
    ensures value { result ≡ position_or_len (λ b. b == 10) text.now }
    ensures within { result ≤ length text.now }
{
    text.iter().take_while(|b| **b != b'\n').count()
}

/// How many bytes the blank or the comment at the front has.
#[tactic(auto, unfolding(crate::specs::Front::skip_len))]
fn skip_len(text: &[u8]) -> usize
    ensures value { result ≡ skip_len text.now }
    ensures within { result ≤ length text.now }
{
    match text {
        [] => 0,
        [b' ' | b'\t' | b'\n' | b'\r', ..] => 1,
        _ => {
            if text.starts_with(b"//".as_slice()) {
                line_len(text)
            } else {
                0
            }
        }
    }
}

/// How many bytes at the front are skipped.
pub fn gap(text: &[u8]) -> usize
    ensures value { result ≡ gap text.now }
    ensures within { result ≤ length text.now }
{
    let mut at = 0;
    let mut more = skip_len(text);
    while more > 0 {
        at += more;
        more = skip_len(&text[at..]);
    }
    at
}
