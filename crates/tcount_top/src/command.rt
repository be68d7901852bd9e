//! The words of the command line, and the command that they are.
ghost use Rattle.std.specs.Prelude.{◌≡◌, ◌↔◌, ℕ, ◌<◌, ◌≤◌, IsTrue, [], ◌∷◌, IfSome, IfNone, get_or};
ghost use Rattle.coset_label.specs.Words.{most_letters};
ghost use Rattle.tcount_top.specs.Words.{texts_of, IsNumber, Spell, IsCommand};

/// What the words of the command line ask of a text.
#[derive(Clone, Copy, Debug, PartialEq, Eq)]
pub enum TextCommand {
    /// A circuit with the least T-count of the text's circuit, where it is at most the bound.
    Synth {
        /// The most T gates.
        bound: u64,
        /// The number of workers, 1 to 8.
        workers: u32,
    },
    /// Whether the two programs of the text are the same.
    Check,
}

/// What the words of the command line ask for.
#[derive(Clone, Copy, Debug, PartialEq, Eq)]
pub enum Command {
    /// An answer to the text that the source gives.
    OverText(TextCommand),
    /// The sizes of levels.
    Levels {
        /// The number of qubits, 1 to 3.
        qubits: u8,
        /// The number of the last level.
        top: u8,
        /// The number of workers, 1 to 8.
        workers: u32,
    },
    /// The least T-count of a circuit that a seed makes, where it is at most the bound.
    Bench {
        /// The number of qubits, 1 to 3.
        qubits: u8,
        /// The number of letters of the made circuit's word, at most 44.
        letters: u8,
        /// The seed, below 2^31.
        seed: u32,
        /// The most T gates: at most 18, 12 or 8 on one, two or three qubits.
        bound: u8,
        /// The number of workers, 1 to 8.
        workers: u32,
    },
}

/// The most digits of a number.
const MOST_DIGITS: usize = 10;

/// The most letters of a made circuit's word.
const MOST_LETTERS: u32 = 44;

/// The last seed of a made circuit.
const LAST_SEED: u32 = 2_147_483_647;

/// Whether a word begins with a digit from 1 to 9.
fn begins_plainly(word: &[u8]) -> bool
    ensures { IsTrue result ↔ (48 < get_or word.now 0 0 × get_or word.now 0 0 < 58) }
{
    match word {
        [first, ..] => b'0' < *first && *first <= b'9',
        [] => false,
    }
}

/// The number that a word is: at most ten decimal digits, with no sign and no leading zero.
fn number(word: &str) -> Option<u64>
    ensures some { IfSome result (λ n. IsNumber word.now n) }
    ensures none { IfNone result ((n : ℕ) → IsNumber word.now n → ⊥) }
{
    if word == "0" {
        return Some(0);
    }
    if !begins_plainly(word.as_bytes()) || word.len() > MOST_DIGITS {
        return None;
    }
    word.parse().ok()
}

/// The number that a word is, where it is in a range.
fn number_within(word: &str, low: u32, high: u32) -> Option<u32>
    ensures some { IfSome result (λ n. IsNumber word.now n × low ≤ n × n ≤ high) }
    ensures none { IfNone result ((n : ℕ) → IsNumber word.now n → low ≤ n → n ≤ high → ⊥) }
{
    let number = number(word)?;
    if number < low as u64 || number > high as u64 {
        return None;
    }
    Some(number as u32)
}

/// The command `synth`, where three words are it.
fn synth(name: &str, bound: &str, workers: &str) -> Option<Command>
    ensures some { IfSome result (λ command. Spell (name.now ∷ bound.now ∷ workers.now ∷ []) command) }
    ensures none { IfNone result (IsCommand (name.now ∷ bound.now ∷ workers.now ∷ []) → ⊥) }
{
    if name != "synth" {
        return None;
    }
    let bound = number(bound)?;
    let workers = number_within(workers, 1, 8)?;
    Some(Command::OverText(TextCommand::Synth { bound, workers }))
}

/// The command `check`, where one word is it.
fn check(name: &str) -> Option<Command>
    ensures some { IfSome result (λ command. Spell (name.now ∷ []) command) }
    ensures none { IfNone result (IsCommand (name.now ∷ []) → ⊥) }
{
    if name != "check" {
        return None;
    }
    Some(Command::OverText(TextCommand::Check))
}

/// The number of the last level on so many qubits, at most: words have so many letters.
pub fn most_letters(qubits: u8) -> u8
    requires some { 1 ≤ qubits }
    requires few { qubits ≤ 3 }
    ensures { result ≡ most_letters qubits }
{
    match qubits {
        1 => 9,
        2 => 6,
        _ => 4,
    }
}

/// The command `levels`, where four words are it.
fn levels(name: &str, qubits: &str, top: &str, workers: &str) -> Option<Command>
    ensures some { IfSome result (λ command.
        Spell (name.now ∷ qubits.now ∷ top.now ∷ workers.now ∷ []) command) }
    ensures none { IfNone result (IsCommand (name.now ∷ qubits.now ∷ top.now ∷ workers.now ∷ []) → ⊥) }
{
    if name != "levels" {
        return None;
    }
    let qubits = number_within(qubits, 1, 3)? as u8;
    let top = number_within(top, 0, most_letters(qubits) as u32)? as u8;
    let workers = number_within(workers, 1, 8)?;
    Some(Command::Levels {
        qubits,
        top,
        workers,
    })
}

/// The command `bench`, where six words are it.
fn bench(
    name: &str,
    qubits: &str,
    letters: &str,
    seed: &str,
    bound: &str,
    workers: &str,
) -> Option<Command>
    ensures some { IfSome result (λ command.
        Spell (name.now ∷ qubits.now ∷ letters.now ∷ seed.now ∷ bound.now ∷ workers.now ∷ []) command) }
    ensures none { IfNone result
        (IsCommand (name.now ∷ qubits.now ∷ letters.now ∷ seed.now ∷ bound.now ∷ workers.now ∷ []) → ⊥) }
{
    if name != "bench" {
        return None;
    }
    let qubits = number_within(qubits, 1, 3)? as u8;
    let letters = number_within(letters, 0, MOST_LETTERS)? as u8;
    let seed = number_within(seed, 0, LAST_SEED)?;
    let bound = number_within(bound, 0, 2 * most_letters(qubits) as u32)? as u8;
    let workers = number_within(workers, 1, 8)?;
    Some(Command::Bench {
        qubits,
        letters,
        seed,
        bound,
        workers,
    })
}

impl Command {
    /// The command that words are. It takes no memory.
    pub fn of_words(words: &[&str]) -> Option<Command>
        ensures some { IfSome result (λ command. Spell (texts_of words.now) command) }
        ensures none { IfNone result (IsCommand (texts_of words.now) → ⊥) }
    {
        match words {
            [name] => check(name),
            [name, bound, workers] => synth(name, bound, workers),
            [name, qubits, top, workers] => levels(name, qubits, top, workers),
            [name, qubits, letters, seed, bound, workers] => {
                bench(name, qubits, letters, seed, bound, workers)
            }
            _ => None,
        }
    }
}
