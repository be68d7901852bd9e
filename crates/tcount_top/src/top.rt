//! The top call.
ghost use Rattle.std.specs.Prelude.{◌≡◌, ◌⊎◌, ◌<◌, ◌≤◌, ◌^◌, ℕ, List, IfOk, length};
ghost use Rattle.tcount_top.specs.Words.{texts_of, SpellText, IsCommand, AskText, HasCrew};
ghost use Rattle.tcount_top.specs.Out.{TextOut, longest, most_bound};
ghost use Rattle.tcount_top.specs.Bench.{BenchOut};
ghost use Rattle.tcount_top.specs.Laws.{IsComplete};
ghost use Rattle.tcount_top.specs.Lines.{usage_line, levels_line};
ghost use Rattle.tcount_top.specs.Run.{Answers, Responds};
ghost use Rattle.coset_label.specs.Words.{most_letters};

use crate::bench::bench;
use crate::check::check;
use crate::command::{Command, TextCommand};
use crate::laws::answers_are_complete;
use crate::lines::{TOO_LONG, USAGE};
use crate::sizes::sizes;
use crate::synth::synth;
use std::alloc::{AllocError, Global};
use std::thread::Threads;
use steal_sweep::Turnstile;
use tc_io::{Failed, ReadAllFault, Sink, Source, read_all, write_all};

/// How a run ends.
#[derive(Clone, Copy, Debug, PartialEq, Eq)]
pub enum Status {
    /// A circuit or a least word was found within the bound, two programs are the same, or the sizes of levels were found.
    Found,
    /// Each circuit has more T gates than the bound, or two programs differ.
    Above,
    /// The text was refused.
    Refused,
    /// The words are no command.
    Usage,
    /// The source failed.
    ReadFault,
    /// The sink failed.
    WriteFault,
    /// Want of memory.
    NoMemory,
}

impl Status {
    ghost use Rattle.tcount_top.specs.Code.{code_of};

    /// The program's exit status, 0 to 6.
    pub fn code(self) -> u8
        ensures { result ≡ code_of self }
    {
        match self {
            Status::Found => 0,
            Status::Above => 1,
            Status::Refused => 2,
            Status::Usage => 3,
            Status::ReadFault => 4,
            Status::WriteFault => 5,
            Status::NoMemory => 6,
        }
    }
}

/// The most bytes that a text may have.
const LONGEST: usize = 65536;

/// Writes an outcome's bytes, and answers its status where the sink took them.
fn respond<K: Sink>(sink: &mut K, bytes: &[u8], status: Status) -> Status
    ensures responds { Responds (record {
      bytes_before = K.written sink.old;
      bytes_after = K.written sink.new;
      faults_before = K.faults sink.old;
      faults_after = K.faults sink.new;
    }) bytes.now status result }
    ensures later { K.faults sink.old ≤ K.faults sink.new }
{
    match write_all(sink, bytes) {
        Ok(()) => status,
        Err(Failed) => Status::WriteFault,
    }
}

/// The status and the bytes of the outcome for a text of at most 65,536 bytes.
fn answer<H: Threads + Sync, G: Turnstile + Sync>(
    th: &H,
    alloc: Global,
    command: TextCommand,
    text: &[u8],
    gate: &G,
) -> Result<(Status, Vec<u8>), AllocError>
    requires short { length text.now ≤ longest }
    requires crew { HasCrew command }
    ensures { IfOk result (λ r. TextOut command text.now r.0 r.1.items) }
{
    match command {
        TextCommand::Synth { bound, workers } => synth(th, alloc, text, bound, workers, gate),
        TextCommand::Check => check(alloc, text),
    }
}

/// Reads a text, and writes what a command answers to it.
fn run_over_text<H: Threads + Sync, S: Source, K: Sink, G: Turnstile + Sync>(
    th: &H,
    alloc: Global,
    command: TextCommand,
    src: &mut S,
    sink: &mut K,
    gate: &G,
) -> Status
    requires crew { HasCrew command }
    ensures answers { (words : List (List ℕ)) → SpellText words command → Answers words
        (record {
          bytes_before = S.left src.old;
          bytes_after = S.left src.new;
          faults_before = S.faults src.old;
          faults_after = S.faults src.new;
        })
        (record {
          bytes_before = K.written sink.old;
          bytes_after = K.written sink.new;
          faults_before = K.faults sink.old;
          faults_after = K.faults sink.new;
        }) result }
    ensures unwritten { (result ≡ Status.NoMemory) ⊎ (result ≡ Status.ReadFault) → sink.new ≡ sink.old }
    ensures no_usage { result ≡ Status.Usage → ⊥ }
    ensures reads { S.faults src.old ≤ S.faults src.new }
    ensures writes { K.faults sink.old ≤ K.faults sink.new }
{
    let text = match read_all(alloc, src, LONGEST) {
        Ok(text) => text,
        Err(ReadAllFault::Failed) => return Status::ReadFault,
        Err(ReadAllFault::TooLong) => return respond(sink, TOO_LONG, Status::Refused),
        Err(ReadAllFault::Memory) => return Status::NoMemory,
    };
    match answer(th, alloc, command, &text, gate) {
        Ok((status, bytes)) => respond(sink, &bytes, status),
        Err(AllocError) => Status::NoMemory,
    }
}

/// Writes what `levels` answers.
fn run_levels<H: Threads + Sync, K: Sink, G: Turnstile + Sync>(
    th: &H,
    alloc: Global,
    qubits: u8,
    top: u8,
    workers: u32,
    sink: &mut K,
    gate: &G,
) -> Status
    requires some { 1 ≤ qubits }
    requires few { qubits ≤ 3 }
    requires low { top ≤ most_letters qubits }
    requires any { 1 ≤ workers }
    requires crew { workers ≤ 8 }
    ensures answers { (result ≡ Status.NoMemory) ⊎ Responds (record {
      bytes_before = K.written sink.old;
      bytes_after = K.written sink.new;
      faults_before = K.faults sink.old;
      faults_after = K.faults sink.new;
    }) (levels_line qubits top) Status.Found result }
    ensures unwritten { result ≡ Status.NoMemory → sink.new ≡ sink.old }
    ensures writes { K.faults sink.old ≤ K.faults sink.new }
{
    match sizes(th, alloc, qubits, top, workers, gate) {
        Ok(line) => respond(sink, &line, Status::Found),
        Err(AllocError) => Status::NoMemory,
    }
}

/// Writes what `bench` answers.
fn run_bench<H: Threads + Sync, K: Sink, G: Turnstile + Sync>(
    th: &H,
    alloc: Global,
    qubits: u8,
    letters: u8,
    seed: u32,
    bound: u8,
    workers: u32,
    sink: &mut K,
    gate: &G,
) -> Status
    requires some { 1 ≤ qubits }
    requires few { qubits ≤ 3 }
    requires letters { letters ≤ 44 }
    requires seed { seed < 2 ^ 31 }
    requires bound { bound ≤ most_bound qubits }
    requires any { 1 ≤ workers }
    requires crew { workers ≤ 8 }
    ensures answers { (result ≡ Status.NoMemory) ⊎ ((status : Status) × (bytes : List ℕ)
        × BenchOut qubits letters seed bound status bytes
        × Responds (record {
          bytes_before = K.written sink.old;
          bytes_after = K.written sink.new;
          faults_before = K.faults sink.old;
          faults_after = K.faults sink.new;
        }) bytes status result) }
    ensures unwritten { (result ≡ Status.NoMemory) ⊎ (result ≡ Status.ReadFault) → sink.new ≡ sink.old }
    ensures no_usage { result ≡ Status.Usage → ⊥ }
    ensures writes { K.faults sink.old ≤ K.faults sink.new }
{
    match bench(th, alloc, qubits, letters, seed, bound, workers, gate) {
        Ok((status, line)) => respond(sink, &line, status),
        Err(AllocError) => Status::NoMemory,
    }
}

/// Does what the words ask for: reads the source, writes the outcome to the sink, and answers its status. It returns for
/// every input.
///
/// For every accepted text on n qubits, bound m within n's limit, number of workers and schedule: status 0 writes a circuit
/// whose matrix is the input's up to global phase and whose T-count no circuit of these gates on these qubits undercuts;
/// status 1 writes `above m`, and no circuit with at most m T gates has that matrix; else it answers want of memory, or a
/// device failed.
///
/// The gates are h, s, sdg, t, tdg and cx, and a circuit is any finite list of them. A text is accepted where it reads as a
/// circuit on one to three qubits and has at most 65,536 bytes, and the limit of m is 18, 12 or 8. Which status and which
/// bytes are the outcome for words and a text is said in `specs/Out`, for every text and for the other commands too. The
/// number of workers, the gate and the schedule are no part of it, and there is one outcome for words that are a command and a
/// text ([`outcomes_exist`](crate::laws::outcomes_exist), [`one_outcome`](crate::laws::one_outcome)): so the bytes are a function
/// of the words and the text.
///
/// In its place comes [`Status::NoMemory`] at want of memory, [`Status::ReadFault`] where a read failed, both before the first
/// byte is written, and [`Status::WriteFault`] where a write failed, behind a part of the outcome's bytes. Where no device
/// failed and the command accepts the text, the answer is Found or Above, or memory was wanting. Words that are no command take no memory and read nothing.
pub fn run<H: Threads + Sync, S: Source, K: Sink, G: Turnstile + Sync>(
    th: &H,
    alloc: Global,
    words: &[&str],
    src: &mut S,
    sink: &mut K,
    gate: &G,
) -> Status
    ensures answers { Answers (texts_of words.now)
        (record {
          bytes_before = S.left src.old;
          bytes_after = S.left src.new;
          faults_before = S.faults src.old;
          faults_after = S.faults src.new;
        })
        (record {
          bytes_before = K.written sink.old;
          bytes_after = K.written sink.new;
          faults_before = K.faults sink.old;
          faults_after = K.faults sink.new;
        }) result }

    // Where the words are a command that accepts a source's content and no device failed, it is Found, Above or want of memory.
    ensures complete { IsComplete (texts_of words.now)
        (record {
          bytes_before = S.left src.old;
          bytes_after = S.left src.new;
          faults_before = S.faults src.old;
          faults_after = S.faults src.new;
        })
        (record {
          bytes_before = K.written sink.old;
          bytes_after = K.written sink.new;
          faults_before = K.faults sink.old;
          faults_after = K.faults sink.new;
        }) result }

    // Nothing at all became of the sink before want of memory or a fault of reading.
    ensures unwritten { (result ≡ Status.NoMemory) ⊎ (result ≡ Status.ReadFault) → sink.new ≡ sink.old }

    // Whatever the source and the sink tell, words that are no command, and they alone, end in usage or in a failed write
    // of the usage line.
    ensures usage { result ≡ Status.Usage → IsCommand (texts_of words.now) → ⊥ }
    ensures no_command { (IsCommand (texts_of words.now) → ⊥) → Responds (record {
      bytes_before = K.written sink.old;
      bytes_after = K.written sink.new;
      faults_before = K.faults sink.old;
      faults_after = K.faults sink.new;
    }) usage_line Status.Usage result }

    // Words that ask for no text leave the source as it was.
    ensures unread { (AskText (texts_of words.now) → ⊥) → src.new ≡ src.old }

    // The counts of faults never fall.
    ensures reads { S.faults src.old ≤ S.faults src.new }
    ensures writes { K.faults sink.old ≤ K.faults sink.new }
{
    // Called for its contract: such answers are complete.
    answers_are_complete();
    match Command::of_words(words) {
        Some(Command::OverText(command)) => run_over_text(th, alloc, command, src, sink, gate),
        Some(
            Command::Levels {
                qubits,
                top,
                workers,
            },
        ) => run_levels(th, alloc, qubits, top, workers, sink, gate),
        Some(
            Command::Bench {
                qubits,
                letters,
                seed,
                bound,
                workers,
            },
        ) => run_bench(th, alloc, qubits, letters, seed, bound, workers, sink, gate),
        None => respond(sink, USAGE, Status::Usage),
    }
}
