//! Synthesises circuits over Clifford and T gates with the fewest T gates, from standard input to standard output. The
//! words of the command line say what to do, and the exit status how it ended. Nothing is written to standard error.
#![tactic(auto)]

use std::alloc::{AllocError, Global};
use std::env;
use std::io::ErrorKind;
use std::process::ExitCode;
use std::rt::Env;
use std::thread::Threads;
use steal_sweep::OpenWay;
use tc_io::{StdSink, StdSource};
use tcount_top::{Status, run};

/// The words of the command line behind the program's name. There are none where the words can't be had as texts, such as
/// where one isn't UTF-8.
fn words_of<R: Env + AllocGlobal>(rt: &R) -> Result<Vec<String>, AllocError> {
    match env::args(rt) {
        Ok(all) => all.skip(1).collect(rt.alloc()),
        Err(e) if e.kind() == ErrorKind::OutOfMemory => Err(AllocError),
        Err(_) => Ok(Vec::new(rt.alloc())),
    }
}

/// The words as texts.
fn texts_of(alloc: Global, words: &[String]) -> Result<Vec<&str>, AllocError> {
    words.iter().map(|word| word.as_str()).collect(alloc)
}

/// Runs the command over the standard streams, its workers as threads that nothing holds up. Want of memory for the words
/// comes before anything is read or written.
fn status_of<H: Threads + Sync>(rt: &HostRuntime, th: &H) -> Result<Status, AllocError> {
    let words = words_of(rt)?;
    let texts = texts_of(rt.alloc(), &words)?;
    let mut source = StdSource::new(rt.stdin());
    let mut sink = StdSink::new(rt.stdout());
    Ok(run(th, rt.alloc(), &texts, &mut source, &mut sink, &OpenWay))
}

/// Hands the words, standard input and standard output to `run`, and ends with its status.
fn main(rt: HostRuntime) -> ExitCode {
    let status = status_of(&rt, &rt).unwrap_or(Status::NoMemory);
    ExitCode::from(status.code())
}
