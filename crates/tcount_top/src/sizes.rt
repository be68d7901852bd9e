//! What `levels` answers.
ghost use Rattle.std.specs.Prelude.{◌≡◌, ◌+◌, ◌-◌, ◌<◌, ◌≤◌, ◌++◌, IfOk, OnOk, length, codes, decimal, string_bytes};
ghost use Rattle.coset_label.specs.Words.{most_letters};
ghost use Rattle.level_laws.specs.Levels.{level};
ghost use Rattle.level_store.specs.Stored.{levels_of, qubits_of_all};
ghost use Rattle.tcount_top.specs.Lines.{levels_line};

use level_store::Levels;
use std::alloc::{AllocError, Global};
use std::fmt::Write;
use std::thread::Threads;
use steal_sweep::Turnstile;

/// The levels from 0 to `top` on so many qubits.
fn levels_to<H: Threads + Sync, G: Turnstile + Sync>(
    th: &H,
    alloc: Global,
    qubits: u8,
    top: u8,
    workers: u32,
    gate: &G,
) -> Result<Levels, AllocError>
    requires some { 1 ≤ qubits }
    requires few { qubits ≤ 3 }
    requires low { top ≤ most_letters qubits }
    requires any { 1 ≤ workers }
    requires crew { workers ≤ 8 }
    ensures qubits { IfOk result (λ s. qubits_of_all s ≡ qubits) }
    ensures height { IfOk result (λ s. length (levels_of s) ≡ top + 1) }
{
    let mut levels = Levels::start(alloc, qubits)?;
    while levels.height() < top {
        levels.grow(th, alloc, workers, gate)?;
    }
    Ok(levels)
}

/// The number of words of a level.
fn size_of(levels: &Levels, k: u8) -> u64
    requires height { k < length (levels_of levels.now) }
    ensures { result ≡ length (level (qubits_of_all levels.now) k) }
{
    let level = levels.level(k);
    level.count()
}

/// Appends a space and a number.
fn push_number(line: &mut String, number: u64) -> Result<(), AllocError>
    ensures { OnOk result (string_bytes line.new ≡ string_bytes line.old ++ (codes " " ++ decimal number)) }
{
    write!(line, " {number}")?;
    Ok(())
}

/// The line of the sizes of all levels.
fn sizes_line(alloc: Global, levels: &Levels) -> Result<Vec<u8>, AllocError>
    ensures { IfOk result (λ line. line.items
        ≡ levels_line (qubits_of_all levels.now) (length (levels_of levels.now) - 1)) }
{
    let first = size_of(levels, 0);
    let mut line = format!(in alloc; "{first}")?;
    for k in 0..levels.height() {
        push_number(&mut line, size_of(levels, k + 1))?;
    }
    line.push_str("\n")?;
    Ok(line.into_bytes())
}

/// The line of the sizes of levels 0 to `top` on so many qubits, which so many workers fill.
pub fn sizes<H: Threads + Sync, G: Turnstile + Sync>(
    th: &H,
    alloc: Global,
    qubits: u8,
    top: u8,
    workers: u32,
    gate: &G,
) -> Result<Vec<u8>, AllocError>
    requires some { 1 ≤ qubits }
    requires few { qubits ≤ 3 }
    requires low { top ≤ most_letters qubits }
    requires any { 1 ≤ workers }
    requires crew { workers ≤ 8 }
    ensures { IfOk result (λ line. line.items ≡ levels_line qubits top) }
{
    let levels = levels_to(th, alloc, qubits, top, workers, gate)?;
    sizes_line(alloc, &levels)
}
