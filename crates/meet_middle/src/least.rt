// The least word of a coset, total by total.
ghost use Rattle.std.specs.Prelude.{◌≡◌, ℕ, ◌+◌, ◌*◌, ◌<◌, ◌≤◌, IfOk, length};
ghost use Rattle.channel_rep.specs.Cells.{scaled, IsReduced};
ghost use Rattle.channel_rep.specs.Tables.{IsCircuitChannel};
ghost use Rattle.coset_label.specs.Words.{most_letters};
ghost use Rattle.level_laws.specs.Levels.{NoneBelow};
ghost use Rattle.level_store.specs.Stored.{qubits_of_all, levels_of};
ghost use Rattle.meet_middle.specs.Answers.{IsAnswer};
ghost use Rattle.meet_middle.specs.Fronts.{total_of};

use crate::answer::Answer;
use crate::search::try_total;
use channel_rep::Channel;
use level_store::Levels;
use std::alloc::{AllocError, Global};
use std::thread::Threads;
use steal_sweep::Turnstile;

/// Makes one level more where the wanted one isn't there yet.
fn reach<H: Threads + Sync, G: Turnstile + Sync>(
    th: &H,
    alloc: Global,
    levels: &mut Levels,
    half: u8,
    workers: u32,
    gate: &G,
) -> Result<(), AllocError>
    requires near { half ≤ length (levels_of levels.old) }
    requires limit { half ≤ most_letters (qubits_of_all levels.old) }
    requires some { 1 ≤ workers }
    requires few { workers ≤ 8 }
    ensures qubits { qubits_of_all levels.new ≡ qubits_of_all levels.old }
    ensures there { IfOk result (λ _. half < length (levels_of levels.new)) }
    ensures low { (k : ℕ) → length (levels_of levels.old) ≤ k + 1 → half ≤ k → length (levels_of levels.new) ≤ k + 1 }
{
    if levels.height() < half {
        levels.grow(th, alloc, workers, gate)
    } else {
        Ok(())
    }
}

/// A total as two halves, and whether a letter stands between them.
fn halves(total: u8) -> (u8, bool)
    ensures { total_of result.0 result.1 ≡ total }
{
    if total % 2 == 1 {
        (total / 2, true)
    } else {
        (total / 2, false)
    }
}

/// The least word of the target's coset, by halves that meet, where it has at most `bound` letters.
///
/// `Answer::Least` gives the least word of the coset: none of it is shorter, and none of its length is earlier in the order
/// of the letters' codes. `Answer::Above` comes exactly where no word of at most `bound` letters is in the coset.
///
/// The totals are tried from 0 up, each by so many workers, each of which passes the gate before each block of positions
/// that it takes. A total 2h or 2h + 1 needs level h and no further one, so the levels grow to at most half the bound. Where
/// the target's exponent passes the bound nothing is tried. The memory of a total is taken before its search begins; want of
/// memory is the one error. After it the levels may have grown, and they are still levels.
pub fn least_word<H: Threads + Sync, G: Turnstile + Sync>(
    th: &H,
    alloc: Global,
    levels: &mut Levels,
    target: &Channel,
    bound: u8,
    workers: u32,
    gate: &G,
) -> Result<Answer, AllocError>
    requires same { qubits_of_all levels.old ≡ target.now.qubits }
    requires circuit { IsCircuitChannel target.now.qubits (scaled target.now) }
    requires reduced { IsReduced target.now }
    requires bound { bound ≤ 2 * most_letters target.now.qubits }
    requires some { 1 ≤ workers }
    requires few { workers ≤ 8 }
    ensures qubits { qubits_of_all levels.new ≡ qubits_of_all levels.old }
    ensures low { (k : ℕ) → length (levels_of levels.old) ≤ k + 1 → bound ≤ 2 * k + 1 → length (levels_of levels.new) ≤ k + 1 }
    ensures answer { IfOk result (IsAnswer target.now.qubits (scaled target.now) bound) }
{
    // Called for its contract: there are from one to three qubits.
    let _qubits = target.qubits();
    if target.exponent() > bound as u32 {
        return Ok(Answer::Above);
    }
    for total in 0..bound as u16 + 1 {
        let (half, odd) = halves(total as u8);
        reach(th, alloc, levels, half, workers, gate)?;
        let level = levels.level(half);
        if let Some(word) = try_total(th, alloc, level, target, half, odd, workers, gate)? {
            return Ok(Answer::Least(word));
        }
    }
    Ok(Answer::Above)
}
