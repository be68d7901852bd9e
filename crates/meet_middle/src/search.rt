// The first front of a total that meets its level, by workers.
ghost use Rattle.std.specs.Prelude.{◌≡◌, ℕ, ◌+◌, ◌*◌, ◌<◌, ◌≤◌, true, false, ◌++◌, All, IfOk, IfSome, IfNone, map};
ghost use Rattle.channel_rep.specs.Cells.{scaled, IsReduced};
ghost use Rattle.channel_rep.specs.Tables.{IsCircuitChannel};
ghost use Rattle.coset_label.specs.Words.{most_letters};
ghost use Rattle.steal_sweep.specs.Searches.{IsLeastHit};
ghost use Rattle.level_laws.specs.Levels.{Meets, NoneBelow};
ghost use Rattle.level_store.specs.Stored.{letters_in};
ghost use Rattle.meet_middle.specs.Answers.{IsLeastAnswer};
ghost use Rattle.meet_middle.specs.Fronts.{front_of, fronts_of, front_meets, total_of};
ghost use Rattle.meet_middle.specs.Kept.{IsAsked, keeps};
ghost use Rattle.meet_middle.specs.Halves.{spelled};

use crate::fronts::{front, front_count};
use crate::probe::Probe;
use crate::word2::Word2;
use channel_rep::Channel;
use level_store::Level;
use std::alloc::{AllocError, Global};
use std::thread::Threads;
use steal_sweep::{Best, BestSeat, Local, Seeker, Sweep, Test, Turnstile, least_hit};
use work_shares::deal;

/// Whether the rest of the target behind the front of a position stands in the level.
#[derive(Drop)]
pub struct Fronts<'a, const N: u8> {
    /// The channel whose least word is looked for. The workers take letters off channels of their own, of the same value.
    pub target: &'a Channel,
    /// The level of which a front begins with a word, and in which the rest is looked up.
    pub level: &'a Level,
    /// The number of letters of the level's words.
    pub half: u8,
    /// Whether a front has a letter behind its word.
    pub odd: bool,
}

impl<'a, const N: u8> Test<Probe<N>> for Fronts<'a, N> {
    ghost use Rattle.std.specs.Prelude.{◌≡◌, nat_lt, true, ◌&&◌};
    ghost use Rattle.channel_rep.specs.Cells.{scaled};
    ghost use Rattle.level_store.specs.Stored.{letters_in};
    ghost use Rattle.meet_middle.specs.Fronts.{fronts_of, front_meets};
    ghost use Rattle.meet_middle.specs.Kept.{IsAsked, keeps};

    ghost fits = { λ t l. keeps N (scaled t.target.now) l.trail };

    ghost needs = { λ t. IsAsked N t.half t.target.now t.level.now };

    ghost may = { λ t l p. nat_lt p (fronts_of N (letters_in t.level.now) t.odd)
        && (keeps N (scaled t.target.now) l.trail && ⟦<Probe<N> as Local>⟧.fit l) };

    ghost gives = { λ t l p r l'. (r ≡ front_meets N (letters_in t.level.now) t.odd (scaled t.target.now) p)
        × (keeps N (scaled t.target.now) l'.trail ≡ true)
        × (⟦<Probe<N> as Local>⟧.fit l' ≡ true) };

    ghost truth = { λ t p. front_meets N (letters_in t.level.now) t.odd (scaled t.target.now) p };

    /// Whether the front of a position meets the level.
    fn answer(&self, local: &mut Probe<N>, position: u64) -> bool {
        local
            .look(self.level, self.half, self.odd, position)
            .is_some()
    }
}

/// A seeker for each seat.
fn seekers<const N: u8>(
    alloc: Global,
    target: &Channel,
    seats: Vec<BestSeat>,
) -> Result<Vec<Seeker<Probe<N>>>, AllocError>
    requires some { 0 < N }
    requires few { N ≤ 3 }
    requires qubits { target.now.qubits ≡ N }
    requires low { target.now.exponent ≤ 2 * most_letters N }
    requires reduced { IsReduced target.now }
    requires circuit { IsCircuitChannel N (scaled target.now) }
    ensures seats { IfOk result (λ v. map (λ s. s.seat) v.items ≡ seats.items) }
    ensures fit { IfOk result (λ v. All (λ s. ⟦<Probe<N> as Local>⟧.fit s.local ≡ true) v.items) }
    ensures keeps { IfOk result (λ v. All (λ s. keeps N (scaled target.now) s.local.trail ≡ true) v.items) }
{
    let mut all = Vec::new(alloc);
    for seat in seats {
        let local = Probe::new(alloc, target)?;
        all.push(Seeker { seat, local })?;
    }
    Ok(all)
}

/// The first front that meets the level, on N qubits.
fn first_front<H: Threads + Sync, G: Turnstile + Sync, const N: u8>(
    th: &H,
    alloc: Global,
    level: &Level,
    target: &Channel,
    half: u8,
    odd: bool,
    workers: u32,
    gate: &G,
) -> Result<Option<u64>, AllocError>
    requires asked { IsAsked N half target.now level.now }
    requires some { 1 ≤ workers }
    requires few { workers ≤ 8 }
    ensures some { IfOk result (λ r. IfSome r (IsLeastHit
        (front_meets N (letters_in level.now) odd (scaled target.now)) (fronts_of N (letters_in level.now) odd))) }
    ensures none { IfOk result (λ r. IfNone r ((p : ℕ) → p < fronts_of N (letters_in level.now) odd
        → front_meets N (letters_in level.now) odd (scaled target.now) p ≡ false)) }
{
    let total = front_count(level, N, half, odd);
    let (best, seats) = Best::new(alloc, workers)?;
    let shares = deal(alloc, total, 64, seekers::<N>(alloc, target, seats)?)?;
    let sweep = Sweep::new(
        total,
        Fronts {
            target,
            level,
            half,
            odd,
        },
    );
    Ok(least_hit(th, &sweep, shares, best, gate))
}

/// The word that a front spells with what it meets.
fn spell<const N: u8>(
    probe: &mut Probe<N>,
    level: &Level,
    target: &Channel,
    half: u8,
    odd: bool,
    position: u64,
) -> Word2
    requires fit { ⟦<Probe<N> as Local>⟧.fit probe.old ≡ true }
    requires keeps { keeps N (scaled target.now) probe.old.trail ≡ true }
    requires asked { IsAsked N half target.now level.now }
    requires below { position < fronts_of N (letters_in level.now) odd }
    requires hit { front_meets N (letters_in level.now) odd (scaled target.now) position ≡ true }
    ensures qubits { result.first.qubits ≡ N }
    ensures meets { Meets N (scaled target.now) half (front_of N (letters_in level.now) odd position) result.last.letters }
    ensures spelled { spelled result.first.letters result.middle result.last.letters
        ≡ front_of N (letters_in level.now) odd position ++ result.last.letters }
{
    let Some(back) = probe.look(level, half, odd, position) else {
        unreachable!()
    };
    let (number, middle) = front(N, odd, position);
    Word2 {
        first: level.word(number),
        middle,
        last: back,
    }
}

/// The least word on N qubits, where it has so many letters and none has fewer.
fn try_on<H: Threads + Sync, G: Turnstile + Sync, const N: u8>(
    th: &H,
    alloc: Global,
    level: &Level,
    target: &Channel,
    half: u8,
    odd: bool,
    workers: u32,
    gate: &G,
) -> Result<Option<Word2>, AllocError>
    requires asked { IsAsked N half target.now level.now }
    requires none { NoneBelow N (scaled target.now) (total_of half odd) }
    requires some { 1 ≤ workers }
    requires few { workers ≤ 8 }
    ensures some { IfOk result (λ r. IfSome r (IsLeastAnswer N (scaled target.now) (total_of half odd))) }
    ensures none { IfOk result (λ r. IfNone r (NoneBelow N (scaled target.now) (total_of half odd + 1))) }
{
    let mut probe = Probe::<N>::new(alloc, target)?;
    let met = first_front::<_, _, N>(th, alloc, level, target, half, odd, workers, gate)?;
    match met {
        Some(position) => Ok(Some(spell(&mut probe, level, target, half, odd, position))),
        None => Ok(None),
    }
}

/// The least word, where it has so many letters and none has fewer.
pub fn try_total<H: Threads + Sync, G: Turnstile + Sync>(
    th: &H,
    alloc: Global,
    level: &Level,
    target: &Channel,
    half: u8,
    odd: bool,
    workers: u32,
    gate: &G,
) -> Result<Option<Word2>, AllocError>
    requires asked { IsAsked target.now.qubits half target.now level.now }
    requires none { NoneBelow target.now.qubits (scaled target.now) (total_of half odd) }
    requires some { 1 ≤ workers }
    requires few { workers ≤ 8 }
    ensures some { IfOk result (λ r. IfSome r (IsLeastAnswer target.now.qubits (scaled target.now) (total_of half odd))) }
    ensures none { IfOk result (λ r. IfNone r (NoneBelow target.now.qubits (scaled target.now) (total_of half odd + 1))) }
{
    match target.qubits() {
        1 => try_on::<_, _, 1>(th, alloc, level, target, half, odd, workers, gate),
        2 => try_on::<_, _, 2>(th, alloc, level, target, half, odd, workers, gate),
        _ => try_on::<_, _, 3>(th, alloc, level, target, half, odd, workers, gate),
    }
}
