ghost use Rattle.std.specs.Prelude.{◌≡◌, ◌*◌, ◌<◌, ◌≤◌, IfOk};
ghost use Rattle.channel_rep.specs.Cells.{most_exponent};
ghost use Rattle.coset_label.specs.Words.{most_letters};
ghost use Rattle.tc_circuit.specs.Model.{t_count_of};

use crate::{Answer, Word2, least_word};
use channel_rep::MOST_EXPONENT;
use level_store::Levels;
use std::alloc::{AllocError, Global};
use std::process::Abort;
use std::test::Fail;
use std::thread::Threads;
use steal_sweep::OpenWay;
use tc_bridge::channel_of;
use tc_circuit::{Circuit, Gate};

/// A circuit of gates, with few T gates.
fn circuit_of(rt: &impl Abort, alloc: Global, n: u8, gates: &[Gate]) -> Result<Circuit, AllocError>
    requires some { 0 < n }
    requires few { n ≤ 3 }
    ensures qubits { IfOk result (λ c. c.qubits ≡ n) }
    ensures few_t { IfOk result (λ c. t_count_of c.gates ≤ most_exponent) }
{
    let mut circuit = Circuit::new(alloc, n);
    for gate in gates {
        assert!(rt; gate.fits(n));
        circuit.push(*gate)?;
    }
    assert!(rt; circuit.gates().len() <= 1_000);
    assert!(rt; circuit.t_count() <= MOST_EXPONENT);
    Ok(circuit)
}

/// The codes of a word's letters.
fn codes_of(alloc: Global, word: &Word2) -> Result<Vec<u8>, AllocError> {
    (0..word.len())
        .map(|i| word.letter(i).code())
        .collect(alloc)
}

/// The codes of the least word of a circuit's channel, or `None` where it has more letters than the bound; and the height of
/// the levels afterwards.
fn least<R: Threads + Sync + Abort>(
    rt: &R,
    alloc: Global,
    n: u8,
    gates: &[Gate],
    bound: u8,
    workers: u32,
) -> Result<(Option<Vec<u8>>, u8), AllocError>
    requires some { 0 < n }
    requires few { n ≤ 3 }
    requires bound { bound ≤ 2 * most_letters n }
    requires some_workers { 1 ≤ workers }
    requires few_workers { workers ≤ 8 }
{
    let circuit = circuit_of(rt, alloc, n, gates)?;
    let target = channel_of(alloc, &circuit)?;
    let mut levels = Levels::start(alloc, n)?;
    let answer = least_word(rt, alloc, &mut levels, &target, bound, workers, &OpenWay)?;
    let height = levels.height();
    match answer {
        Answer::Least(word) => Ok((Some(codes_of(alloc, &word)?), height)),
        Answer::Above => Ok((None, height)),
    }
}

/// A least word of letters that commute has them in order, whatever the number of workers.
#[test]
fn commuting_letters_in_order(rt: HostRuntime) -> Result<(), Fail> {
    use Gate::{Cx, T};
    // Z on each of two qubits, and on both: the letters commute, and the least word has them in order.
    let gates = [T(1), Cx(0, 1), T(1), Cx(0, 1), T(0)];
    for workers in [1, 2, 3, 8u32] {
        let (word, height) = least(&rt, rt.alloc(), 2, &gates, 5, workers)?;
        assert_eq!(rt; word.as_deref(), Some([3, 12, 15u8].as_slice()));
        assert_eq!(rt; height, 1);
    }
    Ok(())
}

/// A word of three letters, and that there is none of two.
#[test]
fn three_letters_and_no_fewer(rt: HostRuntime) -> Result<(), Fail> {
    use Gate::{H, T};
    let gates = [T(0), H(0), T(0), H(0), T(0)];
    let (word, _height) = least(&rt, rt.alloc(), 1, &gates, 3, 2)?;
    assert_eq!(rt; word.as_deref(), Some([3, 1, 3u8].as_slice()));
    let (above, height) = least(&rt, rt.alloc(), 1, &gates, 2, 2)?;
    assert!(rt; above.is_none());
    // The exponent of the channel passes the bound, so no level is made.
    assert_eq!(rt; height, 0);
    Ok(())
}

/// The coset of the identity has the empty word.
#[test]
fn the_identity_has_no_letters(rt: HostRuntime) -> Result<(), Fail> {
    use Gate::H;
    let (word, height) = least(&rt, rt.alloc(), 1, &[H(0), H(0)], 0, 1)?;
    assert_eq!(rt; word.as_deref(), Some([].as_slice()));
    assert_eq!(rt; height, 0);
    Ok(())
}
