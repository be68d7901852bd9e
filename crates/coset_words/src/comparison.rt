// The exact test whether two words lie in one coset.
ghost use Rattle.std.specs.Prelude.{◌≡◌, ◌↔◌, IsTrue};
ghost use Rattle.channel_rep.specs.Cells.{scaled, IsReduced};
ghost use Rattle.channel_rep.specs.Tables.{IsCircuitChannel};
ghost use Rattle.coset_label.specs.Cosets.{SameCoset, SameCosetWords};
ghost use Rattle.coset_label.specs.Words.{word_channel};

use crate::exchange::exchanges;
use channel_rep::Narrow;
use coset_label::{Word, narrow_of_word};

/// Whether a word lies in the coset of a channel that has the least exponent: what the word's inverse leaves of the channel is
/// a signed permutation. A letter changes the least exponent by at most one, so where it passes the number of letters that
/// are left, the word doesn't.
fn lies_in_coset(word: Word, narrow: &mut Narrow) -> bool
    requires qubits { word.qubits ≡ narrow.old.qubits }
    requires reduced { IsReduced narrow.old }
    ensures qubits { narrow.new.qubits ≡ narrow.old.qubits }
    ensures coset { IsCircuitChannel word.qubits (scaled narrow.old)
        → IsTrue result ↔ SameCoset word.qubits (scaled narrow.old) (word_channel word.qubits word.letters) }
{
    for i in 0..word.len() {
        if narrow.exponent() > (word.len() - i) as u32 {
            return false;
        }
        narrow.left_rotation_inverse(word.letter(i));
        narrow.reduce();
    }
    narrow.signed_permutation()
}

/// Whether two words lie in one coset. What `room` holds afterwards is left open: it is room for a channel in narrow
/// rows.
pub fn of_one_coset(v: Word, w: Word, room: &mut Narrow) -> bool
    requires same { v.qubits ≡ w.qubits }
    requires room { room.old.qubits ≡ v.qubits }
    ensures room { room.new.qubits ≡ room.old.qubits }
    ensures coset { IsTrue result ↔ SameCosetWords v.qubits v.letters w.letters }
{
    if exchanges(v, w) {
        return true;
    }
    narrow_of_word(v, room);
    room.reduce();
    lies_in_coset(w, room)
}
