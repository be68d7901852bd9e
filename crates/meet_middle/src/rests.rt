// What is left of a target, looked up in a level.
ghost use Rattle.std.specs.Prelude.{◌≡◌};
ghost use Rattle.channel_rep.specs.Cells.{scaled, IsReduced};
ghost use Rattle.channel_rep.specs.Tables.{IsCircuitChannel};
ghost use Rattle.level_store.specs.InOrder.{IsLevelOf};
ghost use Rattle.level_store.specs.Stored.{Finds};

use channel_rep::Narrow;
use coset_label::{Scratch, Word, label_narrow};
use level_store::Level;

/// The word of a level in the coset of a reduced channel, if there is one.
pub fn find_rest(
    level: &Level,
    half: u8,
    rest: &Narrow,
    label: &mut Scratch,
    other: &mut Scratch,
) -> Option<Word>
    requires number { IsLevelOf rest.now.qubits half level.now }
    requires label { label.old.qubits ≡ rest.now.qubits }
    requires other { other.old.qubits ≡ rest.now.qubits }
    requires reduced { IsReduced rest.now }
    requires circuit { IsCircuitChannel rest.now.qubits (scaled rest.now) }
    ensures label { label.new.qubits ≡ label.old.qubits }
    ensures other { other.new.qubits ≡ other.old.qubits }
    ensures finds { Finds rest.now.qubits half (scaled rest.now) result }
{
    label_narrow(rest, label);
    level.find(label, other)
}
