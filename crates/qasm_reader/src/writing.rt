// The gates of definitions, written out piece by piece.
ghost use Rattle.std.specs.Prelude.{◌≡◌, ◌<◌, ◌≤◌, ◌++◌, length, map, reverse, IfOk, OnOk};
ghost use Rattle.qasm_reader.specs.Limits.{most_qubits};
ghost use Rattle.qasm_reader.specs.Known.{known};
ghost use Rattle.qasm_reader.specs.Pieces.{meaning, piece_image, IsSound, IsStep, IsNarrow, source_gates};
ghost use Rattle.qasm_reader.specs.View.{meanings_behind, AreKept};

use crate::pieces::{Piece, Places, Source, piece_image};
use crate::scan::Definitions;
use std::alloc::{AllocError, Global};
use tc_circuit::Gate;

/// Adds pieces on places, from the last to the first.
fn push_images(todo: &mut Vec<Piece>, pieces: &[Piece], places: Places) -> Result<(), AllocError>
    ensures { OnOk result (todo.new.items ≡ todo.old.items ++ reverse (map (piece_image places) pieces.now)) }
{
    let mut at = pieces.len();
    'pieces: while at > 0 {
        at -= 1;
        todo.push(piece_image(places, pieces[at]))?;
    }
    Ok(())
}

/// The pieces as a stack, the first at the end.
fn stack_of(alloc: Global, pieces: &[Piece]) -> Result<Vec<Piece>, AllocError>
    ensures { IfOk result (λ v. v.items ≡ reverse pieces.now) }
{
    let mut todo = Vec::from_slice(alloc, pieces)?;
    todo.reverse();
    Ok(todo)
}

/// Writes a piece: a gate, or what is to be written in its place.
fn write_piece<'a>(
    gates: &mut Vec<Gate>,
    todo: &mut Vec<Piece>,
    list: &Definitions<'a>,
    piece: Piece,
) -> Result<(), AllocError>
    requires kept { AreKept list.now }
    requires sound { IsSound (meanings_behind known list.now.list.items) list.now.list.items piece }
    ensures { OnOk result (IsStep (meanings_behind known list.now.list.items) list.now.list.items piece gates.old.items todo.old.items gates.new.items todo.new.items) }
{
    match piece {
        Piece::One(gate) => {
            gates.push(gate)?;
            Ok(())
        }
        Piece::Call(place, places) => {
            push_images(todo, &list.list[place].pieces, places)?;
            Ok(())
        }
    }
}

/// The gates of the definition at a place, which takes at most three arguments, on the numbers of these. What is still to be
/// written stands in a list, the first at its end, so definitions may be nested in one another as deep as a text can hold.
pub fn gates_of_definition<'a>(
    alloc: Global,
    list: &Definitions<'a>,
    place: usize,
) -> Result<Vec<Gate>, AllocError>
    requires kept { AreKept list.now }
    requires within { place < length list.now.list.items }
    requires narrow { (meaning (meanings_behind known list.now.list.items) place).arity ≤ most_qubits }
    ensures { IfOk result (λ v. v.items ≡ (meaning (meanings_behind known list.now.list.items) place).gates) }
{
    let defined = &list.list[place];
    let mut gates = Vec::with_capacity(alloc, defined.size.length)?;
    let mut todo = stack_of(alloc, &defined.pieces)?;
    while let Some(piece) = todo.pop() {
        write_piece(&mut gates, &mut todo, list, piece)?;
    }
    Ok(gates)
}

/// The same gates, as a list of one's own.
fn copy_of_gates(alloc: Global, gates: &[Gate]) -> Result<Vec<Gate>, AllocError>
    ensures { IfOk result (λ v. v.items ≡ gates.now) }
{
    let copy = Vec::from_slice(alloc, gates)?;
    Ok(copy)
}

/// The gates of a gate that takes at most three arguments, on the numbers of these; none where it isn't known.
pub fn gates_from<'a>(
    alloc: Global,
    list: &Definitions<'a>,
    source: Source,
) -> Result<Vec<Gate>, AllocError>
    requires kept { AreKept list.now }
    requires narrow { IsNarrow (meanings_behind known list.now.list.items) list.now.list.items source }
    ensures { IfOk result (λ v. v.items ≡ source_gates (meanings_behind known list.now.list.items) source) }
{
    match source {
        Source::Listed(gates) => copy_of_gates(alloc, gates),
        Source::Defined(place) => gates_of_definition(alloc, list, place),
    }
}
