// The bodies of definitions: whether they are good, how many gates they stand for, and these gates.
ghost use Rattle.std.specs.Prelude.{◌≡◌, ◌<◌, ◌≤◌, ◌++◌, ◌∷◌, ℕ, ◌||◌, not, List, [], false, length, map, slice_index, IfOk, OnOk, Option, option_map};
ghost use Rattle.std.specs.List.{list_any, prefix_len};
ghost use Rattle.std.specs.Str.{bytes_eq};
ghost use Rattle.tc_circuit.specs.Model.{t_count_of};
ghost use Rattle.qasm_reader.specs.Limits.{most_qubits, most_gates_defined};
ghost use Rattle.qasm_reader.specs.Known.{known};
ghost use Rattle.qasm_reader.specs.State.{place_among, entry_gates, defined};
ghost use Rattle.qasm_reader.specs.declared.pieces.Piece.TheVariants.{One};
ghost use Rattle.qasm_reader.specs.Pieces.{image, places_of, meaning, source_gates, IsNarrow, Adds};
ghost use Rattle.qasm_reader.specs.Rows.{is_among, has_twin_names, has_stranger, is_bad_call, is_bad_entry};
ghost use Rattle.qasm_reader.specs.View.{size_or_nothing, name_list, names, entry, entries, known_behind, meanings_behind, counted_size, AreKept};

use crate::definitions::{found_by_name, found_by_value, size_by_name, size_by_value};
use crate::finding::{add_name, contains_name};
use crate::forms::{Definition, Entry};
use crate::gates::Size;
use crate::limits::MOST_GATES_DEFINED;
use crate::pieces::{Piece, Places, Source, image, piece_image};
use crate::scan::Definitions;
use std::alloc::{AllocError, Global};
use std::collections::BTreeSet;
use tc_circuit::Gate;

/// Whether a name stands twice among the names.
fn has_twin_names(alloc: Global, list: &[&[u8]]) -> Result<bool, AllocError>
    ensures { IfOk result (λ twins. twins ≡ has_twin_names (name_list list.now)) }
{
    let mut behind = BTreeSet::new(alloc);
    let mut at = list.len();
    'names: while at > 0 {
        at -= 1;
        if contains_name(&behind, list[at]) {
            return Ok(true);
        }
        add_name(&mut behind, list[at])?;
    }
    Ok(false)
}

/// The names as a set.
fn set_of<'a>(alloc: Global, list: &[&'a [u8]]) -> Result<BTreeSet<&'a [u8]>, AllocError>
    ensures { IfOk result (λ set. (other : List ℕ) → names set other ≡ is_among (name_list list.now) other) }
{
    let mut set = BTreeSet::new(alloc);
    let mut at = list.len();
    'names: while at > 0 {
        at -= 1;
        add_name(&mut set, list[at])?;
    }
    Ok(set)
}

/// Whether one of the names isn't in the set.
fn has_stranger<'a>(set: &BTreeSet<&'a [u8]>, args: &[&'a [u8]]) -> bool
    ensures { result ≡ list_any (λ a. not (names set.now a)) (name_list args.now) }
{
    for name in args {
        if !contains_name(set, *name) {
            return true;
        }
    }
    false
}

/// Whether a gate of this size isn't known, takes another number of arguments, or has one twice.
fn is_bad_call(alloc: Global, size: Option<Size>, args: &[&[u8]]) -> Result<bool, AllocError>
    ensures { IfOk result (λ bad. bad ≡ is_bad_call (option_map (λ z. z.arity) size) (name_list args.now)) }
{
    match size {
        None => Ok(true),
        Some(size) if size.arity != args.len() => Ok(true),
        Some(_) => has_twin_names(alloc, args),
    }
}

/// Whether an entry holds a name that isn't in the set, or misuses a gate.
fn is_bad_entry<'a>(
    alloc: Global,
    list: &Definitions<'a>,
    set: &BTreeSet<&'a [u8]>,
    line: &Entry<'a>,
) -> Result<bool, AllocError>
    requires { AreKept list.now }
    ensures { IfOk result (λ bad. (among : List (List ℕ)) → ((other : List ℕ) → names set.now other ≡ is_among among other) → bad ≡ is_bad_entry (known_behind known list.now.list.items) among (entry line.now)) }
{
    match line {
        Entry::Barrier(args) => Ok(has_stranger(set, args)),
        Entry::Spin(_, name) => Ok(!contains_name(set, name)),
        Entry::Call(_, args) if has_stranger(set, args) => Ok(true),
        Entry::Call(name, args) => is_bad_call(alloc, size_by_name(list, name), args),
    }
}

/// Whether a name stands twice among the names of a definition, or an entry of its body is bad.
pub fn has_bad_body<'a>(
    alloc: Global,
    list: &Definitions<'a>,
    definition: &Definition<'a>,
) -> Result<bool, AllocError>
    requires { AreKept list.now }
    ensures { IfOk result (λ bad. bad ≡ (has_twin_names (name_list definition.now.names.items) || list_any (is_bad_entry (known_behind known list.now.list.items) (name_list definition.now.names.items)) (entries definition.now.body.items))) }
{
    if has_twin_names(alloc, &definition.names)? {
        return Ok(true);
    }
    let set = set_of(alloc, &definition.names)?;
    for line in &definition.body {
        if is_bad_entry(alloc, list, &set, line)? {
            return Ok(true);
        }
    }
    Ok(false)
}

pub const NOTHING: Size = Size {
    arity: 0,
    length: 0,
    t_count: 0,
};

/// The size, or that of no gates.
fn size_or_nothing(size: Option<Size>) -> Size
    ensures { result ≡ size_or_nothing size }
{
    size.unwrap_or(NOTHING)
}

/// How many gates an entry stands for, and how many of them are T gates.
fn entry_size<'a>(list: &Definitions<'a>, line: &Entry<'a>) -> Size
    requires { AreKept list.now }
    ensures length { (among : List (List ℕ)) → result.length ≡ length (entry_gates (known_behind known list.now.list.items) among (entry line.now)) }
    ensures t_count { (among : List (List ℕ)) → result.t_count ≡ t_count_of (entry_gates (known_behind known list.now.list.items) among (entry line.now)) }
    ensures few { result.length ≤ most_gates_defined }
    ensures low { result.t_count ≤ most_gates_defined }
{
    match line {
        Entry::Barrier(_) => NOTHING,
        Entry::Call(name, _) => size_or_nothing(size_by_name(list, name)),
        Entry::Spin(rotation, _) => size_or_nothing(size_by_value(rotation.value)),
    }
}

/// The size of the gate of a definition, where gates are counted up to one more than the most.
pub fn body_size<'a>(list: &Definitions<'a>, definition: &Definition<'a>) -> Size
    requires { AreKept list.now }
    ensures { result ≡ counted_size (defined (known_behind known list.now.list.items) (name_list definition.now.names.items) (entries definition.now.body.items)) }
{
    let mut length = 0;
    let mut t_count = 0;
    for line in &definition.body {
        let size = entry_size(list, line);
        length = (length + size.length).min(MOST_GATES_DEFINED + 1);
        t_count = (t_count + size.t_count).min(MOST_GATES_DEFINED + 1);
    }
    Size {
        arity: definition.names.len(),
        length,
        t_count,
    }
}

/// How many names stand before the name.
fn len_before(list: &[&[u8]], name: &[u8]) -> usize
    ensures value { result ≡ prefix_len (λ n. not (bytes_eq name.now n.now)) list.now }
    ensures within { result ≤ length list.now }
{
    list.iter().take_while(|other| name != **other).count()
}

/// The place of a name among few names, or their number.
fn place_among(list: &[&[u8]], name: &[u8]) -> u8
    requires { length list.now ≤ most_qubits }
    ensures { result ≡ place_among (name_list list.now) name.now }
{
    len_before(list, name) as u8
}

/// The place of the argument of a number among few names, or 0 where there is none.
fn place_of_argument(list: &[&[u8]], args: &[&[u8]], number: usize) -> u8
    requires { length list.now ≤ most_qubits }
    ensures { result ≡ slice_index (map (place_among (name_list list.now)) (name_list args.now)) number }
{
    if number < args.len() {
        place_among(list, args[number])
    } else {
        0
    }
}

/// The places of the first three arguments among few names.
fn places_among(list: &[&[u8]], args: &[&[u8]]) -> Places
    requires { length list.now ≤ most_qubits }
    ensures { result ≡ places_of (map (place_among (name_list list.now)) (name_list args.now)) }
{
    Places {
        first: place_of_argument(list, args, 0),
        second: place_of_argument(list, args, 1),
        third: place_of_argument(list, args, 2),
    }
}

/// The place of a name among few names, as that of the first argument.
fn place_alone(list: &[&[u8]], name: &[u8]) -> Places
    requires { length list.now ≤ most_qubits }
    ensures { result ≡ places_of (place_among (name_list list.now) name.now ∷ []) }
{
    Places {
        first: place_among(list, name),
        second: 0,
        third: 0,
    }
}

/// Adds gates on the places, each as a piece.
fn push_gates(pieces: &mut Vec<Piece>, gates: &[Gate], places: Places) -> Result<(), AllocError>
    ensures { OnOk result (pieces.new.items ≡ pieces.old.items ++ map (λ g. One (image places g)) gates.now) }
{
    for gate in gates {
        pieces.push(Piece::One(image(places, *gate)))?;
    }
    Ok(())
}

/// Adds the gates of the definition at a place, on places: a definition of one piece is this piece, so that no chain of them is
/// walked when its gates are written, and one of none is nothing.
fn push_definition<'a>(
    pieces: &mut Vec<Piece>,
    list: &Definitions<'a>,
    place: usize,
    places: Places,
) -> Result<(), AllocError>
    requires kept { AreKept list.now }
    requires within { place < length list.now.list.items }
    requires narrow { (meaning (meanings_behind known list.now.list.items) place).arity ≤ most_qubits }
    ensures { OnOk result (Adds (meanings_behind known list.now.list.items) list.now.list.items pieces.old.items (map (image places) (meaning (meanings_behind known list.now.list.items) place).gates) pieces.new.items) }
{
    match list.list[place].pieces.as_slice() {
        [] => Ok(()),
        [piece] => {
            pieces.push(piece_image(places, *piece))?;
            Ok(())
        }
        _ => {
            pieces.push(Piece::Call(place, places))?;
            Ok(())
        }
    }
}

/// Adds the gates of a source on places.
fn push_source<'a>(
    pieces: &mut Vec<Piece>,
    list: &Definitions<'a>,
    source: Source,
    places: Places,
) -> Result<(), AllocError>
    requires kept { AreKept list.now }
    requires narrow { IsNarrow (meanings_behind known list.now.list.items) list.now.list.items source }
    ensures { OnOk result (Adds (meanings_behind known list.now.list.items) list.now.list.items pieces.old.items (map (image places) (source_gates (meanings_behind known list.now.list.items) source)) pieces.new.items) }
{
    match source {
        Source::Listed(gates) => {
            push_gates(pieces, gates, places)?;
            Ok(())
        }
        Source::Defined(place) => push_definition(pieces, list, place, places),
    }
}

/// Adds the gates of an entry.
fn push_entry<'a>(
    pieces: &mut Vec<Piece>,
    list: &Definitions<'a>,
    among: &[&'a [u8]],
    line: &Entry<'a>,
) -> Result<(), AllocError>
    requires kept { AreKept list.now }
    requires narrow { length among.now ≤ most_qubits }
    requires good { is_bad_entry (known_behind known list.now.list.items) (name_list among.now) (entry line.now) ≡ false }
    ensures { OnOk result (Adds (meanings_behind known list.now.list.items) list.now.list.items pieces.old.items (entry_gates (known_behind known list.now.list.items) (name_list among.now) (entry line.now)) pieces.new.items) }
{
    match line {
        Entry::Barrier(_) => Ok(()),
        Entry::Call(name, args) => {
            let places = places_among(among, args);
            push_source(pieces, list, found_by_name(list, name).source, places)
        }
        Entry::Spin(rotation, name) => {
            let places = place_alone(among, name);
            push_source(pieces, list, found_by_value(rotation.value).source, places)
        }
    }
}

/// The pieces of a definition, on the places of its names.
pub fn pieces_of_definition<'a>(
    alloc: Global,
    list: &Definitions<'a>,
    definition: &Definition<'a>,
) -> Result<Vec<Piece>, AllocError>
    requires kept { AreKept list.now }
    requires narrow { length definition.now.names.items ≤ most_qubits }
    requires good { list_any (is_bad_entry (known_behind known list.now.list.items) (name_list definition.now.names.items)) (entries definition.now.body.items) ≡ false }
    ensures { IfOk result (λ v. Adds (meanings_behind known list.now.list.items) list.now.list.items [] (defined (known_behind known list.now.list.items) (name_list definition.now.names.items) (entries definition.now.body.items)).gates v.items) }
{
    let mut pieces = Vec::new(alloc);
    for line in &definition.body {
        push_entry(&mut pieces, list, &definition.names, line)?;
    }
    Ok(pieces)
}
