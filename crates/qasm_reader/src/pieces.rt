// The pieces that a definition is made of.
ghost use Rattle.std.specs.Prelude.{◌≡◌};
ghost use Rattle.qasm_reader.specs.Pieces.{place_at, image, composite, piece_image};

use tc_circuit::Gate;

/// The places that stand for the numbers of a gate's arguments, of which there are at most three.
#[derive(Clone, Copy)]
pub struct Places {
    pub first: u8,
    pub second: u8,
    pub third: u8,
}

/// A piece of a definition: a gate, or all gates of the definition at a place among the definitions, on places of its own. Only
/// definitions of two pieces or more are called so, so a definition that is written out takes at most two steps for each gate.
#[derive(Clone, Copy)]
pub enum Piece {
    One(Gate),
    Call(usize, Places),
}

/// Where the gates of a gate are: in a list that was there from the start, empty where it isn't known, or in the definition at a
/// place among the definitions.
#[derive(Clone, Copy)]
pub enum Source {
    Listed(&'static [Gate]),
    Defined(usize),
}

/// The place that stands for the number of an argument.
fn place_at(places: Places, a: u8) -> u8
    ensures { result ≡ place_at places a }
{
    if a == 0 {
        places.first
    } else if a == 1 {
        places.second
    } else {
        places.third
    }
}

/// The gate with places in place of the numbers of the arguments.
pub fn image(places: Places, gate: Gate) -> Gate
    ensures { result ≡ image places gate }
{
    match gate {
        Gate::H(a) => Gate::H(place_at(places, a)),
        Gate::S(a) => Gate::S(place_at(places, a)),
        Gate::Sdg(a) => Gate::Sdg(place_at(places, a)),
        Gate::T(a) => Gate::T(place_at(places, a)),
        Gate::Tdg(a) => Gate::Tdg(place_at(places, a)),
        Gate::Cx(a, b) => Gate::Cx(place_at(places, a), place_at(places, b)),
    }
}

/// The places behind the inner places.
fn composite(outer: Places, inner: Places) -> Places
    ensures { result ≡ composite outer inner }
{
    Places {
        first: place_at(outer, inner.first),
        second: place_at(outer, inner.second),
        third: place_at(outer, inner.third),
    }
}

/// The piece with places in place of the numbers of the arguments.
pub fn piece_image(places: Places, piece: Piece) -> Piece
    ensures { result ≡ piece_image places piece }
{
    match piece {
        Piece::One(gate) => Piece::One(image(places, gate)),
        Piece::Call(place, inner) => Piece::Call(place, composite(places, inner)),
    }
}
