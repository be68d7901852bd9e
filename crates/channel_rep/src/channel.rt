// The channel of a unitary, as a table over the Pauli operators.
ghost use Rattle.std.specs.Prelude.{◌≡◌, ◌≢◌, ℕ, ◌+◌, ◌*◌, ◌^◌, ◌<◌, ◌≤◌, ◌↔◌, List, [], ◌∷◌, ◌++◌, length, true, false, IsTrue, IfOk};
ghost use Rattle.ring_laws.specs.Matrix.{product, identity, Agree};
ghost use Rattle.tc_ring.specs.Root2.{surd_of};
ghost use Rattle.tc_ring.specs.Surds.{surds, SurdWithin, one_surd};
ghost use Rattle.channel_rep.specs.Cells.{entries, cell_of, most_exponent, RowWithin};
ghost use Rattle.channel_rep.specs.Changes.{ChangesRow};
ghost use Rattle.channel_rep.specs.Conjugations.{IsConjugationBy, MovesRows, gate_steps};
ghost use Rattle.channel_rep.specs.Gates.{GateFits};
ghost use Rattle.channel_rep.specs.Norms.{HasNorm};
ghost use Rattle.channel_rep.specs.Tables.{Step, by_gate, by_rotation, by_inverse_rotation, gate_table, rotation_table, signed, ScaledTable, SameTable, IsBuiltOf};

use crate::halves::divide_out;
use crate::rows::cell_at;
use crate::steps::{codes, conjugate_rows, move_rows, rotate_rows};
use crate::units::{is_signed_permutation, unit_of_column};
use crate::{ChannelGate, Conjugation, Narrow};
use pauli_basis::{Pauli, SignedPauli};
use std::alloc::{AllocError, Global};
use std::marker::Model;
use tc_ring::Root2;

/// The largest exponent of a channel. A channel of k rotations has at most the exponent k.
pub const MOST_EXPONENT: u32 = 120;

/// The cell of the identity at a row and a column.
fn identity_cell(row: usize, column: usize) -> Root2
    ensures { surd_of result ≡ identity surds row column }
{
    if row == column {
        Root2 { a: 1, b: 0 }
    } else {
        Root2 { a: 0, b: 0 }
    }
}

/// The cells of the identity, row by row.
fn identity_cells(alloc: Global, n: u8) -> Result<Vec<Root2>, AllocError>
    requires few { n ≤ 3 }
    ensures whole { IfOk result (λ cells. length cells.items ≡ 4 ^ n * 4 ^ n) }
    ensures identity { IfOk result (λ cells.
        Agree surds (4 ^ n) (entries (4 ^ n) cells.items) (identity surds)) }
{
    let size = codes(n);
    let mut cells = Vec::with_capacity(alloc, size * size)?;
    for place in 0..size * size {
        cells.push(identity_cell(place / size, place % size))?;
    }
    Ok(cells)
}

/// Makes one row of a table into that of the identity.
fn write_identity_row(cells: &mut [Root2], size: usize, row: usize)
    requires below { row < size }
    requires whole { length cells.old ≡ size * size }
    ensures whole { length cells.new ≡ size * size }
    ensures row { ChangesRow size row (λ c. identity surds row c) cells.old cells.new }
{
    let line = &mut cells[row * size..(row + 1) * size];
    line.fill(Root2 { a: 0, b: 0 });
    line[row] = Root2 { a: 1, b: 0 };
}

/// Makes a table into the identity.
fn write_identity(cells: &mut [Root2], size: usize)
    requires whole { length cells.old ≡ size * size }
    ensures whole { length cells.new ≡ size * size }
    ensures identity { Agree surds size (entries size cells.new) (identity surds) }
{
    for row in 0..size {
        write_identity_row(cells, size, row);
    }
}

/// The channel of a unitary U on one to three qubits: a table of 4^n rows and columns whose entry at row P and column Q
/// is tr(P·U·Q·U†)/2^n, rows and columns being Pauli codes.
///
/// It stands for its cells divided by √2^k, one exponent k for all of them, at most `MOST_EXPONENT`. Its columns are
/// orthogonal, and over the cells a + b·√2 of each column a² + 2b² has the sum 2^k, so both numbers of each cell are at
/// most 2^60 in absolute value.
#[derive(Drop)]
pub struct Channel {
    n: u8,
    k: u32,
    cells: Vec<Root2>,
}

impl Model for Channel {
    ghost use Rattle.channel_rep.specs.Cells.{ChannelGrid, IsChannelGrid};

    ghost Value = { ChannelGrid };

    ghost view = { λ m. record { qubits = m.n; exponent = m.k; cells = m.cells.items } };

    ghost invariant = { λ m. IsChannelGrid
        (record { qubits = m.n; exponent = m.k; cells = m.cells.items }) };
}

impl Channel {
    ghost use Rattle.channel_rep.specs.Cells.{table_of, scaled, IsChannelGrid, IsReduced, IsSignedPermutation};

    /// The identity on n qubits, with exponent 0.
    pub fn identity(alloc: Global, n: u8) -> Result<Channel, AllocError>
        requires some { 0 < n }
        requires few { n ≤ 3 }
        ensures qubits { IfOk result (λ m. m.qubits ≡ n) }
        ensures exponent { IfOk result (λ m. m.exponent ≡ 0) }
        ensures table { IfOk result (λ m. Agree surds (4 ^ n) (table_of m) (identity surds)) }
        ensures built { IfOk result (λ m. IsBuiltOf n [] (scaled m)) }
    {
        let cells = identity_cells(alloc, n)?;
        Ok(Channel { n, k: 0, cells })
    }

    /// Makes the channel into the identity, in place.
    pub fn make_identity(&mut self)
        ensures qubits { self.new.qubits ≡ self.old.qubits }
        ensures exponent { self.new.exponent ≡ 0 }
        ensures table { Agree surds (4 ^ self.old.qubits) (table_of self.new) (identity surds) }
        ensures built { IsBuiltOf self.old.qubits [] (scaled self.new) }
    {
        write_identity(&mut self.cells, codes(self.n));
        self.k = 0;
    }

    /// Makes the channel into the gate's channel times it, in place.
    pub fn left_gate(&mut self, gate: ChannelGate)
        requires { GateFits self.old.qubits gate }
        ensures qubits { self.new.qubits ≡ self.old.qubits }
        ensures exponent { self.new.exponent ≡ self.old.exponent }
        ensures table { Agree surds (4 ^ self.old.qubits) (table_of self.new)
            (product surds (4 ^ self.old.qubits) (gate_table self.old.qubits gate) (table_of self.old)) }
        ensures built { (steps : List Step) → IsBuiltOf self.old.qubits steps (scaled self.old)
            → IsBuiltOf self.old.qubits (steps ++ by_gate gate ∷ []) (scaled self.new) }
    {
        move_rows(&mut self.cells, self.n, gate);
    }

    /// Makes the channel into the rotation's channel times it, in place, or into that of the rotation's inverse.
    fn rotate(&mut self, p: &Pauli, inverse: bool)
        requires same { p.now.qubits ≡ self.old.qubits }
        requires other { p.now.code ≢ 0 }
        requires room { self.old.exponent < most_exponent }
        ensures qubits { self.new.qubits ≡ self.old.qubits }
        ensures exponent { self.new.exponent ≡ 1 + self.old.exponent }
        ensures table { Agree surds (4 ^ self.old.qubits) (table_of self.new)
            (product surds (4 ^ self.old.qubits)
            (rotation_table self.old.qubits inverse p.now.code) (table_of self.old)) }
    {
        rotate_rows(&mut self.cells, p, inverse);
        self.k += 1;
    }

    /// Makes the channel into that of the rotation R(p) times it, in place.
    pub fn left_rotation(&mut self, p: Pauli)
        requires same { p.qubits ≡ self.old.qubits }
        requires other { p.code ≢ 0 }
        requires room { self.old.exponent < most_exponent }
        ensures qubits { self.new.qubits ≡ self.old.qubits }
        ensures exponent { self.new.exponent ≡ 1 + self.old.exponent }
        ensures table { Agree surds (4 ^ self.old.qubits) (table_of self.new)
            (product surds (4 ^ self.old.qubits)
            (rotation_table self.old.qubits false p.code) (table_of self.old)) }
        ensures built { (steps : List Step) → IsBuiltOf self.old.qubits steps (scaled self.old)
            → IsBuiltOf self.old.qubits (steps ++ by_rotation p.code ∷ []) (scaled self.new) }
    {
        self.rotate(&p, false);
    }

    /// Makes the channel into that of the inverse of the rotation R(p) times it, in place.
    pub fn left_rotation_inverse(&mut self, p: Pauli)
        requires same { p.qubits ≡ self.old.qubits }
        requires other { p.code ≢ 0 }
        requires room { self.old.exponent < most_exponent }
        ensures qubits { self.new.qubits ≡ self.old.qubits }
        ensures exponent { self.new.exponent ≡ 1 + self.old.exponent }
        ensures table { Agree surds (4 ^ self.old.qubits) (table_of self.new)
            (product surds (4 ^ self.old.qubits)
            (rotation_table self.old.qubits true p.code) (table_of self.old)) }
        ensures built { (steps : List Step) → IsBuiltOf self.old.qubits steps (scaled self.old)
            → IsBuiltOf self.old.qubits (steps ++ by_inverse_rotation p.code ∷ []) (scaled self.new) }
    {
        self.rotate(&p, true);
    }

    /// The number of qubits, 1 to 3.
    pub fn qubits(&self) -> u8
        ensures value { result ≡ self.now.qubits }
        ensures some { 0 < result }
        ensures few { result ≤ 3 }
        ensures valid { IsChannelGrid self.now }
    {
        self.n
    }

    /// The power of √2 by which every cell is divided.
    pub fn exponent(&self) -> u32
        ensures value { result ≡ self.now.exponent }
        ensures low { result ≤ most_exponent }
    {
        self.k
    }

    /// The cell at a row and a column, before it is divided.
    pub fn cell(&self, row: usize, col: usize) -> Root2
        requires row { row < 4 ^ self.now.qubits }
        requires col { col < 4 ^ self.now.qubits }
        ensures value { surd_of result ≡ table_of self.now row col }
        ensures small { SurdWithin (2 ^ 60) (surd_of result) }
        ensures norm { HasNorm (4 ^ self.now.qubits) self.now.exponent (table_of self.now) }
    {
        cell_at(&self.cells, codes(self.n), row, col)
    }

    /// The cells of a row, before they are divided.
    pub fn row(&self, row: usize) -> &[Root2]
        requires { row < 4 ^ self.now.qubits }
        ensures len { length result.now ≡ 4 ^ self.now.qubits }
        ensures cells { (c : ℕ) → c < 4 ^ self.now.qubits
            → cell_of result.now c ≡ table_of self.now row c }
        ensures small { RowWithin (2 ^ 60) result.now }
        ensures norm { HasNorm (4 ^ self.now.qubits) self.now.exponent (table_of self.now) }
    {
        let size = codes(self.n);
        &self.cells[row * size..(row + 1) * size]
    }

    /// The cells, row by row, before they are divided.
    pub(crate) fn cells(&self) -> &[Root2]
        ensures cells { result.now ≡ self.now.cells }
        ensures valid { IsChannelGrid self.now }
    {
        &self.cells
    }

    /// Makes the channel into that of a narrow one, of as many qubits.
    pub fn copy_from_narrow(&mut self, o: &Narrow)
        requires { self.old.qubits ≡ o.now.qubits }
        ensures { self.new ≡ o.now }
    {
        self.k = o.exponent();
        o.write_cells(&mut self.cells);
    }

    /// Makes the channel into another of as many qubits.
    pub fn copy_from(&mut self, o: &Channel)
        requires { self.old.qubits ≡ o.now.qubits }
        ensures { self.new ≡ o.now }
    {
        self.k = o.k;
        self.cells.copy_from_slice(&o.cells);
    }

    /// Makes the channel into the conjugation's channel times another one, on as many qubits: each row of the other one
    /// goes to the row of its image, with the image's sign. It takes no memory.
    pub fn conjugate_from(&mut self, o: &Channel, by: &Conjugation)
        requires same { self.old.qubits ≡ o.now.qubits }
        requires as_many { by.now.qubits ≡ o.now.qubits }
        ensures qubits { self.new.qubits ≡ o.now.qubits }
        ensures exponent { self.new.exponent ≡ o.now.exponent }
        ensures rows { MovesRows by.now (table_of o.now) (table_of self.new) }
        ensures built { (gates : List ChannelGate) → IsConjugationBy gates by.now
            → (steps : List Step) → IsBuiltOf o.now.qubits steps (scaled o.now)
            → IsBuiltOf o.now.qubits (steps ++ gate_steps gates) (scaled self.new) }
    {
        self.k = o.k;
        conjugate_rows(&mut self.cells, &o.cells, by);
    }

    /// Divides the cells by √2 as often as all of them can be divided, at most as often as the exponent says: the value
    /// stays, and the exponent becomes the least one.
    pub fn reduce(&mut self)
        ensures qubits { self.new.qubits ≡ self.old.qubits }
        ensures exponent { self.new.exponent ≤ self.old.exponent }
        ensures value { SameTable self.old.qubits (scaled self.new) (scaled self.old) }
        ensures reduced { IsReduced self.new }
        ensures least { (m : ScaledTable) → SameTable self.old.qubits m (scaled self.new)
            → self.new.exponent ≤ m.exponent }
        ensures built { (steps : List Step) → IsBuiltOf self.old.qubits steps (scaled self.old)
            → IsBuiltOf self.old.qubits steps (scaled self.new) }
    {
        self.k = divide_out(&mut self.cells, self.k);
    }

    /// Whether the table, as it stands, is a signed permutation: no power of √2, and in each row and each column one cell
    /// 1 or −1 and else 0. A table that can be divided by √2 is none; reduce it first.
    pub fn signed_permutation(&self) -> bool
        ensures { IsTrue result ↔ IsSignedPermutation self.now }
    {
        self.k == 0 && is_signed_permutation(&self.cells, codes(self.n))
    }

    /// The Pauli with a sign to which a signed permutation takes `p`: the row of the one cell of the column of `p`, and
    /// whether that cell is −1.
    pub fn image(&self, p: Pauli) -> SignedPauli
        requires permutation { IsSignedPermutation self.now }
        requires same { p.qubits ≡ self.now.qubits }
        ensures code { result.code < 4 ^ self.now.qubits }
        ensures cell { table_of self.now result.code p.code ≡ signed result.is_negative one_surd }
    {
        unit_of_column(&self.cells, codes(self.n), p.code() as usize)
    }
}
