// The channel of a unitary, in rows of numbers of sixteen bits.
ghost use Rattle.std.specs.Prelude.{◌≡◌, ◌≢◌, ℕ, ◌+◌, ◌*◌, ◌^◌, ◌<◌, ◌≤◌, ◌↔◌, List, [], ◌∷◌, ◌++◌, length, true, false, IsTrue, IfOk};
ghost use Rattle.ring_laws.specs.Matrix.{product, identity, Agree};
ghost use Rattle.tc_ring.specs.Surds.{surds, surd, SurdWithin};
ghost use Rattle.channel_rep.specs.Norms.{HasNorm};
ghost use Rattle.channel_rep.specs.Tables.{Step, by_rotation, by_inverse_rotation, rotation_table, ScaledTable, SameTable, IsBuiltOf};
ghost use Rattle.channel_rep.specs.Parts.{most_narrow_exponent, IsNarrowGrid};

use crate::Channel;
use crate::parts::{divide_parts, join, parts_at, split, write_identity};
use crate::steps::codes;
use crate::turns::rotate_parts;
use pauli_basis::Pauli;
use std::alloc::{AllocError, Global};
use std::marker::Model;
use tc_ring::Root2;

/// The largest exponent of a channel in numbers of sixteen bits.
pub const MOST_NARROW_EXPONENT: u32 = 28;

/// The channel of a unitary on one to three qubits, as a [`Channel`] is, in numbers of sixteen bits. Its rotations turn
/// sixteen pairs of cells at once.
///
/// Its exponent k is at most `MOST_NARROW_EXPONENT`. Over the cells a + b·√2 of each column a² + 2b² has the sum 2^k, so both
/// numbers of each cell are at most 2^14 in absolute value. The numbers a stand row by row in one list, and the numbers b in
/// another.
#[derive(Drop)]
pub struct Narrow {
    n: u8,
    k: u32,
    a: Vec<i16>,
    b: Vec<i16>,
}

impl Model for Narrow {
    ghost use Rattle.channel_rep.specs.Cells.{ChannelGrid};
    ghost use Rattle.channel_rep.specs.Parts.{narrow_grid, IsNarrow};

    ghost Value = { ChannelGrid };

    ghost view = { λ m. narrow_grid m.n m.k m.a.items m.b.items };

    ghost invariant = { λ m. IsNarrow m.n m.k m.a.items m.b.items };
}

impl Narrow {
    ghost use Rattle.channel_rep.specs.Cells.{table_of, scaled, IsReduced, IsSignedPermutation};

    /// The identity on n qubits, with exponent 0.
    pub fn new(alloc: Global, n: u8) -> Result<Narrow, AllocError>
        requires some { 0 < n }
        requires few { n ≤ 3 }
        ensures qubits { IfOk result (λ m. m.qubits ≡ n) }
        ensures exponent { IfOk result (λ m. m.exponent ≡ 0) }
        ensures table { IfOk result (λ m. Agree surds (4 ^ n) (table_of m) (identity surds)) }
        ensures built { IfOk result (λ m. IsBuiltOf n [] (scaled m)) }
    {
        let size = codes(n);
        let mut a = vec![in alloc; 0i16; size * size]?;
        let mut b = vec![in alloc; 0i16; size * size]?;
        write_identity(&mut a, &mut b, size);
        Ok(Narrow { n, k: 0, a, b })
    }

    /// Makes the channel into the identity, in place.
    pub fn make_identity(&mut self)
        ensures qubits { self.new.qubits ≡ self.old.qubits }
        ensures exponent { self.new.exponent ≡ 0 }
        ensures table { Agree surds (4 ^ self.old.qubits) (table_of self.new) (identity surds) }
        ensures built { IsBuiltOf self.old.qubits [] (scaled self.new) }
    {
        write_identity(&mut self.a, &mut self.b, codes(self.n));
        self.k = 0;
    }

    /// Makes the channel into another of as many qubits, whose exponent isn't too large.
    pub fn take(&mut self, c: &Channel)
        requires same { self.old.qubits ≡ c.now.qubits }
        requires low { c.now.exponent ≤ most_narrow_exponent }
        ensures { self.new ≡ c.now }
    {
        self.k = c.exponent();
        split(c.cells(), &mut self.a, &mut self.b);
    }

    /// Makes the channel into another of as many qubits.
    pub fn copy_from(&mut self, o: &Narrow)
        requires { self.old.qubits ≡ o.now.qubits }
        ensures { self.new ≡ o.now }
    {
        self.k = o.k;
        self.a.copy_from_slice(&o.a);
        self.b.copy_from_slice(&o.b);
    }

    /// Makes the channel into the rotation's channel times it, in place, or into that of the rotation's inverse.
    fn rotate(&mut self, p: &Pauli, inverse: bool)
        requires same { p.now.qubits ≡ self.old.qubits }
        requires other { p.now.code ≢ 0 }
        requires room { self.old.exponent < most_narrow_exponent }
        ensures qubits { self.new.qubits ≡ self.old.qubits }
        ensures exponent { self.new.exponent ≡ 1 + self.old.exponent }
        ensures table { Agree surds (4 ^ self.old.qubits) (table_of self.new)
            (product surds (4 ^ self.old.qubits)
            (rotation_table self.old.qubits inverse p.now.code) (table_of self.old)) }
    {
        rotate_parts(&mut self.a, &mut self.b, p, inverse);
        self.k += 1;
    }

    /// Makes the channel into that of the rotation R(p) times it, in place.
    pub fn left_rotation(&mut self, p: Pauli)
        requires same { p.qubits ≡ self.old.qubits }
        requires other { p.code ≢ 0 }
        requires room { self.old.exponent < most_narrow_exponent }
        ensures qubits { self.new.qubits ≡ self.old.qubits }
        ensures exponent { self.new.exponent ≡ 1 + self.old.exponent }
        ensures table { Agree surds (4 ^ self.old.qubits) (table_of self.new)
            (product surds (4 ^ self.old.qubits)
            (rotation_table self.old.qubits false p.code) (table_of self.old)) }
        ensures built { (steps : List Step) → IsBuiltOf self.old.qubits steps (scaled self.old)
            → IsBuiltOf self.old.qubits (steps ++ by_rotation p.code ∷ []) (scaled self.new) }
    {
        self.rotate(&p, false);
    }

    /// Makes the channel into that of the inverse of the rotation R(p) times it, in place.
    pub fn left_rotation_inverse(&mut self, p: Pauli)
        requires same { p.qubits ≡ self.old.qubits }
        requires other { p.code ≢ 0 }
        requires room { self.old.exponent < most_narrow_exponent }
        ensures qubits { self.new.qubits ≡ self.old.qubits }
        ensures exponent { self.new.exponent ≡ 1 + self.old.exponent }
        ensures table { Agree surds (4 ^ self.old.qubits) (table_of self.new)
            (product surds (4 ^ self.old.qubits)
            (rotation_table self.old.qubits true p.code) (table_of self.old)) }
        ensures built { (steps : List Step) → IsBuiltOf self.old.qubits steps (scaled self.old)
            → IsBuiltOf self.old.qubits (steps ++ by_inverse_rotation p.code ∷ []) (scaled self.new) }
    {
        self.rotate(&p, true);
    }

    /// The number of qubits, 1 to 3.
    pub fn qubits(&self) -> u8
        ensures value { result ≡ self.now.qubits }
        ensures some { 0 < result }
        ensures few { result ≤ 3 }
        ensures valid { IsNarrowGrid self.now }
    {
        self.n
    }

    /// The power of √2 by which every cell is divided.
    pub fn exponent(&self) -> u32
        ensures value { result ≡ self.now.exponent }
        ensures low { result ≤ most_narrow_exponent }
    {
        self.k
    }

    /// The numbers a and b of the cell a + b·√2 at a row and a column, before it is divided.
    pub fn cell(&self, row: usize, col: usize) -> (i16, i16)
        requires row { row < 4 ^ self.now.qubits }
        requires col { col < 4 ^ self.now.qubits }
        ensures value { surd result.0 result.1 ≡ table_of self.now row col }
        ensures small { SurdWithin (2 ^ 14) (surd result.0 result.1) }
        ensures norm { HasNorm (4 ^ self.now.qubits) self.now.exponent (table_of self.now) }
    {
        parts_at(&self.a, &self.b, codes(self.n), row, col)
    }

    /// Writes the cells, row by row.
    pub(crate) fn write_cells(&self, cells: &mut [Root2])
        requires { length cells.old ≡ 4 ^ self.now.qubits * 4 ^ self.now.qubits }
        ensures cells { cells.new ≡ self.now.cells }
        ensures valid { IsNarrowGrid self.now }
    {
        join(&self.a, &self.b, cells);
    }

    /// Divides the cells by √2 as often as all of them can be divided, at most as often as the exponent says: the value
    /// stays, and the exponent becomes the least one.
    pub fn reduce(&mut self)
        ensures qubits { self.new.qubits ≡ self.old.qubits }
        ensures exponent { self.new.exponent ≤ self.old.exponent }
        ensures value { SameTable self.old.qubits (scaled self.new) (scaled self.old) }
        ensures reduced { IsReduced self.new }
        ensures least { (m : ScaledTable) → SameTable self.old.qubits m (scaled self.new)
            → self.new.exponent ≤ m.exponent }
        ensures built { (steps : List Step) → IsBuiltOf self.old.qubits steps (scaled self.old)
            → IsBuiltOf self.old.qubits steps (scaled self.new) }
    {
        self.k = divide_parts(&mut self.a, &mut self.b, self.k);
    }

    /// Whether the table, as it stands, is a signed permutation: no power of √2, and in each row and each column one cell
    /// 1 or −1 and else 0. With no power of √2 it always is, by the norms of its columns. A table that can be divided by √2 is
    /// none; reduce it first.
    pub fn signed_permutation(&self) -> bool
        ensures { IsTrue result ↔ IsSignedPermutation self.now }
    {
        self.k == 0
    }
}
