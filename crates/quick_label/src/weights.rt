// Weights of rows, modulo 2^64.
ghost use Rattle.std.specs.Prelude.{◌≡◌, ℕ, ◌+◌, ◌*◌, ◌^◌, ◌<◌, ◌≤◌, Bool, false, List, length, IfOk, slice_index, slice_index_or, ℤ, ◌+ℤ◌};
ghost use Rattle.pauli_basis.specs.Products.{product_code, commute, anti_sign};
ghost use Rattle.channel_rep.specs.Tables.{SurdTable};
ghost use Rattle.label_laws.specs.Congruence.{IsCongruent};
ghost use Rattle.label_laws.specs.Folds.{weights, rotated_weights, root2_weights};
ghost use Rattle.label_laws.specs.Sparse.{AreWeights};
ghost use Rattle.label_laws.specs.Totals.{turned_whole};
ghost use Rattle.quick_label.specs.Letters.{HeldWeights, IsWeightRoom, IsWeight, IsDigitWeight};
ghost use Rattle.quick_label.specs.Numbers.{high_weights, low_weights};
ghost use Rattle.quick_label.specs.Rooms.{AreBlocks};
ghost use Rattle.quick_label.specs.Weights.{before_letter};

use crate::blocks::Blocks;
use crate::spans::codes;
use std::alloc::{AllocError, Global};
use std::marker::Model;

/// The base of the polynomial that a tag is.
pub const BASE: u64 = 1_000_003;

/// How often a cell's whole part counts in its digit.
const WHOLE: u64 = 11;

/// A weight for each row, x + y·√2, modulo 2^64: y weighs the whole part of a cell, and x its part of √2.
#[derive(Drop)]
pub struct Weights {
    wholes: Vec<u64>,
    parts: Vec<u64>,
}

impl Model for Weights {
    ghost Value = { HeldWeights };

    ghost view = { λ w. record { wholes = w.wholes.items; parts = w.parts.items } };

    ghost invariant = { λ w. IsWeightRoom (record { wholes = w.wholes.items; parts = w.parts.items }) };
}

/// Fills in the weights of the tag's fold, the last row's first: each is BASE² times the one behind it.
fn fill_fold(wholes: &mut [u64], parts: &mut [u64])
    requires { length parts.old ≡ length wholes.old }
    ensures { AreWeights (length wholes.old) (weights (length wholes.old)) wholes.new parts.new }
{
    let mut power = 1u64;
    let mut row = wholes.len();
    while row > 0 {
        row -= 1;
        let whole = power.wrapping_mul(BASE);
        parts[row] = power;
        wholes[row] = whole;
        power = whole.wrapping_mul(BASE);
    }
}

/// The weight of a row's digit modulo 2^64, for the whole part and the part of √2: of the rows behind it the last ones are left
/// out, and it is 0 but for the eight rows before those.
fn digit_weight(behind: u8, last: u8) -> (u64, u64)
    requires { last ≤ 8 }
    ensures { IsDigitWeight behind last result.0 result.1 }
{
    if behind < last {
        return (0, 0);
    }
    let digits = behind - last;
    if digits >= 8 {
        return (0, 0);
    }
    let power = 1u64 << (8 * digits);
    (power.wrapping_mul(WHOLE), power)
}

/// Fills in the weights of the rows' digits.
fn fill_digits(blocks: &Blocks, last: u8, wholes: &mut [u64], parts: &mut [u64])
    requires few { last ≤ 8 }
    requires wholes { length wholes.old ≡ blocks.now.size }
    requires parts { length parts.old ≡ blocks.now.size }
    ensures { (row : ℕ) → row < blocks.now.size
        → IsDigitWeight (slice_index blocks.now.behind row) last (slice_index wholes.new row) (slice_index parts.new row) }
{
    for row in 0..blocks.size() {
        let (whole, part) = digit_weight(blocks.behind(row), last);
        wholes[row] = whole;
        parts[row] = part;
    }
}

/// A number and another, or its negative, added up modulo 2^64.
fn turned_sum(x: u64, y: u64, negative: bool) -> u64
    ensures { (a b : ℤ) → IsCongruent (2 ^ 64) a x → IsCongruent (2 ^ 64) b y → IsCongruent (2 ^ 64) (a +ℤ turned_whole negative b) result }
{
    if negative {
        x.wrapping_sub(y)
    } else {
        x.wrapping_add(y)
    }
}

/// The weight of a row before a rotation by P, for the whole part and the part of √2, from its own and its partner's: √2 times its
/// own where the row commutes with P, and else its own and its partner's with a sign.
fn rotated_weight(
    own: (u64, u64),
    partner: (u64, u64),
    commutes: bool,
    negative: bool,
) -> (u64, u64)
    ensures { (n p row : ℕ) (w : SurdTable) → commutes ≡ commute n p row → negative ≡ anti_sign n p row
        → IsWeight (w 0 row) own.0 own.1 → IsWeight (w 0 (product_code p row)) partner.0 partner.1
        → IsWeight (rotated_weights n false p w 0 row) result.0 result.1 }
{
    let (whole, part) = own;
    if commutes {
        return (part, whole.wrapping_add(whole));
    }
    (
        turned_sum(whole, partner.0, negative),
        turned_sum(part, partner.1, negative),
    )
}

/// Fills in the weights before a rotation by the letter whose code is `p`.
fn fill_rotated(
    weights: &Weights,
    commuting: &[bool],
    negative: &[bool],
    p: usize,
    wholes: &mut [u64],
    parts: &mut [u64],
)
    requires wholes { length wholes.old ≡ length weights.now.wholes }
    requires parts { length parts.old ≡ length weights.now.wholes }
    requires commuting { length commuting.now ≡ length weights.now.wholes }
    requires negative { length negative.now ≡ length weights.now.wholes }
    requires closed { (row : ℕ) → row < length weights.now.wholes → product_code p row < length weights.now.wholes }
    ensures { (n : ℕ) (w : SurdTable)
        → ((row : ℕ) → row < length weights.now.wholes → slice_index_or commuting.now row false ≡ commute n p row)
        → ((row : ℕ) → row < length weights.now.wholes → slice_index_or negative.now row false ≡ anti_sign n p row)
        → AreWeights (length weights.now.wholes) w weights.now.wholes weights.now.parts
        → AreWeights (length weights.now.wholes) (rotated_weights n false p w) wholes.new parts.new }
{
    let old_wholes = weights.wholes();
    let old_parts = weights.parts();
    for row in 0..wholes.len() {
        let partner = p ^ row;
        let (whole, part) = rotated_weight(
            (old_wholes[row], old_parts[row]),
            (old_wholes[partner], old_parts[partner]),
            commuting[row],
            negative[row],
        );
        wholes[row] = whole;
        parts[row] = part;
    }
}

/// Multiplies weights by √2.
fn multiply_by_root2(wholes: &mut [u64], parts: &mut [u64])
    requires { length parts.old ≡ length wholes.old }
    ensures { (w : SurdTable) → AreWeights (length wholes.old) w wholes.old parts.old
        → AreWeights (length wholes.old) (root2_weights w) wholes.new parts.new }
{
    for row in 0..wholes.len() {
        let whole = wholes[row];
        wholes[row] = parts[row];
        parts[row] = whole.wrapping_add(whole);
    }
}

impl Weights {
    /// Room for weights on n qubits.
    pub fn new(alloc: Global, n: u8) -> Result<Weights, AllocError>
        requires { n ≤ 3 }
        ensures { IfOk result (λ weights. length weights.wholes ≡ 4 ^ n) }
    {
        let size = codes(n);
        let wholes = vec![in alloc; 0u64; size]?;
        let parts = vec![in alloc; 0u64; size]?;
        Ok(Weights { wholes, parts })
    }

    /// The weights of the tag's fold.
    pub fn of_fold(alloc: Global, n: u8) -> Result<Weights, AllocError>
        requires { n ≤ 3 }
        ensures long { IfOk result (λ held. length held.wholes ≡ 4 ^ n) }
        ensures are { IfOk result (λ held. AreWeights (4 ^ n) (weights (4 ^ n)) held.wholes held.parts) }
    {
        let mut weights = Weights::new(alloc, n)?;
        fill_fold(&mut weights.wholes, &mut weights.parts);
        Ok(weights)
    }

    /// The weights of the whole parts, a row's at its place.
    pub fn wholes(&self) -> &[u64]
        ensures { result.now ≡ self.now.wholes }
    {
        &self.wholes
    }

    /// The weights of the parts of √2.
    pub fn parts(&self) -> &[u64]
        ensures value { result.now ≡ self.now.parts }
        ensures long { length result.now ≡ length self.now.wholes }
    {
        &self.parts
    }

    /// Takes the weights of the digits with eight rows or more behind them in their blocks.
    pub fn take_high(&mut self, blocks: &Blocks)
        requires { length self.old.wholes ≡ blocks.now.size }
        ensures long { length self.new.wholes ≡ length self.old.wholes }
        ensures are { (span : List Bool) → AreBlocks blocks.now.size span blocks.now
            → AreWeights blocks.now.size (high_weights blocks.now.size span) self.new.wholes self.new.parts }
    {
        fill_digits(blocks, 8, &mut self.wholes, &mut self.parts);
    }

    /// Takes the weights of the last eight digits of each block.
    pub fn take_low(&mut self, blocks: &Blocks)
        requires { length self.old.wholes ≡ blocks.now.size }
        ensures long { length self.new.wholes ≡ length self.old.wholes }
        ensures are { (span : List Bool) → AreBlocks blocks.now.size span blocks.now
            → AreWeights blocks.now.size (low_weights blocks.now.size span) self.new.wholes self.new.parts }
    {
        fill_digits(blocks, 0, &mut self.wholes, &mut self.parts);
    }

    /// Takes the weights before a letter, whose code is `p`: under them the cells before its rotation have the sums of those behind
    /// it, divided by √2 so often, or twice these sums where it is divided at all.
    pub fn take_before(
        &mut self,
        weights: &Weights,
        commuting: &[bool],
        negative: &[bool],
        p: usize,
        divisions: u8,
    )
        requires long { length self.old.wholes ≡ length weights.now.wholes }
        requires commuting { length commuting.now ≡ length weights.now.wholes }
        requires negative { length negative.now ≡ length weights.now.wholes }
        requires closed { (row : ℕ) → row < length weights.now.wholes → product_code p row < length weights.now.wholes }
        ensures long { length self.new.wholes ≡ length self.old.wholes }
        ensures are { (n : ℕ) (w : SurdTable)
            → ((row : ℕ) → row < length weights.now.wholes → slice_index_or commuting.now row false ≡ commute n p row)
            → ((row : ℕ) → row < length weights.now.wholes → slice_index_or negative.now row false ≡ anti_sign n p row)
            → AreWeights (length weights.now.wholes) w weights.now.wholes weights.now.parts
            → AreWeights (length weights.now.wholes) (before_letter n p divisions w) self.new.wholes self.new.parts }
    {
        fill_rotated(
            weights,
            commuting,
            negative,
            p,
            &mut self.wholes,
            &mut self.parts,
        );
        if divisions == 1 {
            multiply_by_root2(&mut self.wholes, &mut self.parts);
        }
    }
}
