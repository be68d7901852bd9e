// Tags: the fold of a label's numbers, by columns. The fold is a polynomial modulo 2^38, so each column has a fold of its
// own, whatever place and sign it comes to have.
ghost use Rattle.std.specs.Prelude.{◌≡◌, ℕ, ◌+◌, ◌*◌, ◌/◌, ◌%◌, ◌^◌, ◌<◌, ◌≤◌, length, fold, All, slice_index};
ghost use Rattle.channel_rep.specs.Cells.{cell_of};
ghost use Rattle.coset_label.specs.Tags.{fold_number, label_numbers};
ghost use Rattle.coset_label.specs.Scratch.{IsArranged, kept_label};
ghost use Rattle.coset_label.specs.Sums.{AreSums, turned_sum, joined_sums};

use crate::columns::columns_of;
use channel_rep::Channel;
use tc_ring::Root2;

/// The base of the polynomial that a tag is.
const BASE: u64 = 1_000_003;

/// The low 38 bits.
const LOW_BITS: u64 = (1 << 38) - 1;

/// Takes one row's cells more into the columns' folds.
fn add_row(line: &[Root2], sums: &mut [u64])
    requires { length line.now ≡ length sums.old }
    ensures { (c : ℕ) → c < length sums.old → slice_index sums.new c % 2 ^ 38
        ≡ fold_number (fold_number (slice_index sums.old c) (cell_of line.now c).a) (cell_of line.now c).b }
{
    for c in 0..line.len() {
        let cell = line[c];
        sums[c] = sums[c]
            .wrapping_mul(BASE)
            .wrapping_add(cell.a.cast_unsigned())
            .wrapping_mul(BASE)
            .wrapping_add(cell.b.cast_unsigned());
    }
}

/// The folds of all columns, modulo 2^64.
fn add_rows(channel: &Channel, size: usize, sums: &mut [u64])
    requires size { size ≡ 4 ^ channel.now.qubits }
    requires columns { length sums.old ≡ size }
    requires zeros { All (λ sum. sum ≡ 0) sums.old }
    ensures { AreSums channel.now sums.new }
{
    for row in 0..size {
        add_row(channel.row(row), sums);
    }
}

/// What one column more multiplies the fold by, modulo 2^64.
fn column_power(n: u8) -> u64
    requires { n ≤ 3 }
    ensures { result ≡ 1000003 ^ (2 * 4 ^ n) % 2 ^ 64 }
{
    let mut power = BASE;
    for _ in 0..2 * n + 1 {
        power = power.wrapping_mul(power);
    }
    power
}

/// A column's fold, or that of its negative, modulo 2^64.
fn with_sign(sum: u64, negative: bool) -> u64
    ensures { result ≡ turned_sum negative sum % 2 ^ 64 }
{
    if negative { sum.wrapping_neg() } else { sum }
}

/// The columns' folds with their signs, one after another, modulo 2^64.
fn join_sums(first: u64, power: u64, sums: &[u64], negative: &[bool], order: &[u8]) -> u64
    requires signs { length negative.now ≡ length sums.now }
    requires below { All (λ column. column < length sums.now) order.now }
    ensures { result ≡ joined_sums power sums.now negative.now first order.now }
{
    let mut f = first;
    for place in 0..order.len() {
        let column = order[place] as usize;
        f = f
            .wrapping_mul(power)
            .wrapping_add(with_sign(sums[column], negative[column]));
    }
    f
}

/// The fold of a label's numbers, in room for the columns' folds.
fn fold_columns(channel: &Channel, negative: &[bool], order: &[u8], sums: &mut [u64]) -> u64
    requires kept { IsArranged channel.now negative.now order.now }
    requires columns { length sums.old ≡ 4 ^ channel.now.qubits }
    requires zeros { All (λ sum. sum ≡ 0) sums.old }
    ensures { result % 2 ^ 38
        ≡ fold fold_number 0 (label_numbers (kept_label channel.now negative.now order.now)) }
{
    let n = channel.qubits();
    add_rows(channel, columns_of(n), sums);
    join_sums(
        channel.exponent() as u64,
        column_power(n),
        sums,
        negative,
        order,
    )
}

/// The fold of a label's numbers, modulo 2^64.
pub fn label_fold(channel: &Channel, negative: &[bool], order: &[u8]) -> u64
    requires { IsArranged channel.now negative.now order.now }
    ensures { result % 2 ^ 38
        ≡ fold fold_number 0 (label_numbers (kept_label channel.now negative.now order.now)) }
{
    let mut sums = [0u64; 64];
    fold_columns(
        channel,
        negative,
        order,
        &mut sums[..columns_of(channel.qubits())],
    )
}

/// The tag of a fold.
pub fn mix(fold: u64) -> u64
    ensures { result ≡ (fold % 2 ^ 38 + fold % 2 ^ 38 / 2 ^ 19) % 2 ^ 38 }
{
    let f = fold & LOW_BITS;
    (f + (f >> 19)) & LOW_BITS
}
