// Columns' numbers from their halves, and the lead rows that they tell.
ghost use Rattle.std.specs.Prelude.{◌≡◌, ℕ, ◌+◌, ◌*◌, ◌^◌, ◌<◌, ◌≤◌, ℤ, pos, ◌+ℤ◌, ◌*ℤ◌, nat_abs, if◌then◌else◌, length, slice_index};
ghost use Rattle.label_laws.specs.Congruence.{IsCongruent};

/// The number whose halves these are, modulo 2^64: the high half counts 2^64 times, and both are below 2^63 in absolute value.
/// Where `halve` is set, the halves are those of twice the number.
pub fn number_of(high: u64, low: u64, halve: bool) -> i128
    ensures { (x y z : ℤ) → IsCongruent (2 ^ 64) x high → IsCongruent (2 ^ 64) y low → nat_abs x < 2 ^ 63 → nat_abs y < 2 ^ 63
        → x *ℤ pos (2 ^ 64) +ℤ y ≡ (if halve then pos 2 *ℤ z else z) → result ≡ z }
{
    let whole = (i128::from(high.cast_signed()) << 64).wrapping_add(i128::from(low.cast_signed()));
    if halve { whole / 2 } else { whole }
}

/// The lead row of a column, by its number: as many rows of its block stand behind it as the number has digits to the base
/// 256 behind the first one other than 0. `rows` are the rows of the block, the last one first. Where there is no such row,
/// row 0.
pub fn lead_of(rows: &[u8], number: i128) -> u8
    ensures { (behind : ℕ) → 256 ^ behind ≤ 2 * nat_abs number → 2 * nat_abs number < 256 ^ (behind + 1) → behind < length rows.now
        → result ≡ slice_index rows.now behind }
{
    let bits = 128 - number.unsigned_abs().leading_zeros();
    let behind = (bits / 8) as usize;
    if behind < rows.len() { rows[behind] } else { 0 }
}
