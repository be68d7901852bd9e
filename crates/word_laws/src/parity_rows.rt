// How often a rotation's product can be divided by √2, from the parities of the numbers before.
ghost use Rattle.std.specs.Prelude.{◌≡◌, ℕ, ◌<◌, ◌↔◌, length, slice_index, slice_index_or, true, false, Bool, IsTrue};
ghost use Rattle.pauli_basis.specs.Products.{product_code};
ghost use Rattle.channel_rep.specs.Rows.{rotated};
ghost use Rattle.channel_rep.specs.Tables.{SurdTable};
ghost use Rattle.word_laws.specs.Divisions.{IsDivisionCount};
ghost use Rattle.word_laws.specs.Parities.{AreParities};

/// Whether each row that anticommutes has the word of its partner.
fn pairs_agree(words: &[u64], commutes: &[bool], p: usize) -> bool
    requires long { length commutes.now ≡ length words.now }
    requires closed { (row : ℕ) → row < length words.now → product_code p row < length words.now }
    ensures { IsTrue result
        ↔ ((row : ℕ) → row < length words.now → slice_index_or commutes.now row false ≡ false
        → slice_index words.now row ≡ slice_index words.now (product_code p row)) }
{
    for row in 0..words.len() {
        if !commutes[row] && words[row] != words[p ^ row] {
            return false;
        }
    }
    true
}

/// Whether the words of the rows that commute are 0.
fn commuting_even(words: &[u64], commutes: &[bool]) -> bool
    requires { length commutes.now ≡ length words.now }
    ensures { IsTrue result
        ↔ ((row : ℕ) → row < length words.now → slice_index_or commutes.now row false ≡ true → slice_index words.now row ≡ 0) }
{
    for row in 0..words.len() {
        if commutes[row] && words[row] != 0 {
            return false;
        }
    }
    true
}

/// How often the product of a rotation by P, or of its inverse, and a table can be divided by √2: 0, 1, or 2 for at least twice.
/// The least exponent behind the letter is the one before and 1, less that. The parities of the table's numbers stand in words, a
/// word a row and a bit a column: `wholes` has those of the whole parts and `parts` those of the parts of √2. `commutes` says which
/// rows commute with P, whose code is `p`.
pub fn divisions(wholes: &[u64], parts: &[u64], commutes: &[bool], p: usize) -> u8
    requires parts { length parts.now ≡ length wholes.now }
    requires long { length commutes.now ≡ length wholes.now }
    requires closed { (row : ℕ) → row < length wholes.now → product_code p row < length wholes.now }
    ensures { (n : ℕ) (inverse : Bool) (m : SurdTable) → AreParities n p m wholes.now parts.now commutes.now → IsDivisionCount n (rotated n inverse p m) result }
{
    if !pairs_agree(wholes, commutes, p) {
        return 0;
    }
    if !commuting_even(wholes, commutes) {
        return 1;
    }
    if !pairs_agree(parts, commutes, p) {
        return 1;
    }
    2
}
