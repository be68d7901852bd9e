// Spans of letters, letter by letter.
ghost use Rattle.std.specs.Prelude.{◌≡◌, ℕ, ◌^◌, ◌<◌, ◌≤◌, List, [], ◌∷◌, length};
ghost use Rattle.pauli_basis.specs.Products.{product_code};
ghost use Rattle.quick_label.specs.Spans.{AreSpan};

/// How many codes there are on n qubits, 4^n.
pub fn codes(n: u8) -> usize
    requires { n ≤ 3 }
    ensures value { result ≡ 4 ^ n }
    ensures some { 0 < result }
    ensures few { result ≤ 64 }
{
    1 << (2 * n)
}

/// Makes the span that of no letters, which holds the identity alone.
pub fn empty_span(span: &mut [bool])
    requires { 0 < length span.old }
    ensures { (n : ℕ) → length span.old ≡ 4 ^ n → AreSpan n [] span.new }
{
    span.fill(false);
    span[0] = true;
}

/// Makes `wider` into the span with one letter more, whose code is `p`.
pub fn widen(span: &[bool], p: usize, wider: &mut [bool])
    requires long { length wider.old ≡ length span.now }
    requires closed { (v : ℕ) → v < length span.now → product_code p v < length span.now }
    ensures { (n : ℕ) (word : List ℕ) → AreSpan n word span.now → AreSpan n (p ∷ word) wider.new }
{
    for v in 0..span.len() {
        wider[v] = span[v] | span[p ^ v];
    }
}
