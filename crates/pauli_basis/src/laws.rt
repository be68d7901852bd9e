//! Laws of the products of Pauli operators, on codes.
//!
//! Each of these functions does nothing. Its contract is the law, for a caller's proof to use.
ghost use Rattle.std.specs.Prelude.{◌≡◌, ◌+◌, ◌%◌, not, false};
ghost use Rattle.pauli_basis.specs.Products.{product_code, turns, commute, anti_sign};

use crate::Pauli;

/// (P·Q)·R is P·(Q·R): the same code, and the same turns up to four.
pub fn products_associate(p: &Pauli, q: &Pauli, r: &Pauli)
    requires left { p.now.qubits ≡ q.now.qubits }
    requires right { q.now.qubits ≡ r.now.qubits }
    ensures code { product_code (product_code p.now.code q.now.code) r.now.code
        ≡ product_code p.now.code (product_code q.now.code r.now.code) }
    ensures turns { (turns p.now.qubits p.now.code q.now.code
        + turns p.now.qubits (product_code p.now.code q.now.code) r.now.code) % 4
        ≡ (turns p.now.qubits q.now.code r.now.code
        + turns p.now.qubits p.now.code (product_code q.now.code r.now.code)) % 4 }
{}

/// P·P is the identity, with no turn.
pub fn square_is_identity(p: &Pauli)
    ensures code { product_code p.now.code p.now.code ≡ 0 }
    ensures turns { turns p.now.qubits p.now.code p.now.code ≡ 0 }
{}

/// Where −i·P·Q = σ·S, P anticommutes with S too, and −i·P·S = −σ·Q.
pub fn anti_image_turns_back(p: &Pauli, q: &Pauli)
    requires same { p.now.qubits ≡ q.now.qubits }
    requires anticommute { commute p.now.qubits p.now.code q.now.code ≡ false }
    ensures anticommute { commute p.now.qubits p.now.code (product_code p.now.code q.now.code) ≡ false }
    ensures code { product_code p.now.code (product_code p.now.code q.now.code) ≡ q.now.code }
    ensures sign { anti_sign p.now.qubits p.now.code (product_code p.now.code q.now.code)
        ≡ not (anti_sign p.now.qubits p.now.code q.now.code) }
{}
