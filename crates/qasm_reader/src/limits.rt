// The limits of a text.

/// The most qubits of a text.
pub const MOST_QUBITS: u8 = 3;

/// The most T gates of a text, once all gates are written out.
pub const MOST_T_GATES: usize = 120;

/// The most gates that a defined gate stands for, once all gates are written out.
pub const MOST_GATES_DEFINED: usize = 10000;

/// The most gates of a text, once all gates are written out.
pub const MOST_GATES: usize = 100000;

/// The most statements of a text behind the header.
pub const MOST_STATEMENTS: usize = 4096;
