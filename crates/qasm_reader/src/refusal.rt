// The reasons for which a text is refused.

/// Why a text is refused; the number of a reason is its discriminant. Numbers 13 to 16 and 19 are no reasons of a reader: the
/// top call refuses by 13 to 16 what it reads and can't answer, and 19 isn't used.
#[derive(Clone, Copy)]
pub enum Refusal {
    // The text doesn't begin with the header.
    Header = 1,
    // A byte is neither skipped nor in a token.
    BadByte = 2,
    // The statement hasn't its end or no form, or a gate has another number of arguments than it takes.
    Statement = 3,
    // The gate isn't known.
    UnknownGate = 4,
    // An argument is of no register of qubits.
    UnknownRegister = 5,
    // A size is 0, or an index isn't below its register's size.
    Index = 6,
    // A gate names one qubit twice.
    SameQubit = 7,
    // There are more than three qubits, or none.
    Qubits = 8,
    // There are more than 120 T gates.
    TooManyT = 9,
    // There are more than 4,096 statements.
    TooLong = 10,
    // A statement of OpenQASM 2.0 that this reader leaves out.
    NotInProfile = 11,
    // A register's name was declared before, qubits are declared behind a gate, or a gate's name is known, or `u1` or `rz`.
    TwoNames = 12,
    // A definition's names hold one twice, or an entry of its body holds another name or misuses a gate.
    Body = 17,
    // A defined gate stands for more than 10,000 gates, or there are more than 100,000.
    TooManyGates = 18,
    // An angle is no whole number of eighths of a full turn.
    Angle = 20,
}

impl Refusal {
    ghost use Rattle.std.specs.Prelude.{◌≡◌};
    ghost use Rattle.qasm_reader.specs.Refusals.{number_of};

    /// The number of the reason, 1 to 12, 17, 18 or 20.
    pub fn number(self) -> u8
        ensures { result ≡ number_of self }
    {
        self as u8
    }
}
