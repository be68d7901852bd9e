// Tokens and their kinds.

/// The kind of a token.
#[derive(Clone, Copy, Debug, PartialEq, Eq)]
pub enum Kind {
    /// A name or a word of the language: a letter or `_`, then letters, digits and `_`.
    Ident,
    /// Digits, or digits with a point between them.
    Number,
    /// A text between two `"` of one line, both included.
    Quoted,
    /// `;`
    Semi,
    /// `,`
    Comma,
    /// `[`
    LeftBracket,
    /// `]`
    RightBracket,
    /// `{`
    LeftBrace,
    /// `}`
    RightBrace,
    /// `(`
    LeftParen,
    /// `)`
    RightParen,
    /// One of `+ - * / ^ > = .`
    Other,
}

/// A token of a text: the bytes `text[start..end]`, with places counted from 0.
#[derive(Clone, Copy, Debug, PartialEq, Eq)]
pub struct Token {
    /// What the bytes are.
    pub kind: Kind,
    /// The place of the first byte.
    pub start: usize,
    /// The place behind the last byte.
    pub end: usize,
}
