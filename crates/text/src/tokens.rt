// The tokens of a text, each with where it stands. Relies on std alone.

// A line and a column, both from 1. A tab is one column.
#[derive(Clone, Copy, PartialEq, Eq, Debug)]
pub struct Spot {
    pub line: usize,
    pub column: usize,
}

#[derive(Clone, Copy, PartialEq, Eq, Debug)]
pub enum Kind {
    Decl,
    Void,
    Begin,
    End,
    Skip,
    Goto,
    If,
    Return,
    Name,
    Zero,
    One,
    Not,
    And,
    Or,
    Equal,
    Differ,
    Opening,
    Closing,
    Comma,
    Semicolon,
    Colon,
    Becomes,
    Star,
    // A word that begins with a digit and is neither 0 nor 1.
    Number,
    // A byte that begins no token.
    Stray,
    // Behind the last token.
    Finish,
}

// A token: its kind, where it stands, its first byte and the byte after its last.
#[derive(Clone, Copy, PartialEq, Eq, Debug)]
pub struct Token {
    pub kind: Kind,
    pub spot: Spot,
    pub start: usize,
    pub end: usize,
}

impl Token {
    // The bytes of the token in its text.
    pub fn word<'a>(&self, text: &'a [u8]) -> &'a [u8] {
        text.get(self.start..self.end).unwrap_or(&[])
    }
}
