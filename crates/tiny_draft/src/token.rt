//! Tokens, each with its line.

/// A sign or a reserved word.
#[derive(Clone, Copy, Debug, PartialEq, Eq)]
pub enum Sign {
    Open,
    Close,
    Begin,
    End,
    Comma,
    Semicolon,
    Assign,
    Equal,
    Different,
    Less,
    Plus,
    Minus,
    And,
    Or,
    Fn,
    Var,
    If,
    Else,
    While,
    Return,
    Put,
    Get,
    Halt,
}

/// What a token is.
#[derive(Clone, Copy)]
pub enum Kind {
    /// A name, by its number among the names of the text.
    Name(u32),
    Number(u32),
    Of(Sign),
    /// Bytes that are no token.
    Bad,
    /// A number that cannot be read.
    Unread,
}

#[derive(Clone, Copy)]
pub struct Token {
    pub kind: Kind,
    pub line: u32,
}
