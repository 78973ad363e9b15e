//! Words, signs and tokens.

/// A word or a sign that the grammar names.
#[derive(Clone, Copy, Debug, PartialEq, Eq)]
pub enum Mark {
    Library,
    Use,
    All,
    Entity,
    Is,
    Port,
    In,
    Out,
    End,
    Architecture,
    Of,
    Begin,
    Not,
    And,
    Or,
    Xor,
    /// `ieee`
    Ieee,
    /// `std_logic`
    StdLogic,
    /// Any other reserved word of IEEE 1076-1993, clause 13.9.
    Reserved,
    /// `;`
    Semicolon,
    /// `.`
    Dot,
    /// `(`
    Open,
    /// `)`
    Close,
    /// `:`
    Colon,
    /// `,`
    Comma,
    /// `<=`
    Arrow,
    /// `'0'`
    Zero,
    /// `'1'`
    One,
}

/// What a token is. The text of a name has its letters folded to lower case.
#[derive(Clone, Copy)]
pub enum Symbol<'a> {
    Name(&'a [u8]),
    Mark(Mark),
    /// A byte that starts no token of the grammar.
    Other(u8),
}

/// A token and the offset of its first byte.
#[derive(Clone, Copy)]
pub struct Token<'a> {
    pub symbol: Symbol<'a>,
    pub at: usize,
}
