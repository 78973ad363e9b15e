//! The signs.

/// A sign of VHDL.
#[derive(Clone, Copy, Debug, PartialEq, Eq)]
pub enum Sign {
    /// `;`
    Semicolon,
    /// `,`
    Comma,
    /// `.`
    Dot,
    /// `(`
    Open,
    /// `)`
    Close,
    /// `:`
    Colon,
    /// `:=`
    Becomes,
    /// `<>`
    Unconstrained,
    /// `<=`
    LessEqual,
    /// `=>`
    Arrow,
    /// `|`
    Bar,
    /// `=`
    Equal,
    /// `/=`
    NotEqual,
    /// `<`
    Less,
    /// `>`
    Greater,
    /// `>=`
    GreaterEqual,
    /// `+`
    Plus,
    /// `-`
    Minus,
    /// `&`
    Ampersand,
    /// `*`
    Star,
    /// `/`
    Slash,
    /// `**`
    StarStar,
    /// `'`
    Tick,
}
