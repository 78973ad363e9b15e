//! Tokens.

/// A token and its offset.
#[derive(Clone, Copy)]
pub struct Token<'t> {
    pub kind: Kind<'t>,
    pub at: u64,
}

/// What a token is.
#[derive(Clone, Copy)]
pub enum Kind<'t> {
    Name(&'t [u8]),
    Word(Word),
    Number(u32),
    /// Bits, by their digits.
    Bits(&'t [u8]),
    Sign(Sign),
    /// The end of the text.
    End,
}

/// The words of the grammar.
#[derive(Clone, Copy, PartialEq, Eq)]
pub enum Word {
    Always,
    Assign,
    Begin,
    Case,
    Default,
    Else,
    End,
    Endcase,
    Endfunction,
    Endmodule,
    Function,
    If,
    Inout,
    Input,
    Module,
    Negedge,
    Or,
    Output,
    Posedge,
    Reg,
    Wire,
    /// A reserved word that is none of the grammar's.
    Other,
}

impl Word {
    /// The word of this text, which is reserved.
    pub fn of(text: &[u8]) -> Word {
        match text {
            b"always" => Word::Always,
            b"assign" => Word::Assign,
            b"begin" => Word::Begin,
            b"case" => Word::Case,
            b"default" => Word::Default,
            b"else" => Word::Else,
            b"end" => Word::End,
            b"endcase" => Word::Endcase,
            b"endfunction" => Word::Endfunction,
            b"endmodule" => Word::Endmodule,
            b"function" => Word::Function,
            b"if" => Word::If,
            b"inout" => Word::Inout,
            b"input" => Word::Input,
            b"module" => Word::Module,
            b"negedge" => Word::Negedge,
            b"or" => Word::Or,
            b"output" => Word::Output,
            b"posedge" => Word::Posedge,
            b"reg" => Word::Reg,
            b"wire" => Word::Wire,
            _ => Word::Other,
        }
    }
}

/// The signs of the grammar.
#[derive(Clone, Copy, PartialEq, Eq)]
pub enum Sign {
    Open,
    Close,
    OpenBracket,
    CloseBracket,
    OpenBrace,
    CloseBrace,
    Semicolon,
    Comma,
    Point,
    Colon,
    Question,
    At,
    Assign,
    PlusColon,
    Tilde,
    And,
    Or,
    Xor,
    Plus,
    Minus,
    Star,
    Less,
    LessOrEqual,
    Greater,
    GreaterOrEqual,
    Equal,
    NotEqual,
    Same,
    NotSame,
}
