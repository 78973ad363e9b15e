//! Laws of the tokens. Each function does nothing: its contract is the law.

ghost use Rattle.std.specs.Prelude.{◌≡◌, List};
ghost use Rattle.vv_gate_lex.specs.Symbols.{Token};
ghost use Rattle.vv_gate_lex.specs.Lexical.{tokens_of};
ghost use Rattle.vv_gate_lex.specs.Cut.{IsCutOf};
ghost use Rattle.vv_gate_lex.specs.Words.{AreMarks};

/// The tokens of a file are those of the pieces that its bytes are cut into, and there is no other way to cut them.
pub fn tokens_are_a_cut(bytes: &[u8])
    ensures cut { IsCutOf bytes.now (tokens_of bytes.now) }
    ensures only { (ts : List Token) → IsCutOf bytes.now ts → ts ≡ tokens_of bytes.now }
{}

/// Each reserved word and each sign has its mark, and no other text or byte has one.
pub fn words_have_their_marks()
    ensures { AreMarks }
{}
