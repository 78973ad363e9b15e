//! Parts of one token.

ghost use Rattle.std.specs.Prelude.{◌≡◌, IfOk, MatchOption};
ghost use Rattle.vv_nodes.specs.Nodes.{node_tree};
ghost use Rattle.vv_tree.specs.View as v;
ghost use Rattle.vv_vlex.specs.declared.token.TokenKind.TheVariants as kind;

use bumpalo::Bump;
use bumpalo::collections::into_bump_slice;
use std::alloc::Global;
use vv_base::fault::Memory;
use vv_nodes::node::{Node, NodeKind};
use vv_nodes::values::misfit;
use vv_tree::leaf::{
    AssignmentSign, Designator, Direction, Ident, Keyword, Literal, Mode, Operator, OperatorSymbol,
};
use vv_vlex::sign::Sign;
use vv_vlex::token::{Token, TokenKind};
use vv_vlex::word::Word;

/// An identifier.
pub fn ident(node: Node<'_>) -> Result<Ident, Memory>
    ensures { IfOk result (λ identifier. v.ident_tree identifier ≡ node_tree node.entry) }
{
    let token = node.token()?;
    match &token.kind {
        TokenKind::Id(name) => Ok(Ident {
            name: *name,
            span: token.span,
        }),
        _ => Err(misfit()),
    }
}

/// A reserved word.
pub fn keyword(node: Node<'_>) -> Result<Keyword, Memory>
    ensures { IfOk result (λ keyword. v.keyword_tree keyword ≡ node_tree node.entry) }
{
    let token = node.token()?;
    match &token.kind {
        TokenKind::Word(word) => Ok(Keyword {
            word: *word,
            span: token.span,
        }),
        _ => Err(misfit()),
    }
}

/// These bytes in the arena.
fn kept<'a>(arena: &'a Bump<Global>, bytes: &[u8]) -> Result<&'a [u8], Memory>
    ensures { IfOk result (λ kept. kept.now ≡ bytes.now) }
{
    let mut kept = Vec::with_capacity(arena, bytes.len())?;
    kept.extend_from_slice(bytes)?;
    Ok(into_bump_slice(kept))
}

/// A literal, whose text is copied into the arena.
pub fn literal<'a>(arena: &'a Bump<Global>, node: Node<'_>) -> Result<Literal<'a>, Memory>
    ensures { IfOk result (λ literal. v.literal_tree literal ≡ node_tree node.entry) }
{
    let token = node.token()?;
    let span = token.span;
    match &token.kind {
        TokenKind::Int(value) => Ok(Literal::Integer(*value, span)),
        TokenKind::Char { byte, name } => Ok(Literal::Character {
            byte: *byte,
            name: *name,
            span,
        }),
        TokenKind::Str { bytes, name } => Ok(Literal::Text {
            bytes: kept(arena, bytes.as_slice())?,
            name: *name,
            span,
        }),
        TokenKind::BitStr(bytes) => Ok(Literal::BitText(kept(arena, bytes.as_slice())?, span)),
        _ => Err(misfit()),
    }
}

/// The operator that a word is.
fn symbol_of_word(word: Word) -> Option<OperatorSymbol>
    ensures { MatchOption result (Prim.Unit {0}) (λ symbol. v.symbol_kind symbol ≡ kind.Word word) }
{
    match word {
        Word::And => Some(OperatorSymbol::And),
        Word::Or => Some(OperatorSymbol::Or),
        Word::Xor => Some(OperatorSymbol::Xor),
        Word::Xnor => Some(OperatorSymbol::Xnor),
        Word::Nand => Some(OperatorSymbol::Nand),
        Word::Nor => Some(OperatorSymbol::Nor),
        Word::Sll => Some(OperatorSymbol::ShiftLeftLogical),
        Word::Srl => Some(OperatorSymbol::ShiftRightLogical),
        Word::Sla => Some(OperatorSymbol::ShiftLeftArithmetic),
        Word::Sra => Some(OperatorSymbol::ShiftRightArithmetic),
        Word::Rol => Some(OperatorSymbol::RotateLeft),
        Word::Ror => Some(OperatorSymbol::RotateRight),
        Word::Mod => Some(OperatorSymbol::Mod),
        Word::Rem => Some(OperatorSymbol::Rem),
        _ => None,
    }
}

/// The operator that a sign is.
fn symbol_of_sign(sign: Sign) -> Option<OperatorSymbol>
    ensures { MatchOption result (Prim.Unit {0}) (λ symbol. v.symbol_kind symbol ≡ kind.Sign sign) }
{
    match sign {
        Sign::Equal => Some(OperatorSymbol::Equal),
        Sign::NotEqual => Some(OperatorSymbol::NotEqual),
        Sign::Less => Some(OperatorSymbol::Less),
        Sign::LessEqual => Some(OperatorSymbol::LessEqual),
        Sign::Greater => Some(OperatorSymbol::Greater),
        Sign::GreaterEqual => Some(OperatorSymbol::GreaterEqual),
        Sign::Plus => Some(OperatorSymbol::Plus),
        Sign::Minus => Some(OperatorSymbol::Minus),
        Sign::Ampersand => Some(OperatorSymbol::Concatenate),
        Sign::Star => Some(OperatorSymbol::Multiply),
        Sign::Slash => Some(OperatorSymbol::Divide),
        _ => None,
    }
}

/// The operator that a token is.
fn symbol_of_token(token: &Token) -> Option<OperatorSymbol>
    ensures { MatchOption result (Prim.Unit {0}) (λ symbol. v.symbol_kind symbol ≡ token.now.kind) }
{
    match &token.kind {
        TokenKind::Word(word) => symbol_of_word(*word),
        TokenKind::Sign(sign) => symbol_of_sign(*sign),
        _ => None,
    }
}

/// An operator between its operands, or the sign before one.
pub fn operator(node: Node<'_>) -> Result<Operator, Memory>
    ensures { IfOk result (λ operator. v.operator_tree operator ≡ node_tree node.entry) }
{
    let token = node.token()?;
    match symbol_of_token(token) {
        Some(symbol) => Ok(Operator {
            symbol,
            span: token.span,
        }),
        None => Err(misfit()),
    }
}

/// The direction of a range.
pub fn direction(node: Node<'_>) -> Result<Direction, Memory>
    ensures { IfOk result (λ direction. v.direction_tree direction ≡ node_tree node.entry) }
{
    let token = node.token()?;
    match &token.kind {
        TokenKind::Word(Word::To) => Ok(Direction::To(token.span)),
        TokenKind::Word(Word::Downto) => Ok(Direction::Downto(token.span)),
        _ => Err(misfit()),
    }
}

/// The mode of a port.
pub fn mode(node: Node<'_>) -> Result<Mode, Memory>
    ensures { IfOk result (λ mode. v.mode_tree mode ≡ node_tree node.entry) }
{
    let token = node.token()?;
    match &token.kind {
        TokenKind::Word(Word::In) => Ok(Mode::In(token.span)),
        TokenKind::Word(Word::Out) => Ok(Mode::Out(token.span)),
        TokenKind::Word(Word::Inout) => Ok(Mode::Inout(token.span)),
        _ => Err(misfit()),
    }
}

/// The sign of an assignment.
pub fn assignment_sign(node: Node<'_>) -> Result<AssignmentSign, Memory>
    ensures { IfOk result (λ sign. v.assignment_tree sign ≡ node_tree node.entry) }
{
    let token = node.token()?;
    match &token.kind {
        TokenKind::Sign(Sign::LessEqual) => Ok(AssignmentSign::Signal(token.span)),
        TokenKind::Sign(Sign::Becomes) => Ok(AssignmentSign::Variable(token.span)),
        _ => Err(misfit()),
    }
}

/// What a declared entity is named by.
pub fn designator<'a>(arena: &'a Bump<Global>, node: Node<'_>) -> Result<Designator<'a>, Memory>
    ensures { IfOk result (λ designator. v.designator_tree designator ≡ node_tree node.entry) }
{
    let token = node.token()?;
    match &token.kind {
        TokenKind::Id(name) => Ok(Designator::Ident(Ident {
            name: *name,
            span: token.span,
        })),
        TokenKind::Word(Word::Others) => Ok(Designator::Others(token.span)),
        TokenKind::Word(Word::All) => Ok(Designator::All(token.span)),
        _ => Ok(Designator::Literal(literal(arena, node)?)),
    }
}

/// Identifiers.
pub fn idents<'a>(arena: &'a Bump<Global>, node: Node<'_>) -> Result<&'a [Ident], Memory>
    ensures { IfOk result (λ identifiers. v.trees_of v.ident_tree identifiers.now ≡ node_tree node.entry) }
{
    let nodes = node.items()?;
    let mut all = Vec::with_capacity(arena, nodes.len())?;
    for each in nodes {
        all.push(ident(*each)?)?;
    }
    Ok(into_bump_slice(all))
}

/// An identifier that may be left out.
pub fn optional_ident(node: Node<'_>) -> Result<Option<Ident>, Memory>
    ensures { IfOk result (λ identifier. v.tree_or_absent v.ident_tree identifier ≡ node_tree node.entry) }
{
    match node.kind() {
        NodeKind::Absent => Ok(None),
        _ => Ok(Some(ident(node)?)),
    }
}

/// The mode of a port, which may be left out.
pub fn optional_mode(node: Node<'_>) -> Result<Option<Mode>, Memory>
    ensures { IfOk result (λ mode. v.tree_or_absent v.mode_tree mode ≡ node_tree node.entry) }
{
    match node.kind() {
        NodeKind::Absent => Ok(None),
        _ => Ok(Some(mode(node)?)),
    }
}

/// What declared entities are named by.
pub fn designators<'a>(
    arena: &'a Bump<Global>,
    node: Node<'_>,
) -> Result<&'a [Designator<'a>], Memory>
    ensures { IfOk result (λ designators. v.trees_of v.designator_tree designators.now ≡ node_tree node.entry) }
{
    let nodes = node.items()?;
    let mut all = Vec::with_capacity(arena, nodes.len())?;
    for each in nodes {
        all.push(designator(arena, *each)?)?;
    }
    Ok(into_bump_slice(all))
}

/// What a declared entity is named by, which may be left out.
pub fn optional_designator<'a>(
    arena: &'a Bump<Global>,
    node: Node<'_>,
) -> Result<Option<Designator<'a>>, Memory>
    ensures { IfOk result (λ designator. v.tree_or_absent v.designator_tree designator ≡ node_tree node.entry) }
{
    match node.kind() {
        NodeKind::Absent => Ok(None),
        _ => Ok(Some(designator(arena, node)?)),
    }
}
