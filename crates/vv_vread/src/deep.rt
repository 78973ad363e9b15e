//! Passing over expressions and statements of any depth, with what is still to come on a stack in memory.

use crate::reader::Reader;
use vv_base::fault::Memory;
use vv_vlexer::token::{Kind, Sign, Word};
use vv_vtree::VFault;

/// What is still to come.
#[derive(Clone, Copy)]
pub enum Goal {
    Expr,
    Stmt,
    Sign(Sign),
    Word(Word),
    Number,
    Bits,
    /// Behind the name of a target.
    AfterTarget,
    /// Behind a name in an expression.
    AfterName,
    /// Behind the open bracket of a `ref`.
    Index,
    /// Behind the number there.
    AfterPlace,
    /// Behind an open brace.
    Braces,
    /// Behind an expression in a list, which this sign closes.
    AfterPart(Sign),
    /// Behind an open parenthesis.
    Operation,
    /// Behind the first operand there.
    AfterOperand,
    /// The sign of an assignment.
    AssignmentSign,
    Block,
    /// The statements of a block, and its `end`.
    Stmts,
    /// Behind the block of an `if`.
    AfterArm,
    /// Behind an `else`.
    Else,
    /// Behind a label of a `case`.
    AfterLabel,
    /// Behind the block of an alternative.
    AfterAlternative,
}

/// What a goal makes of a token.
enum Reaction {
    /// The token belongs to it. These goals come next, the last of each list first, and the second list before the first one.
    Passes(&'static [Goal], &'static [Goal]),
    /// It is absent, which it may be.
    Absent,
    Refused,
}

/// How the goals go on.
#[derive(Clone, Copy, Debug, PartialEq, Eq)]
enum Step {
    Passed,
    /// None was left, so the token stands behind them.
    Done,
    Refused,
}

const ARM: &[Goal] = &[
    Goal::AfterArm,
    Goal::Block,
    Goal::Sign(Sign::Close),
    Goal::Expr,
    Goal::Sign(Sign::Open),
];

impl Goal {
    /// What it makes of this token.
    fn meets(self, kind: Kind<'_>) -> Reaction {
        match self {
            Goal::Expr => expr_within(&[], kind),
            Goal::Stmt => stmt_within(&[], kind),
            Goal::Sign(sign) => passes_if(matches!(kind, Kind::Sign(found) if found == sign)),
            Goal::Word(word) => passes_if(matches!(kind, Kind::Word(found) if found == word)),
            Goal::Number => passes_if(matches!(kind, Kind::Number(_))),
            Goal::Bits => passes_if(matches!(kind, Kind::Bits(_))),
            Goal::AfterPart(close) => after_part(close, kind),
            Goal::AfterTarget
            | Goal::AfterName
            | Goal::Index
            | Goal::AfterPlace
            | Goal::Braces
            | Goal::Operation
            | Goal::AfterOperand => self.meets_in_expr(kind),
            Goal::AssignmentSign
            | Goal::Block
            | Goal::Stmts
            | Goal::AfterArm
            | Goal::Else
            | Goal::AfterLabel
            | Goal::AfterAlternative => self.meets_in_stmt(kind),
        }
    }

    /// The same of a goal within an expression.
    fn meets_in_expr(self, kind: Kind<'_>) -> Reaction {
        match (self, kind) {
            (Goal::AfterTarget | Goal::AfterName, Kind::Sign(Sign::OpenBracket)) => {
                Reaction::Passes(&[], &[Goal::Index])
            }
            (Goal::AfterName, Kind::Sign(Sign::Open)) => {
                Reaction::Passes(&[], &[Goal::AfterPart(Sign::Close), Goal::Expr])
            }
            (Goal::AfterTarget | Goal::AfterName, _) => Reaction::Absent,
            (Goal::Index, Kind::Number(_)) => Reaction::Passes(&[], &[Goal::AfterPlace]),
            (Goal::Index, _) => expr_within(
                &[
                    Goal::Sign(Sign::CloseBracket),
                    Goal::Number,
                    Goal::Sign(Sign::PlusColon),
                ],
                kind,
            ),
            (Goal::AfterPlace, Kind::Sign(Sign::Colon)) => {
                Reaction::Passes(&[], &[Goal::Sign(Sign::CloseBracket), Goal::Number])
            }
            (Goal::AfterPlace, Kind::Sign(Sign::CloseBracket)) => Reaction::Passes(&[], &[]),
            (Goal::Braces, Kind::Number(_)) => Reaction::Passes(
                &[],
                &[
                    Goal::Sign(Sign::CloseBrace),
                    Goal::Sign(Sign::CloseBrace),
                    Goal::Expr,
                    Goal::Sign(Sign::OpenBrace),
                ],
            ),
            (Goal::Braces, _) => expr_within(&[Goal::AfterPart(Sign::CloseBrace)], kind),
            (Goal::Operation, Kind::Sign(sign)) if sign.unary().is_some() => {
                Reaction::Passes(&[], &[Goal::Sign(Sign::Close), Goal::Expr])
            }
            (Goal::Operation, _) => expr_within(&[Goal::AfterOperand], kind),
            (Goal::AfterOperand, Kind::Sign(Sign::Question)) => Reaction::Passes(
                &[Goal::Sign(Sign::Close), Goal::Expr],
                &[Goal::Sign(Sign::Colon), Goal::Expr],
            ),
            (Goal::AfterOperand, Kind::Sign(sign)) if sign.binary().is_some() => {
                Reaction::Passes(&[], &[Goal::Sign(Sign::Close), Goal::Expr])
            }
            _ => Reaction::Refused,
        }
    }

    /// The same of a goal within a statement.
    fn meets_in_stmt(self, kind: Kind<'_>) -> Reaction {
        match (self, kind) {
            (Goal::AssignmentSign, Kind::Sign(Sign::Assign | Sign::LessOrEqual)) => {
                Reaction::Passes(&[], &[])
            }
            (Goal::Block | Goal::Else, Kind::Word(Word::Begin)) => {
                Reaction::Passes(&[], &[Goal::Stmts])
            }
            (Goal::Stmts, Kind::Word(Word::End)) => Reaction::Passes(&[], &[]),
            (Goal::Stmts, _) => stmt_within(&[Goal::Stmts], kind),
            (Goal::AfterArm, Kind::Word(Word::Else)) => Reaction::Passes(&[], &[Goal::Else]),
            (Goal::AfterArm, _) => Reaction::Absent,
            (Goal::Else, Kind::Word(Word::If)) => Reaction::Passes(&[], ARM),
            (Goal::AfterLabel, Kind::Sign(Sign::Comma)) => {
                Reaction::Passes(&[], &[Goal::AfterLabel, Goal::Bits])
            }
            (Goal::AfterLabel, Kind::Sign(Sign::Colon)) => {
                Reaction::Passes(&[], &[Goal::AfterAlternative, Goal::Block])
            }
            (Goal::AfterAlternative, Kind::Bits(_)) => Reaction::Passes(&[], &[Goal::AfterLabel]),
            (Goal::AfterAlternative, Kind::Word(Word::Default)) => Reaction::Passes(
                &[Goal::Word(Word::Endcase)],
                &[Goal::Block, Goal::Sign(Sign::Colon)],
            ),
            (Goal::AfterAlternative, Kind::Word(Word::Endcase)) => Reaction::Passes(&[], &[]),
            _ => Reaction::Refused,
        }
    }
}

fn passes_if(fits: bool) -> Reaction {
    if fits {
        Reaction::Passes(&[], &[])
    } else {
        Reaction::Refused
    }
}

/// What a list makes of the token behind one of its expressions.
fn after_part(close: Sign, kind: Kind<'_>) -> Reaction {
    match (close, kind) {
        (Sign::Close, Kind::Sign(Sign::Comma)) => {
            Reaction::Passes(&[], &[Goal::AfterPart(Sign::Close), Goal::Expr])
        }
        (_, Kind::Sign(Sign::Comma)) => {
            Reaction::Passes(&[], &[Goal::AfterPart(Sign::CloseBrace), Goal::Expr])
        }
        (_, Kind::Sign(sign)) => passes_if(sign == close),
        _ => Reaction::Refused,
    }
}

/// What the start of an expression makes of the token, where these goals stand behind the expression.
fn expr_within(outer: &'static [Goal], kind: Kind<'_>) -> Reaction {
    match kind {
        Kind::Name(_) => Reaction::Passes(outer, &[Goal::AfterName]),
        Kind::Bits(_) => Reaction::Passes(outer, &[]),
        Kind::Sign(Sign::OpenBrace) => Reaction::Passes(outer, &[Goal::Braces]),
        Kind::Sign(Sign::Open) => Reaction::Passes(outer, &[Goal::Operation]),
        _ => Reaction::Refused,
    }
}

/// What the start of a statement makes of the token, likewise.
fn stmt_within(outer: &'static [Goal], kind: Kind<'_>) -> Reaction {
    match kind {
        Kind::Name(_) => Reaction::Passes(
            outer,
            &[
                Goal::Sign(Sign::Semicolon),
                Goal::Expr,
                Goal::AssignmentSign,
                Goal::AfterTarget,
            ],
        ),
        Kind::Word(Word::If) => Reaction::Passes(outer, ARM),
        Kind::Word(Word::Case) => Reaction::Passes(
            outer,
            &[
                Goal::AfterLabel,
                Goal::Bits,
                Goal::Sign(Sign::Close),
                Goal::Expr,
                Goal::Sign(Sign::Open),
            ],
        ),
        _ => Reaction::Refused,
    }
}

/// Takes the token to the goals, the last of which comes next.
fn advance(goals: &mut Vec<Goal>, kind: Kind<'_>) -> Result<Step, Memory> {
    for _ in 0..goals.len() {
        let Some(goal) = goals.pop() else {
            return Ok(Step::Done);
        };
        match goal.meets(kind) {
            Reaction::Passes(outer, inner) => {
                goals.extend_from_slice(outer)?;
                goals.extend_from_slice(inner)?;
                return Ok(Step::Passed);
            }
            Reaction::Absent => {}
            Reaction::Refused => return Ok(Step::Refused),
        }
    }
    Ok(Step::Done)
}

impl<'t> Reader<'t> {
    /// Passes over what this goal stands for.
    pub fn pass_over(&mut self, goal: Goal) -> Result<(), VFault> {
        let mut goals = Vec::new(self.alloc);
        goals.push(goal)?;
        let tokens = self.tokens;
        for _ in tokens {
            match advance(&mut goals, self.token().kind)? {
                Step::Passed => self.pass(),
                Step::Done => return Ok(()),
                Step::Refused => return Err(self.refusal()),
            }
        }
        Err(self.refusal())
    }
}
