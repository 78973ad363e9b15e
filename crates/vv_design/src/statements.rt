//! Statements of a design. Loops are unrolled, dead arms and empty statements are gone.

use crate::expressions::{Expr, Target};
use sqlite_items::Items;
use vv_base::fault::Span;
use vv_types::Value;

/// A statement. Its span begins at its first token.
#[cycle(stmt)]
#[derive(Drop)]
pub struct Stmt {
    pub form: StmtForm,
    pub span: Span,
}

#[cycle(stmt)]
#[derive(Drop)]
pub enum StmtForm {
    /// An assignment to a net.
    Signal {
        target: Target,
        value: Expr,
    },
    /// An assignment to a variable.
    Variable {
        target: Target,
        value: Expr,
    },
    /// The live arms behind `if` and each `elsif`, of which there is one at least, and the statements behind `else`, which are none where
    /// there is no `else`.
    If {
        arms: ArmList,
        otherwise: StmtList,
    },
    Case {
        selector: Expr,
        alternatives: AlternativeList,
    },
    Return(Expr),
    WaitUntil(Expr),
}

/// A condition of an `if`, and its statements.
#[cycle(stmt)]
#[derive(Drop)]
pub struct Arm {
    pub condition: Expr,
    pub body: StmtList,
}

/// The choices of a `case`, and their statements.
#[cycle(stmt)]
#[derive(Drop)]
pub struct Alternative {
    pub choices: ChoiceList,
    pub body: StmtList,
}

/// A choice: a value, the numbers or positions of a range, or all that is left, which stands alone and last.
#[derive(Drop)]
pub enum Choice {
    Value(Value),
    Between { low: i32, high: i32 },
    Others,
}

pub type StmtList = Items<Stmt>;

pub type ArmList = Items<Arm>;

pub type AlternativeList = Items<Alternative>;

pub type ChoiceList = Items<Choice>;
