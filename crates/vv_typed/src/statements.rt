//! Typed statements. Assertions and report statements are dropped before.

use crate::expressions::{TRange, TRangeList, Typed};
use sqlite_items::Items;
use vv_base::fault::Span;

/// A statement. Its span begins at its first token.
#[cycle(statements)]
#[derive(Drop)]
pub struct TStmt {
    pub form: StmtForm,
    pub span: Span,
}

/// The form of a statement, with its parts in the order of the text. A condition that is not written is the value TRUE.
#[cycle(statements)]
#[derive(Drop)]
pub enum StmtForm {
    SignalAssignment {
        target: Typed,
        value: Typed,
    },
    VariableAssignment {
        target: Typed,
        value: Typed,
    },
    /// The arms behind `if` and each `elsif`, and the statements behind `else` where it is written.
    If {
        arms: ArmList,
        otherwise: Option<TStmtList>,
    },
    Case {
        selector: Typed,
        alternatives: AlternativeList,
    },
    /// A loop over a range, with the declaration of its parameter.
    For {
        turn: u32,
        range: TRange,
        body: TStmtList,
    },
    /// A loop with `while`, or with neither `for` nor `while`.
    While {
        condition: Typed,
        body: TStmtList,
    },
    /// Leaves a loop. `outer` counts the loops within that one which are left too.
    Exit {
        outer: u32,
        condition: Typed,
    },
    /// Goes on with the next turn of a loop. `outer` counts the loops within that one which are left.
    Next {
        outer: u32,
        condition: Typed,
    },
    Return(Typed),
    Null,
    WaitUntil(Typed),
}

/// A condition of an `if`, and its statements.
#[cycle(statements)]
#[derive(Drop)]
pub struct Arm {
    pub condition: Typed,
    pub body: TStmtList,
}

/// The choices of a `case`, and their statements.
#[cycle(statements)]
#[derive(Drop)]
pub struct Alternative {
    pub choices: TRangeList,
    pub body: TStmtList,
}

pub type TStmtList = Items<TStmt>;

pub type ArmList = Items<Arm>;

pub type AlternativeList = Items<Alternative>;
