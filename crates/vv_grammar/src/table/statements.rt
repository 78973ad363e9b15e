//! The places of sequential statements.

use crate::form::Form;
use crate::place::Place;
use crate::step::Step::{Call, Keep, Make, Many, Skip};
use crate::step::{Alternative, Step, Take};
use crate::terminal::Terminal::{Id, Key, Mark};
use vv_vlex::sign::Sign;
use vv_vlex::word::Word;

/// A sequential statement, with or without a label.
pub const STATEMENT: [Alternative; 13] = [
    (&[Id], Take::Keep, &[Call(Place::StatementBehindIdent)]),
    (&[Key(Word::If)], Take::Keep, &[Call(Place::IfRest)]),
    (&[Key(Word::Case)], Take::Keep, &[Call(Place::CaseRest)]),
    (
        &[Key(Word::For)],
        Take::Keep,
        &[
            Keep(Id),
            Skip(Key(Word::In)),
            Call(Place::DiscreteRange),
            Call(Place::LoopRest),
            Make(Form::For),
        ],
    ),
    (
        &[Key(Word::While)],
        Take::Keep,
        &[
            Call(Place::Expression),
            Call(Place::LoopRest),
            Make(Form::While),
        ],
    ),
    (
        &[Key(Word::Loop)],
        Take::Keep,
        &[Call(Place::LoopBody), Make(Form::Loop)],
    ),
    (
        &[Key(Word::Exit)],
        Take::Keep,
        &[Call(Place::ExitRest), Make(Form::Exit)],
    ),
    (
        &[Key(Word::Next)],
        Take::Keep,
        &[Call(Place::ExitRest), Make(Form::Next)],
    ),
    (
        &[Key(Word::Return)],
        Take::Keep,
        &[
            Call(Place::Expression),
            Skip(Mark(Sign::Semicolon)),
            Make(Form::Return),
        ],
    ),
    (
        &[Key(Word::Null)],
        Take::Keep,
        &[Skip(Mark(Sign::Semicolon)), Make(Form::Null)],
    ),
    (
        &[Key(Word::Wait)],
        Take::Keep,
        &[
            Skip(Key(Word::Until)),
            Call(Place::Expression),
            Skip(Mark(Sign::Semicolon)),
            Make(Form::Wait),
        ],
    ),
    (
        &[Key(Word::Assert)],
        Take::Keep,
        &[Call(Place::AssertionRest), Make(Form::SequentialAssertion)],
    ),
    (
        &[Key(Word::Report)],
        Take::Keep,
        &[
            Call(Place::Expression),
            Call(Place::Severity),
            Skip(Mark(Sign::Semicolon)),
            Make(Form::ReportStatement),
        ],
    ),
];

pub const STATEMENT_BEHIND_IDENT: [Alternative; 1] = [(
    &[Mark(Sign::Colon)],
    Take::Skip,
    &[
        Call(Place::LabelledStatement),
        Make(Form::LabelledStatement),
    ],
)];

pub const STATEMENT_BEHIND_IDENT_ELSE: [Step; 4] = [
    Make(Form::Empty),
    Call(Place::NameParts),
    Make(Form::Name),
    Call(Place::AssignmentRest),
];

pub const LABELLED_STATEMENT: [Alternative; 13] = [
    (
        &[Id],
        Take::Keep,
        &[
            Make(Form::Empty),
            Call(Place::NameParts),
            Make(Form::Name),
            Call(Place::AssignmentRest),
        ],
    ),
    (&[Key(Word::If)], Take::Keep, &[Call(Place::IfRest)]),
    (&[Key(Word::Case)], Take::Keep, &[Call(Place::CaseRest)]),
    (
        &[Key(Word::For)],
        Take::Keep,
        &[
            Keep(Id),
            Skip(Key(Word::In)),
            Call(Place::DiscreteRange),
            Call(Place::LoopRest),
            Make(Form::For),
        ],
    ),
    (
        &[Key(Word::While)],
        Take::Keep,
        &[
            Call(Place::Expression),
            Call(Place::LoopRest),
            Make(Form::While),
        ],
    ),
    (
        &[Key(Word::Loop)],
        Take::Keep,
        &[Call(Place::LoopBody), Make(Form::Loop)],
    ),
    (
        &[Key(Word::Exit)],
        Take::Keep,
        &[Call(Place::ExitRest), Make(Form::Exit)],
    ),
    (
        &[Key(Word::Next)],
        Take::Keep,
        &[Call(Place::ExitRest), Make(Form::Next)],
    ),
    (
        &[Key(Word::Return)],
        Take::Keep,
        &[
            Call(Place::Expression),
            Skip(Mark(Sign::Semicolon)),
            Make(Form::Return),
        ],
    ),
    (
        &[Key(Word::Null)],
        Take::Keep,
        &[Skip(Mark(Sign::Semicolon)), Make(Form::Null)],
    ),
    (
        &[Key(Word::Wait)],
        Take::Keep,
        &[
            Skip(Key(Word::Until)),
            Call(Place::Expression),
            Skip(Mark(Sign::Semicolon)),
            Make(Form::Wait),
        ],
    ),
    (
        &[Key(Word::Assert)],
        Take::Keep,
        &[Call(Place::AssertionRest), Make(Form::SequentialAssertion)],
    ),
    (
        &[Key(Word::Report)],
        Take::Keep,
        &[
            Call(Place::Expression),
            Call(Place::Severity),
            Skip(Mark(Sign::Semicolon)),
            Make(Form::ReportStatement),
        ],
    ),
];

pub const MORE_IF_ARMS: [Alternative; 1] = [(
    &[Key(Word::Elsif)],
    Take::Skip,
    &[
        Call(Place::Expression),
        Skip(Key(Word::Then)),
        Make(Form::Empty),
        Many(Place::Statement),
        Make(Form::IfArm),
        Make(Form::Add),
        Call(Place::MoreIfArms),
    ],
)];

pub const ELSE_ARM: [Alternative; 1] = [(
    &[Key(Word::Else)],
    Take::Skip,
    &[Make(Form::Empty), Many(Place::Statement)],
)];

pub const ELSE_ARM_ELSE: [Step; 1] = [Make(Form::Absent)];

pub const MORE_CASE_ARMS: [Alternative; 1] = [(
    &[Key(Word::When)],
    Take::Skip,
    &[
        Call(Place::Choices),
        Skip(Mark(Sign::Arrow)),
        Make(Form::Empty),
        Many(Place::Statement),
        Make(Form::CaseArm),
        Make(Form::Add),
        Call(Place::MoreCaseArms),
    ],
)];

pub const OPTIONAL_NAME: [Alternative; 1] = [(&[Id], Take::Keep, &[])];

pub const OPTIONAL_NAME_ELSE: [Step; 1] = [Make(Form::Absent)];

pub const OPTIONAL_WHEN: [Alternative; 1] = [(
    &[Key(Word::When)],
    Take::Skip,
    &[Call(Place::Expression)],
)];

pub const OPTIONAL_WHEN_ELSE: [Step; 1] = [Make(Form::Absent)];

pub const IF_REST_ELSE: [Step; 13] = [
    Call(Place::Expression),
    Skip(Key(Word::Then)),
    Make(Form::Empty),
    Many(Place::Statement),
    Make(Form::IfArm),
    Make(Form::One),
    Call(Place::MoreIfArms),
    Call(Place::ElseArm),
    Skip(Key(Word::End)),
    Skip(Key(Word::If)),
    Call(Place::EndName),
    Skip(Mark(Sign::Semicolon)),
    Make(Form::If),
];

pub const CASE_REST_ELSE: [Step; 16] = [
    Call(Place::Expression),
    Skip(Key(Word::Is)),
    Make(Form::Empty),
    Skip(Key(Word::When)),
    Call(Place::Choices),
    Skip(Mark(Sign::Arrow)),
    Make(Form::Empty),
    Many(Place::Statement),
    Make(Form::CaseArm),
    Make(Form::Add),
    Call(Place::MoreCaseArms),
    Skip(Key(Word::End)),
    Skip(Key(Word::Case)),
    Call(Place::EndName),
    Skip(Mark(Sign::Semicolon)),
    Make(Form::Case),
];

/// A loop behind its range or condition.
pub const LOOP_REST: [Alternative; 1] = [(
    &[Key(Word::Loop)],
    Take::Skip,
    &[Call(Place::LoopBody)],
)];

pub const LOOP_BODY_ELSE: [Step; 6] = [
    Make(Form::Empty),
    Many(Place::Statement),
    Skip(Key(Word::End)),
    Skip(Key(Word::Loop)),
    Call(Place::EndName),
    Skip(Mark(Sign::Semicolon)),
];

pub const EXIT_REST_ELSE: [Step; 3] = [
    Call(Place::OptionalName),
    Call(Place::OptionalWhen),
    Skip(Mark(Sign::Semicolon)),
];

/// An assignment behind its target.
pub const ASSIGNMENT_REST: [Alternative; 1] = [(
    &[Mark(Sign::LessEqual), Mark(Sign::Becomes)],
    Take::Keep,
    &[
        Call(Place::Expression),
        Skip(Mark(Sign::Semicolon)),
        Make(Form::Assignment),
    ],
)];
