//! The places of concurrent statements.

use crate::form::Form;
use crate::place::Place;
use crate::step::Step::{Call, Keep, Make, Many, Skip};
use crate::step::{Alternative, Step, Take};
use crate::terminal::Terminal::{BitStr, Char, Id, Int, Key, Mark, Str};
use vv_vlex::sign::Sign;
use vv_vlex::word::Word;

/// A concurrent statement, with or without a label.
pub const CONCURRENT: [Alternative; 4] = [
    (&[Id], Take::Keep, &[Call(Place::ConcurrentBehindIdent)]),
    (
        &[Key(Word::Process)],
        Take::Keep,
        &[Call(Place::ProcessRest)],
    ),
    (&[Key(Word::With)], Take::Keep, &[Call(Place::SelectRest)]),
    (
        &[Key(Word::Assert)],
        Take::Keep,
        &[Call(Place::AssertionRest), Make(Form::ConcurrentAssertion)],
    ),
];

pub const CONCURRENT_BEHIND_IDENT: [Alternative; 1] = [(
    &[Mark(Sign::Colon)],
    Take::Skip,
    &[Call(Place::LabelledConcurrent), Make(Form::Labelled)],
)];

pub const CONCURRENT_BEHIND_IDENT_ELSE: [Step; 4] = [
    Make(Form::Empty),
    Call(Place::NameParts),
    Make(Form::Name),
    Call(Place::ConditionalRest),
];

pub const LABELLED_CONCURRENT: [Alternative; 8] = [
    (
        &[Id],
        Take::Keep,
        &[Make(Form::Empty), Call(Place::ConcurrentBehindMark)],
    ),
    (
        &[Key(Word::Process)],
        Take::Keep,
        &[Call(Place::ProcessRest)],
    ),
    (&[Key(Word::With)], Take::Keep, &[Call(Place::SelectRest)]),
    (
        &[Key(Word::Assert)],
        Take::Keep,
        &[Call(Place::AssertionRest), Make(Form::ConcurrentAssertion)],
    ),
    (
        &[Key(Word::Component)],
        Take::Skip,
        &[
            Call(Place::TypeMark),
            Make(Form::Component),
            Call(Place::InstanceRest),
        ],
    ),
    (
        &[Key(Word::Entity)],
        Take::Keep,
        &[
            Call(Place::TypeMark),
            Call(Place::OptionalArchitecture),
            Make(Form::EntityInstance),
            Call(Place::InstanceRest),
        ],
    ),
    (
        &[Key(Word::For)],
        Take::Keep,
        &[
            Keep(Id),
            Skip(Key(Word::In)),
            Call(Place::DiscreteRange),
            Call(Place::GenerateRest),
            Make(Form::ForGenerate),
        ],
    ),
    (
        &[Key(Word::If)],
        Take::Keep,
        &[
            Call(Place::Expression),
            Call(Place::GenerateRest),
            Make(Form::IfGenerate),
        ],
    ),
];

/// Behind a label, a name was read as far as it can be a mark: a component or a target.
pub const CONCURRENT_BEHIND_MARK: [Alternative; 2] = [
    (
        &[Mark(Sign::Dot)],
        Take::Skip,
        &[
            Keep(Id),
            Make(Form::SelectedPart),
            Make(Form::Add),
            Call(Place::ConcurrentBehindMark),
        ],
    ),
    (
        &[Key(Word::Generic), Key(Word::Port), Mark(Sign::Semicolon)],
        Take::Look,
        &[
            Make(Form::Mark),
            Make(Form::Component),
            Call(Place::InstanceRest),
        ],
    ),
];

pub const CONCURRENT_BEHIND_MARK_ELSE: [Step; 3] = [
    Call(Place::NamePartsBehindMark),
    Make(Form::Name),
    Call(Place::ConditionalRest),
];

/// Behind a value of a conditional assignment.
pub const BEHIND_WAVEFORM: [Alternative; 1] = [(
    &[Key(Word::When)],
    Take::Skip,
    &[
        Call(Place::Expression),
        Make(Form::ConditionalWaveform),
        Make(Form::Add),
        Call(Place::BehindCondition),
    ],
)];

pub const BEHIND_WAVEFORM_ELSE: [Step; 2] = [Make(Form::Waveform), Make(Form::Add)];

pub const BEHIND_CONDITION: [Alternative; 1] = [(
    &[Key(Word::Else)],
    Take::Skip,
    &[Call(Place::Expression), Call(Place::BehindWaveform)],
)];

pub const MORE_SELECTIONS: [Alternative; 1] = [(
    &[Mark(Sign::Comma)],
    Take::Skip,
    &[
        Call(Place::Expression),
        Skip(Key(Word::When)),
        Call(Place::Choices),
        Make(Form::Selection),
        Make(Form::Add),
        Call(Place::MoreSelections),
    ],
)];

pub const REPORT: [Alternative; 1] = [(
    &[Key(Word::Report)],
    Take::Skip,
    &[Call(Place::Expression)],
)];

pub const REPORT_ELSE: [Step; 1] = [Make(Form::Absent)];

pub const SEVERITY: [Alternative; 1] = [(
    &[Key(Word::Severity)],
    Take::Skip,
    &[Call(Place::Expression)],
)];

pub const SEVERITY_ELSE: [Step; 1] = [Make(Form::Absent)];

pub const OPTIONAL_ARCHITECTURE: [Alternative; 1] = [(
    &[Mark(Sign::Open)],
    Take::Skip,
    &[Keep(Id), Skip(Mark(Sign::Close))],
)];

pub const OPTIONAL_ARCHITECTURE_ELSE: [Step; 1] = [Make(Form::Absent)];

pub const GENERIC_MAP: [Alternative; 1] = [(
    &[Key(Word::Generic)],
    Take::Skip,
    &[
        Skip(Key(Word::Map)),
        Skip(Mark(Sign::Open)),
        Call(Place::Association),
        Make(Form::One),
        Call(Place::MoreAssociations),
        Skip(Mark(Sign::Close)),
    ],
)];

pub const GENERIC_MAP_ELSE: [Step; 1] = [Make(Form::Empty)];

pub const PORT_MAP: [Alternative; 1] = [(
    &[Key(Word::Port)],
    Take::Skip,
    &[
        Skip(Key(Word::Map)),
        Skip(Mark(Sign::Open)),
        Call(Place::Association),
        Make(Form::One),
        Call(Place::MoreAssociations),
        Skip(Mark(Sign::Close)),
    ],
)];

pub const PORT_MAP_ELSE: [Step; 1] = [Make(Form::Empty)];

/// An association, or the formal name that stands before one.
pub const ASSOCIATION: [Alternative; 3] = [
    (&[Id], Take::Keep, &[Call(Place::AssociationBehindIdent)]),
    (
        &[Key(Word::Open)],
        Take::Keep,
        &[Make(Form::Open), Make(Form::PositionalAssociation)],
    ),
    (
        &[
            Int,
            Char,
            Str,
            BitStr,
            Mark(Sign::Open),
            Mark(Sign::Plus),
            Mark(Sign::Minus),
            Key(Word::Abs),
            Key(Word::Not),
        ],
        Take::Look,
        &[
            Call(Place::Expression),
            Make(Form::Given),
            Make(Form::PositionalAssociation),
        ],
    ),
];

pub const ASSOCIATION_BEHIND_IDENT: [Alternative; 1] = [(
    &[Mark(Sign::Arrow)],
    Take::Skip,
    &[Call(Place::ActualPart), Make(Form::NamedAssociation)],
)];

pub const ASSOCIATION_BEHIND_IDENT_ELSE: [Step; 3] = [
    Call(Place::ExpressionBehindIdent),
    Make(Form::Given),
    Make(Form::PositionalAssociation),
];

pub const ACTUAL_PART: [Alternative; 1] = [(&[Key(Word::Open)], Take::Keep, &[Make(Form::Open)])];

pub const ACTUAL_PART_ELSE: [Step; 2] = [Call(Place::Expression), Make(Form::Given)];

pub const MORE_ASSOCIATIONS: [Alternative; 1] = [(
    &[Mark(Sign::Comma)],
    Take::Skip,
    &[
        Call(Place::Association),
        Make(Form::Add),
        Call(Place::MoreAssociations),
    ],
)];

/// The declarations of a generate statement, whose end is a begin.
pub const GENERATE_DECLARATIONS: [Alternative; 1] = [(
    &[
        Key(Word::Type),
        Key(Word::Subtype),
        Key(Word::Constant),
        Key(Word::Signal),
        Key(Word::Function),
        Key(Word::Pure),
        Key(Word::Attribute),
        Key(Word::Use),
        Key(Word::Component),
        Key(Word::Begin),
    ],
    Take::Look,
    &[
        Make(Form::Empty),
        Many(Place::Declaration),
        Skip(Key(Word::Begin)),
    ],
)];

pub const GENERATE_DECLARATIONS_ELSE: [Step; 1] = [Make(Form::Empty)];

/// A sensitivity list.
pub const SENSITIVITY: [Alternative; 1] = [(
    &[Mark(Sign::Open)],
    Take::Skip,
    &[Call(Place::SensitivityNames), Skip(Mark(Sign::Close))],
)];

pub const SENSITIVITY_ELSE: [Step; 1] = [Make(Form::Unlisted)];

pub const SENSITIVITY_NAMES: [Alternative; 1] = [(
    &[Id],
    Take::Keep,
    &[
        Make(Form::Empty),
        Call(Place::NameParts),
        Make(Form::Name),
        Make(Form::One),
        Call(Place::MoreNames),
        Make(Form::Listed),
    ],
)];

/// In the edition of 2008 a list can be `all` (IEEE 1076-2008, clause 11.3).
pub const SENSITIVITY_NAMES_2008: [Alternative; 2] = [
    (
        &[Id],
        Take::Keep,
        &[
            Make(Form::Empty),
            Call(Place::NameParts),
            Make(Form::Name),
            Make(Form::One),
            Call(Place::MoreNames),
            Make(Form::Listed),
        ],
    ),
    (&[Key(Word::All)], Take::Keep, &[Make(Form::AllSignals)]),
];

pub const MORE_NAMES: [Alternative; 1] = [(
    &[Mark(Sign::Comma)],
    Take::Skip,
    &[Call(Place::Name), Make(Form::Add), Call(Place::MoreNames)],
)];

pub const OPTIONAL_IS: [Alternative; 1] = [(&[Key(Word::Is)], Take::Skip, &[])];

/// The name that may stand at an end.
pub const END_NAME: [Alternative; 1] = [(&[Id], Take::Keep, &[])];

pub const END_NAME_ELSE: [Step; 1] = [Make(Form::Absent)];

pub const PROCESS_REST_ELSE: [Step; 12] = [
    Call(Place::Sensitivity),
    Call(Place::OptionalIs),
    Make(Form::Empty),
    Many(Place::ProcessDeclaration),
    Skip(Key(Word::Begin)),
    Make(Form::Empty),
    Many(Place::Statement),
    Skip(Key(Word::End)),
    Skip(Key(Word::Process)),
    Call(Place::EndName),
    Skip(Mark(Sign::Semicolon)),
    Make(Form::Process),
];

pub const SELECT_REST_ELSE: [Step; 13] = [
    Call(Place::Expression),
    Skip(Key(Word::Select)),
    Call(Place::Name),
    Skip(Mark(Sign::LessEqual)),
    Make(Form::Empty),
    Call(Place::Expression),
    Skip(Key(Word::When)),
    Call(Place::Choices),
    Make(Form::Selection),
    Make(Form::Add),
    Call(Place::MoreSelections),
    Skip(Mark(Sign::Semicolon)),
    Make(Form::Select),
];

/// A conditional assignment behind its target.
pub const CONDITIONAL_REST: [Alternative; 1] = [(
    &[Mark(Sign::LessEqual)],
    Take::Skip,
    &[
        Make(Form::Empty),
        Call(Place::Expression),
        Call(Place::BehindWaveform),
        Skip(Mark(Sign::Semicolon)),
        Make(Form::Conditional),
    ],
)];

pub const ASSERTION_REST_ELSE: [Step; 5] = [
    Call(Place::Expression),
    Call(Place::Report),
    Call(Place::Severity),
    Skip(Mark(Sign::Semicolon)),
    Make(Form::Assertion),
];

/// An instance behind what it is of.
pub const INSTANCE_REST_ELSE: [Step; 4] = [
    Call(Place::GenericMap),
    Call(Place::PortMap),
    Skip(Mark(Sign::Semicolon)),
    Make(Form::Instance),
];

pub const GENERATE_REST: [Alternative; 1] = [(
    &[Key(Word::Generate)],
    Take::Skip,
    &[
        Call(Place::GenerateDeclarations),
        Make(Form::Empty),
        Many(Place::Concurrent),
        Skip(Key(Word::End)),
        Skip(Key(Word::Generate)),
        Call(Place::EndName),
        Skip(Mark(Sign::Semicolon)),
    ],
)];
