//! The places of declarations.

use crate::form::Form;
use crate::place::Place;
use crate::step::Step::{Call, Keep, Make, Many, Skip};
use crate::step::{Alternative, Step, Take};
use crate::terminal::Terminal::{BitStr, Char, Id, Int, Key, Mark, Str};
use vv_vlex::sign::Sign;
use vv_vlex::word::Word;

/// A declaration of an architecture or a generate statement.
pub const DECLARATION: [Alternative; 9] = [
    (&[Key(Word::Type)], Take::Keep, &[Call(Place::TypeRest)]),
    (
        &[Key(Word::Subtype)],
        Take::Keep,
        &[Call(Place::SubtypeRest)],
    ),
    (
        &[Key(Word::Constant)],
        Take::Keep,
        &[Call(Place::ObjectRest), Make(Form::Constant)],
    ),
    (
        &[Key(Word::Signal)],
        Take::Keep,
        &[Call(Place::ObjectRest), Make(Form::Signal)],
    ),
    (
        &[Key(Word::Function)],
        Take::Keep,
        &[Call(Place::FunctionRest), Call(Place::FunctionEnd)],
    ),
    (
        &[Key(Word::Pure)],
        Take::Keep,
        &[
            Skip(Key(Word::Function)),
            Call(Place::FunctionRest),
            Call(Place::FunctionEnd),
        ],
    ),
    (
        &[Key(Word::Attribute)],
        Take::Keep,
        &[Call(Place::AttributeRest)],
    ),
    (
        &[Key(Word::Use)],
        Take::Keep,
        &[Call(Place::UseRest), Make(Form::UseDeclaration)],
    ),
    (
        &[Key(Word::Component)],
        Take::Keep,
        &[Call(Place::ComponentRest)],
    ),
];

/// A declaration of a package.
pub const PACKAGE_DECLARATION: [Alternative; 8] = [
    (&[Key(Word::Type)], Take::Keep, &[Call(Place::TypeRest)]),
    (
        &[Key(Word::Subtype)],
        Take::Keep,
        &[Call(Place::SubtypeRest)],
    ),
    (
        &[Key(Word::Constant)],
        Take::Keep,
        &[Call(Place::ObjectRest), Make(Form::Constant)],
    ),
    (
        &[Key(Word::Function)],
        Take::Keep,
        &[
            Call(Place::FunctionRest),
            Skip(Mark(Sign::Semicolon)),
            Make(Form::FunctionDeclaration),
        ],
    ),
    (
        &[Key(Word::Pure)],
        Take::Keep,
        &[
            Skip(Key(Word::Function)),
            Call(Place::FunctionRest),
            Skip(Mark(Sign::Semicolon)),
            Make(Form::FunctionDeclaration),
        ],
    ),
    (
        &[Key(Word::Attribute)],
        Take::Keep,
        &[Call(Place::AttributeRest)],
    ),
    (
        &[Key(Word::Use)],
        Take::Keep,
        &[Call(Place::UseRest), Make(Form::UseDeclaration)],
    ),
    (
        &[Key(Word::Component)],
        Take::Keep,
        &[Call(Place::ComponentRest)],
    ),
];

/// A declaration of a package body.
pub const BODY_DECLARATION: [Alternative; 7] = [
    (&[Key(Word::Type)], Take::Keep, &[Call(Place::TypeRest)]),
    (
        &[Key(Word::Subtype)],
        Take::Keep,
        &[Call(Place::SubtypeRest)],
    ),
    (
        &[Key(Word::Constant)],
        Take::Keep,
        &[Call(Place::ObjectRest), Make(Form::Constant)],
    ),
    (
        &[Key(Word::Function)],
        Take::Keep,
        &[Call(Place::FunctionRest), Call(Place::FunctionEnd)],
    ),
    (
        &[Key(Word::Pure)],
        Take::Keep,
        &[
            Skip(Key(Word::Function)),
            Call(Place::FunctionRest),
            Call(Place::FunctionEnd),
        ],
    ),
    (
        &[Key(Word::Attribute)],
        Take::Keep,
        &[Call(Place::AttributeRest)],
    ),
    (
        &[Key(Word::Use)],
        Take::Keep,
        &[Call(Place::UseRest), Make(Form::UseDeclaration)],
    ),
];

/// A declaration of a process or a function.
pub const PROCESS_DECLARATION: [Alternative; 8] = [
    (&[Key(Word::Type)], Take::Keep, &[Call(Place::TypeRest)]),
    (
        &[Key(Word::Subtype)],
        Take::Keep,
        &[Call(Place::SubtypeRest)],
    ),
    (
        &[Key(Word::Constant)],
        Take::Keep,
        &[Call(Place::ObjectRest), Make(Form::Constant)],
    ),
    (
        &[Key(Word::Variable)],
        Take::Keep,
        &[Call(Place::ObjectRest), Make(Form::Variable)],
    ),
    (
        &[Key(Word::Function)],
        Take::Keep,
        &[Call(Place::FunctionRest), Call(Place::FunctionEnd)],
    ),
    (
        &[Key(Word::Pure)],
        Take::Keep,
        &[
            Skip(Key(Word::Function)),
            Call(Place::FunctionRest),
            Call(Place::FunctionEnd),
        ],
    ),
    (
        &[Key(Word::Attribute)],
        Take::Keep,
        &[Call(Place::AttributeRest)],
    ),
    (
        &[Key(Word::Use)],
        Take::Keep,
        &[Call(Place::UseRest), Make(Form::UseDeclaration)],
    ),
];

/// Behind the specification of a function: its end, or its body.
pub const FUNCTION_END: [Alternative; 1] = [(
    &[Mark(Sign::Semicolon)],
    Take::Skip,
    &[Make(Form::FunctionDeclaration)],
)];

pub const FUNCTION_END_ELSE: [Step; 1] = [Call(Place::FunctionBody)];

pub const FUNCTION_BODY: [Alternative; 1] = [(
    &[Key(Word::Is)],
    Take::Look,
    &[
        Skip(Key(Word::Is)),
        Make(Form::Empty),
        Many(Place::ProcessDeclaration),
        Skip(Key(Word::Begin)),
        Make(Form::Empty),
        Many(Place::Statement),
        Skip(Key(Word::End)),
        Call(Place::EndFunction),
        Call(Place::EndDesignator),
        Skip(Mark(Sign::Semicolon)),
        Make(Form::FunctionBody),
    ],
)];

pub const DESIGNATOR: [Alternative; 1] = [(&[Id, Str], Take::Keep, &[])];

pub const END_FUNCTION: [Alternative; 1] = [(&[Key(Word::Function)], Take::Skip, &[])];

pub const END_DESIGNATOR: [Alternative; 1] = [(&[Id, Str], Take::Keep, &[])];

pub const END_DESIGNATOR_ELSE: [Step; 1] = [Make(Form::Absent)];

pub const PARAMETERS: [Alternative; 1] = [(
    &[Mark(Sign::Open)],
    Take::Skip,
    &[
        Call(Place::ConstantInterface),
        Make(Form::One),
        Call(Place::MoreConstantInterfaces),
        Skip(Mark(Sign::Close)),
    ],
)];

pub const PARAMETERS_ELSE: [Step; 1] = [Make(Form::Empty)];

/// A generic or a parameter.
pub const CONSTANT_INTERFACE: [Alternative; 2] = [
    (
        &[Key(Word::Constant)],
        Take::Skip,
        &[Keep(Id), Call(Place::ConstantInterfaceRest)],
    ),
    (&[Id], Take::Keep, &[Call(Place::ConstantInterfaceRest)]),
];

pub const CONSTANT_INTERFACE_REST_ELSE: [Step; 7] = [
    Make(Form::One),
    Call(Place::MoreIdents),
    Skip(Mark(Sign::Colon)),
    Call(Place::ModeIn),
    Call(Place::SubtypeIndication),
    Call(Place::Default),
    Make(Form::ConstantInterface),
];

pub const MORE_CONSTANT_INTERFACES: [Alternative; 1] = [(
    &[Mark(Sign::Semicolon)],
    Take::Skip,
    &[
        Call(Place::ConstantInterface),
        Make(Form::Add),
        Call(Place::MoreConstantInterfaces),
    ],
)];

pub const MODE_IN: [Alternative; 1] = [(&[Key(Word::In)], Take::Skip, &[])];

/// An initial value.
pub const DEFAULT: [Alternative; 1] = [(
    &[Mark(Sign::Becomes)],
    Take::Skip,
    &[Call(Place::Expression)],
)];

pub const DEFAULT_ELSE: [Step; 1] = [Make(Form::Absent)];

pub const GENERICS: [Alternative; 1] = [(
    &[Key(Word::Generic)],
    Take::Skip,
    &[
        Skip(Mark(Sign::Open)),
        Call(Place::ConstantInterface),
        Make(Form::One),
        Call(Place::MoreConstantInterfaces),
        Skip(Mark(Sign::Close)),
        Skip(Mark(Sign::Semicolon)),
    ],
)];

pub const GENERICS_ELSE: [Step; 1] = [Make(Form::Empty)];

pub const PORTS: [Alternative; 1] = [(
    &[Key(Word::Port)],
    Take::Skip,
    &[
        Skip(Mark(Sign::Open)),
        Call(Place::PortInterface),
        Make(Form::One),
        Call(Place::MorePortInterfaces),
        Skip(Mark(Sign::Close)),
        Skip(Mark(Sign::Semicolon)),
    ],
)];

pub const PORTS_ELSE: [Step; 1] = [Make(Form::Empty)];

pub const PORT_INTERFACE: [Alternative; 2] = [
    (
        &[Key(Word::Signal)],
        Take::Skip,
        &[Keep(Id), Call(Place::PortInterfaceRest)],
    ),
    (&[Id], Take::Keep, &[Call(Place::PortInterfaceRest)]),
];

pub const PORT_INTERFACE_REST_ELSE: [Step; 7] = [
    Make(Form::One),
    Call(Place::MoreIdents),
    Skip(Mark(Sign::Colon)),
    Call(Place::Mode),
    Call(Place::SubtypeIndication),
    Call(Place::Default),
    Make(Form::PortInterface),
];

pub const MORE_PORT_INTERFACES: [Alternative; 1] = [(
    &[Mark(Sign::Semicolon)],
    Take::Skip,
    &[
        Call(Place::PortInterface),
        Make(Form::Add),
        Call(Place::MorePortInterfaces),
    ],
)];

pub const MODE: [Alternative; 1] = [(
    &[Key(Word::In), Key(Word::Out), Key(Word::Inout)],
    Take::Keep,
    &[],
)];

pub const MODE_ELSE: [Step; 1] = [Make(Form::Absent)];

pub const TYPE_DEFINITION: [Alternative; 2] = [
    (
        &[Mark(Sign::Open)],
        Take::Keep,
        &[
            Call(Place::EnumerationLiteral),
            Make(Form::One),
            Call(Place::MoreEnumerationLiterals),
            Skip(Mark(Sign::Close)),
            Make(Form::Enumeration),
        ],
    ),
    (
        &[Key(Word::Array)],
        Take::Keep,
        &[
            Skip(Mark(Sign::Open)),
            Call(Place::ArrayIndex),
            Skip(Mark(Sign::Close)),
            Skip(Key(Word::Of)),
            Call(Place::SubtypeIndication),
            Make(Form::Array),
        ],
    ),
];

pub const ENUMERATION_LITERAL: [Alternative; 1] = [(&[Id, Char], Take::Keep, &[])];

pub const MORE_ENUMERATION_LITERALS: [Alternative; 1] = [(
    &[Mark(Sign::Comma)],
    Take::Skip,
    &[
        Call(Place::EnumerationLiteral),
        Make(Form::Add),
        Call(Place::MoreEnumerationLiterals),
    ],
)];

/// The index of an array type.
pub const ARRAY_INDEX: [Alternative; 2] = [
    (
        &[Id],
        Take::Keep,
        &[
            Make(Form::Empty),
            Many(Place::MarkPart),
            Call(Place::ArrayIndexBehindMark),
        ],
    ),
    (
        &[
            Int,
            Char,
            Str,
            BitStr,
            Mark(Sign::Open),
            Mark(Sign::Plus),
            Mark(Sign::Minus),
            Key(Word::Abs),
            Key(Word::Not),
        ],
        Take::Look,
        &[
            Call(Place::Range),
            Make(Form::Discrete),
            Make(Form::Bounded),
        ],
    ),
];

/// A name was read as far as it can be a mark.
pub const ARRAY_INDEX_BEHIND_MARK: [Alternative; 1] = [(
    &[Key(Word::Range)],
    Take::Look,
    &[
        Make(Form::Mark),
        Skip(Key(Word::Range)),
        Call(Place::ArrayIndexBehindRange),
    ],
)];

pub const ARRAY_INDEX_BEHIND_MARK_ELSE: [Step; 4] = [
    Call(Place::ExpressionBehindMark),
    Call(Place::RangeEnd),
    Make(Form::Discrete),
    Make(Form::Bounded),
];

pub const ARRAY_INDEX_BEHIND_RANGE: [Alternative; 1] = [(
    &[Mark(Sign::Unconstrained)],
    Take::Skip,
    &[Make(Form::Unbounded)],
)];

pub const ARRAY_INDEX_BEHIND_RANGE_ELSE: [Step; 3] = [
    Call(Place::Range),
    Make(Form::MarkRange),
    Make(Form::Bounded),
];

pub const BEHIND_ATTRIBUTE: [Alternative; 2] = [
    (
        &[Mark(Sign::Colon)],
        Take::Skip,
        &[
            Call(Place::TypeMark),
            Skip(Mark(Sign::Semicolon)),
            Make(Form::AttributeDeclaration),
        ],
    ),
    (
        &[Key(Word::Of)],
        Take::Skip,
        &[
            Call(Place::EntityDesignator),
            Make(Form::One),
            Call(Place::MoreEntityDesignators),
            Skip(Mark(Sign::Colon)),
            Call(Place::EntityClass),
            Skip(Key(Word::Is)),
            Call(Place::Expression),
            Skip(Mark(Sign::Semicolon)),
            Make(Form::AttributeSpecification),
        ],
    ),
];

pub const ENTITY_DESIGNATOR: [Alternative; 1] = [(
    &[Id, Char, Str, Key(Word::Others), Key(Word::All)],
    Take::Keep,
    &[],
)];

pub const MORE_ENTITY_DESIGNATORS: [Alternative; 1] = [(
    &[Mark(Sign::Comma)],
    Take::Skip,
    &[
        Call(Place::EntityDesignator),
        Make(Form::Add),
        Call(Place::MoreEntityDesignators),
    ],
)];

pub const ENTITY_CLASS: [Alternative; 1] = [(
    &[
        Key(Word::Entity),
        Key(Word::Architecture),
        Key(Word::Signal),
        Key(Word::Variable),
        Key(Word::Constant),
        Key(Word::Type),
        Key(Word::Subtype),
        Key(Word::Component),
        Key(Word::Label),
        Key(Word::Function),
        Key(Word::Package),
    ],
    Take::Keep,
    &[],
)];

/// A name of a use clause.
pub const SELECTED_NAME: [Alternative; 1] = [(
    &[Id],
    Take::Keep,
    &[
        Skip(Mark(Sign::Dot)),
        Keep(Id),
        Call(Place::SelectedSuffix),
        Make(Form::SelectedName),
    ],
)];

pub const MORE_SELECTED_NAMES: [Alternative; 1] = [(
    &[Mark(Sign::Comma)],
    Take::Skip,
    &[
        Call(Place::SelectedName),
        Make(Form::Add),
        Call(Place::MoreSelectedNames),
    ],
)];

pub const SELECTED_SUFFIX: [Alternative; 1] = [(
    &[Mark(Sign::Dot)],
    Take::Skip,
    &[Call(Place::Suffix)],
)];

pub const SELECTED_SUFFIX_ELSE: [Step; 1] = [Make(Form::Absent)];

pub const SUFFIX: [Alternative; 1] = [(&[Id, Str, Key(Word::All)], Take::Keep, &[])];

pub const TYPE_REST_ELSE: [Step; 5] = [
    Keep(Id),
    Skip(Key(Word::Is)),
    Call(Place::TypeDefinition),
    Skip(Mark(Sign::Semicolon)),
    Make(Form::Type),
];

pub const SUBTYPE_REST_ELSE: [Step; 5] = [
    Keep(Id),
    Skip(Key(Word::Is)),
    Call(Place::SubtypeIndication),
    Skip(Mark(Sign::Semicolon)),
    Make(Form::SubtypeDeclaration),
];

/// The names, the subtype and the initial value of a declaration of objects.
pub const OBJECT_REST_ELSE: [Step; 7] = [
    Keep(Id),
    Make(Form::One),
    Call(Place::MoreIdents),
    Skip(Mark(Sign::Colon)),
    Call(Place::SubtypeIndication),
    Call(Place::Default),
    Skip(Mark(Sign::Semicolon)),
];

/// A function behind its first word.
pub const FUNCTION_REST_ELSE: [Step; 5] = [
    Call(Place::Designator),
    Call(Place::Parameters),
    Skip(Key(Word::Return)),
    Call(Place::TypeMark),
    Make(Form::FunctionSpecification),
];

pub const COMPONENT_REST_ELSE: [Step; 9] = [
    Keep(Id),
    Call(Place::OptionalIs),
    Call(Place::Generics),
    Call(Place::Ports),
    Skip(Key(Word::End)),
    Skip(Key(Word::Component)),
    Call(Place::EndName),
    Skip(Mark(Sign::Semicolon)),
    Make(Form::ComponentDeclaration),
];

pub const ATTRIBUTE_REST_ELSE: [Step; 2] = [Keep(Id), Call(Place::BehindAttribute)];
