//! The places of expressions.

use crate::form::Form;
use crate::place::Place;
use crate::step::Step::{Call, Keep, Make, Skip};
use crate::step::{Alternative, Step, Take};
use crate::terminal::Terminal::{BitStr, Char, Id, Int, Key, Mark, Str};
use vv_vlex::sign::Sign;
use vv_vlex::word::Word;

/// An expression: relations that one logical operator joins (IEEE 1076-1993, clause 7.1).
pub const EXPRESSION: [Alternative; 1] = [(
    &[
        Id,
        Int,
        Char,
        Str,
        BitStr,
        Mark(Sign::Open),
        Mark(Sign::Plus),
        Mark(Sign::Minus),
        Key(Word::Abs),
        Key(Word::Not),
    ],
    Take::Look,
    &[Call(Place::Relation), Call(Place::Combined)],
)];

/// An expression whose first identifier was read, at what can follow that identifier.
pub const EXPRESSION_BEHIND_IDENT: [Alternative; 1] = [(
    &[
        Mark(Sign::Dot),
        Mark(Sign::Open),
        Mark(Sign::Tick),
        Mark(Sign::StarStar),
        Mark(Sign::Star),
        Mark(Sign::Slash),
        Key(Word::Mod),
        Key(Word::Rem),
        Mark(Sign::Plus),
        Mark(Sign::Minus),
        Mark(Sign::Ampersand),
        Key(Word::Sll),
        Key(Word::Srl),
        Key(Word::Sla),
        Key(Word::Sra),
        Key(Word::Rol),
        Key(Word::Ror),
        Mark(Sign::Equal),
        Mark(Sign::NotEqual),
        Mark(Sign::Less),
        Mark(Sign::LessEqual),
        Mark(Sign::Greater),
        Mark(Sign::GreaterEqual),
        Key(Word::And),
        Key(Word::Or),
        Key(Word::Xor),
        Key(Word::Xnor),
        Key(Word::Nand),
        Key(Word::Nor),
        Key(Word::To),
        Key(Word::Downto),
        Mark(Sign::Comma),
        Mark(Sign::Close),
    ],
    Take::Look,
    &[
        Make(Form::Empty),
        Call(Place::NameParts),
        Make(Form::Name),
        Call(Place::Power),
        Call(Place::Factors),
        Call(Place::Terms),
        Call(Place::Shifted),
        Call(Place::Compared),
        Call(Place::Combined),
    ],
)];

/// An expression that a name begins which was read as far as it can be a mark, at what can follow that name in a discrete range.
pub const EXPRESSION_BEHIND_MARK: [Alternative; 1] = [(
    &[
        Mark(Sign::Open),
        Mark(Sign::Tick),
        Mark(Sign::StarStar),
        Mark(Sign::Star),
        Mark(Sign::Slash),
        Key(Word::Mod),
        Key(Word::Rem),
        Mark(Sign::Plus),
        Mark(Sign::Minus),
        Mark(Sign::Ampersand),
        Key(Word::Sll),
        Key(Word::Srl),
        Key(Word::Sla),
        Key(Word::Sra),
        Key(Word::Rol),
        Key(Word::Ror),
        Mark(Sign::Equal),
        Mark(Sign::NotEqual),
        Mark(Sign::Less),
        Mark(Sign::LessEqual),
        Mark(Sign::Greater),
        Mark(Sign::GreaterEqual),
        Key(Word::And),
        Key(Word::Or),
        Key(Word::Xor),
        Key(Word::Xnor),
        Key(Word::Nand),
        Key(Word::Nor),
        Key(Word::To),
        Key(Word::Downto),
        Mark(Sign::Close),
        Key(Word::Loop),
        Key(Word::Generate),
    ],
    Take::Look,
    &[
        Call(Place::NamePartsBehindMark),
        Make(Form::Name),
        Call(Place::Power),
        Call(Place::Factors),
        Call(Place::Terms),
        Call(Place::Shifted),
        Call(Place::Compared),
        Call(Place::Combined),
    ],
)];

/// A logical operator and the relations behind it.
pub const COMBINED: [Alternative; 5] = [
    (
        &[Key(Word::And)],
        Take::Keep,
        &[
            Call(Place::Relation),
            Make(Form::Operand),
            Make(Form::One),
            Call(Place::MoreAnd),
            Make(Form::Logic),
        ],
    ),
    (
        &[Key(Word::Or)],
        Take::Keep,
        &[
            Call(Place::Relation),
            Make(Form::Operand),
            Make(Form::One),
            Call(Place::MoreOr),
            Make(Form::Logic),
        ],
    ),
    (
        &[Key(Word::Xor)],
        Take::Keep,
        &[
            Call(Place::Relation),
            Make(Form::Operand),
            Make(Form::One),
            Call(Place::MoreXor),
            Make(Form::Logic),
        ],
    ),
    (
        &[Key(Word::Xnor)],
        Take::Keep,
        &[
            Call(Place::Relation),
            Make(Form::Operand),
            Make(Form::One),
            Call(Place::MoreXnor),
            Make(Form::Logic),
        ],
    ),
    (
        &[Key(Word::Nand), Key(Word::Nor)],
        Take::Keep,
        &[
            Call(Place::Relation),
            Make(Form::Operand),
            Make(Form::One),
            Make(Form::Logic),
        ],
    ),
];

pub const MORE_AND: [Alternative; 1] = [(
    &[Key(Word::And)],
    Take::Keep,
    &[
        Call(Place::Relation),
        Make(Form::Operand),
        Make(Form::Add),
        Call(Place::MoreAnd),
    ],
)];

pub const MORE_OR: [Alternative; 1] = [(
    &[Key(Word::Or)],
    Take::Keep,
    &[
        Call(Place::Relation),
        Make(Form::Operand),
        Make(Form::Add),
        Call(Place::MoreOr),
    ],
)];

pub const MORE_XOR: [Alternative; 1] = [(
    &[Key(Word::Xor)],
    Take::Keep,
    &[
        Call(Place::Relation),
        Make(Form::Operand),
        Make(Form::Add),
        Call(Place::MoreXor),
    ],
)];

pub const MORE_XNOR: [Alternative; 1] = [(
    &[Key(Word::Xnor)],
    Take::Keep,
    &[
        Call(Place::Relation),
        Make(Form::Operand),
        Make(Form::Add),
        Call(Place::MoreXnor),
    ],
)];

/// A relation: one shift expression, or two that are compared.
pub const RELATION_ELSE: [Step; 2] = [Call(Place::ShiftExpression), Call(Place::Compared)];

pub const COMPARED: [Alternative; 1] = [(
    &[
        Mark(Sign::Equal),
        Mark(Sign::NotEqual),
        Mark(Sign::Less),
        Mark(Sign::LessEqual),
        Mark(Sign::Greater),
        Mark(Sign::GreaterEqual),
    ],
    Take::Keep,
    &[Call(Place::ShiftExpression), Make(Form::Relation)],
)];

pub const SHIFT_EXPRESSION_ELSE: [Step; 2] = [Call(Place::SimpleExpression), Call(Place::Shifted)];

pub const SHIFTED: [Alternative; 1] = [(
    &[
        Key(Word::Sll),
        Key(Word::Srl),
        Key(Word::Sla),
        Key(Word::Sra),
        Key(Word::Rol),
        Key(Word::Ror),
    ],
    Take::Keep,
    &[Call(Place::SimpleExpression), Make(Form::Shift)],
)];

/// A sum. A sign stands before its first term.
pub const SIMPLE_EXPRESSION: [Alternative; 1] = [(
    &[Mark(Sign::Plus), Mark(Sign::Minus)],
    Take::Keep,
    &[Call(Place::Term), Make(Form::Signed), Call(Place::Terms)],
)];

pub const SIMPLE_EXPRESSION_ELSE: [Step; 2] = [Call(Place::Term), Call(Place::Terms)];

/// The terms behind the first one.
pub const TERMS: [Alternative; 1] = [(
    &[Mark(Sign::Plus), Mark(Sign::Minus), Mark(Sign::Ampersand)],
    Take::Keep,
    &[
        Call(Place::Term),
        Make(Form::Operand),
        Make(Form::One),
        Call(Place::MoreTerms),
        Make(Form::Sum),
    ],
)];

pub const MORE_TERMS: [Alternative; 1] = [(
    &[Mark(Sign::Plus), Mark(Sign::Minus), Mark(Sign::Ampersand)],
    Take::Keep,
    &[
        Call(Place::Term),
        Make(Form::Operand),
        Make(Form::Add),
        Call(Place::MoreTerms),
    ],
)];

pub const TERM_ELSE: [Step; 2] = [Call(Place::Factor), Call(Place::Factors)];

/// The factors behind the first one.
pub const FACTORS: [Alternative; 1] = [(
    &[
        Mark(Sign::Star),
        Mark(Sign::Slash),
        Key(Word::Mod),
        Key(Word::Rem),
    ],
    Take::Keep,
    &[
        Call(Place::Factor),
        Make(Form::Operand),
        Make(Form::One),
        Call(Place::MoreFactors),
        Make(Form::Product),
    ],
)];

pub const MORE_FACTORS: [Alternative; 1] = [(
    &[
        Mark(Sign::Star),
        Mark(Sign::Slash),
        Key(Word::Mod),
        Key(Word::Rem),
    ],
    Take::Keep,
    &[
        Call(Place::Factor),
        Make(Form::Operand),
        Make(Form::Add),
        Call(Place::MoreFactors),
    ],
)];

pub const FACTOR: [Alternative; 2] = [
    (
        &[Key(Word::Abs)],
        Take::Keep,
        &[Call(Place::Primary), Make(Form::Abs)],
    ),
    (
        &[Key(Word::Not)],
        Take::Keep,
        &[Call(Place::Primary), Make(Form::Not)],
    ),
];

pub const FACTOR_ELSE: [Step; 2] = [Call(Place::Primary), Call(Place::Power)];

/// An exponent.
pub const POWER: [Alternative; 1] = [(
    &[Mark(Sign::StarStar)],
    Take::Skip,
    &[Call(Place::Primary), Make(Form::Power)],
)];

pub const PRIMARY: [Alternative; 3] = [
    (
        &[Id],
        Take::Keep,
        &[Make(Form::Empty), Call(Place::NameParts), Make(Form::Name)],
    ),
    (
        &[Int, Char, Str, BitStr],
        Take::Keep,
        &[Make(Form::Literal)],
    ),
    (&[Mark(Sign::Open)], Take::Keep, &[Call(Place::Parenthesis)]),
];

/// The parts of a name behind its first identifier.
pub const NAME_PARTS: [Alternative; 3] = [
    (
        &[Mark(Sign::Dot)],
        Take::Skip,
        &[
            Keep(Id),
            Make(Form::SelectedPart),
            Make(Form::Add),
            Call(Place::NameParts),
        ],
    ),
    (
        &[Mark(Sign::Open)],
        Take::Keep,
        &[
            Call(Place::Argument),
            Make(Form::One),
            Call(Place::MoreArguments),
            Skip(Mark(Sign::Close)),
            Make(Form::Arguments),
            Make(Form::Add),
            Call(Place::NameParts),
        ],
    ),
    (
        &[Mark(Sign::Tick)],
        Take::Keep,
        &[
            Call(Place::BehindTick),
            Make(Form::Add),
            Call(Place::NameParts),
        ],
    ),
];

/// The parts of a name behind what could be a mark: none of its own begins with a dot.
pub const NAME_PARTS_BEHIND_MARK: [Alternative; 2] = [
    (
        &[Mark(Sign::Open)],
        Take::Keep,
        &[
            Call(Place::Argument),
            Make(Form::One),
            Call(Place::MoreArguments),
            Skip(Mark(Sign::Close)),
            Make(Form::Arguments),
            Make(Form::Add),
            Call(Place::NameParts),
        ],
    ),
    (
        &[Mark(Sign::Tick)],
        Take::Keep,
        &[
            Call(Place::BehindTick),
            Make(Form::Add),
            Call(Place::NameParts),
        ],
    ),
];

/// What stands behind a tick: an attribute, or the operand of a qualified expression.
pub const BEHIND_TICK: [Alternative; 3] = [
    (&[Id], Take::Keep, &[Make(Form::Attribute)]),
    (
        &[Key(Word::Range)],
        Take::Skip,
        &[Make(Form::RangeAttribute)],
    ),
    (
        &[Mark(Sign::Open)],
        Take::Keep,
        &[Call(Place::Parenthesis), Make(Form::Qualified)],
    ),
];

/// An argument, or the formal name that stands before one.
pub const ARGUMENT: [Alternative; 2] = [
    (&[Id], Take::Keep, &[Call(Place::ArgumentBehindIdent)]),
    (
        &[
            Int,
            Char,
            Str,
            BitStr,
            Mark(Sign::Open),
            Mark(Sign::Plus),
            Mark(Sign::Minus),
            Key(Word::Abs),
            Key(Word::Not),
        ],
        Take::Look,
        &[Call(Place::Range), Make(Form::Positional)],
    ),
];

pub const ARGUMENT_BEHIND_IDENT: [Alternative; 1] = [(
    &[Mark(Sign::Arrow)],
    Take::Skip,
    &[Call(Place::Range), Make(Form::Named)],
)];

pub const ARGUMENT_BEHIND_IDENT_ELSE: [Step; 3] = [
    Call(Place::ExpressionBehindIdent),
    Call(Place::RangeEnd),
    Make(Form::Positional),
];

pub const MORE_ARGUMENTS: [Alternative; 1] = [(
    &[Mark(Sign::Comma)],
    Take::Skip,
    &[
        Call(Place::Argument),
        Make(Form::Add),
        Call(Place::MoreArguments),
    ],
)];

/// Behind an opening parenthesis: an expression in parentheses or an aggregate.
pub const PARENTHESIS: [Alternative; 1] = [(
    &[Key(Word::Others)],
    Take::Keep,
    &[
        Make(Form::Others),
        Make(Form::One),
        Call(Place::BehindChoices),
        Make(Form::One),
        Call(Place::MoreElements),
        Skip(Mark(Sign::Close)),
        Make(Form::Aggregate),
    ],
)];

pub const PARENTHESIS_ELSE: [Step; 2] = [Call(Place::Expression), Call(Place::BehindFirst)];

/// Behind the first expression in parentheses.
pub const BEHIND_FIRST: [Alternative; 4] = [
    (&[Mark(Sign::Close)], Take::Skip, &[Make(Form::Parentheses)]),
    (
        &[Mark(Sign::Comma)],
        Take::Look,
        &[
            Make(Form::Element),
            Make(Form::One),
            Skip(Mark(Sign::Comma)),
            Call(Place::Element),
            Make(Form::Add),
            Call(Place::MoreElements),
            Skip(Mark(Sign::Close)),
            Make(Form::Aggregate),
        ],
    ),
    (
        &[Key(Word::To), Key(Word::Downto)],
        Take::Keep,
        &[
            Call(Place::Expression),
            Make(Form::Range),
            Make(Form::Single),
            Make(Form::One),
            Call(Place::BehindChoices),
            Make(Form::One),
            Call(Place::MoreElements),
            Skip(Mark(Sign::Close)),
            Make(Form::Aggregate),
        ],
    ),
    (
        &[Mark(Sign::Bar), Mark(Sign::Arrow)],
        Take::Look,
        &[
            Make(Form::Only),
            Make(Form::Single),
            Make(Form::One),
            Call(Place::BehindChoices),
            Make(Form::One),
            Call(Place::MoreElements),
            Skip(Mark(Sign::Close)),
            Make(Form::Aggregate),
        ],
    ),
];

/// What is known to be an aggregate, behind its opening parenthesis.
pub const AGGREGATE_ELEMENTS: [Alternative; 1] = [(
    &[Key(Word::Others)],
    Take::Keep,
    &[
        Make(Form::Others),
        Make(Form::One),
        Call(Place::BehindChoices),
        Make(Form::One),
        Call(Place::MoreElements),
        Skip(Mark(Sign::Close)),
        Make(Form::Aggregate),
    ],
)];

pub const AGGREGATE_ELEMENTS_ELSE: [Step; 2] = [
    Call(Place::Expression),
    Call(Place::BehindFirstElement),
];

pub const BEHIND_FIRST_ELEMENT: [Alternative; 3] = [
    (
        &[Mark(Sign::Comma)],
        Take::Look,
        &[
            Make(Form::Element),
            Make(Form::One),
            Skip(Mark(Sign::Comma)),
            Call(Place::Element),
            Make(Form::Add),
            Call(Place::MoreElements),
            Skip(Mark(Sign::Close)),
            Make(Form::Aggregate),
        ],
    ),
    (
        &[Key(Word::To), Key(Word::Downto)],
        Take::Keep,
        &[
            Call(Place::Expression),
            Make(Form::Range),
            Make(Form::Single),
            Make(Form::One),
            Call(Place::BehindChoices),
            Make(Form::One),
            Call(Place::MoreElements),
            Skip(Mark(Sign::Close)),
            Make(Form::Aggregate),
        ],
    ),
    (
        &[Mark(Sign::Bar), Mark(Sign::Arrow)],
        Take::Look,
        &[
            Make(Form::Only),
            Make(Form::Single),
            Make(Form::One),
            Call(Place::BehindChoices),
            Make(Form::One),
            Call(Place::MoreElements),
            Skip(Mark(Sign::Close)),
            Make(Form::Aggregate),
        ],
    ),
];

pub const MORE_ELEMENTS: [Alternative; 1] = [(
    &[Mark(Sign::Comma)],
    Take::Skip,
    &[
        Call(Place::Element),
        Make(Form::Add),
        Call(Place::MoreElements),
    ],
)];

/// An element of an aggregate.
pub const ELEMENT: [Alternative; 1] = [(
    &[Key(Word::Others)],
    Take::Keep,
    &[
        Make(Form::Others),
        Make(Form::One),
        Call(Place::BehindChoices),
    ],
)];

pub const ELEMENT_ELSE: [Step; 2] = [Call(Place::Expression), Call(Place::BehindElement)];

/// Behind an expression that is an element or its first choice.
pub const BEHIND_ELEMENT: [Alternative; 2] = [
    (
        &[Key(Word::To), Key(Word::Downto)],
        Take::Keep,
        &[
            Call(Place::Expression),
            Make(Form::Range),
            Make(Form::Single),
            Make(Form::One),
            Call(Place::BehindChoices),
        ],
    ),
    (
        &[Mark(Sign::Bar), Mark(Sign::Arrow)],
        Take::Look,
        &[
            Make(Form::Only),
            Make(Form::Single),
            Make(Form::One),
            Call(Place::BehindChoices),
        ],
    ),
];

pub const BEHIND_ELEMENT_ELSE: [Step; 1] = [Make(Form::Element)];

/// Behind the choices of an element.
pub const BEHIND_CHOICES: [Alternative; 2] = [
    (
        &[Mark(Sign::Bar)],
        Take::Skip,
        &[
            Call(Place::Choice),
            Make(Form::Add),
            Call(Place::BehindChoices),
        ],
    ),
    (
        &[Mark(Sign::Arrow)],
        Take::Skip,
        &[Call(Place::Expression), Make(Form::BoundElement)],
    ),
];

pub const CHOICE: [Alternative; 1] = [(&[Key(Word::Others)], Take::Keep, &[Make(Form::Others)])];

pub const CHOICE_ELSE: [Step; 2] = [Call(Place::Range), Make(Form::Single)];

pub const MORE_CHOICES: [Alternative; 1] = [(
    &[Mark(Sign::Bar)],
    Take::Skip,
    &[
        Call(Place::Choice),
        Make(Form::Add),
        Call(Place::MoreChoices),
    ],
)];

/// A name (IEEE 1076-1993, clause 6).
pub const NAME: [Alternative; 1] = [(
    &[Id],
    Take::Keep,
    &[Make(Form::Empty), Call(Place::NameParts), Make(Form::Name)],
)];

pub const CHOICES_ELSE: [Step; 3] = [
    Call(Place::Choice),
    Make(Form::One),
    Call(Place::MoreChoices),
];
