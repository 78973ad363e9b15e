//! The places of ranges, type marks and subtypes.

use crate::form::Form;
use crate::place::Place;
use crate::step::Step::{Call, Keep, Make, Many, Skip};
use crate::step::{Alternative, Step, Take};
use crate::terminal::Terminal::{BitStr, Char, Id, Int, Key, Mark, Str};
use vv_vlex::sign::Sign;
use vv_vlex::word::Word;

/// A range, or one value.
pub const RANGE_ELSE: [Step; 2] = [Call(Place::Expression), Call(Place::RangeEnd)];

pub const RANGE_END: [Alternative; 1] = [(
    &[Key(Word::To), Key(Word::Downto)],
    Take::Keep,
    &[Call(Place::Expression), Make(Form::Range)],
)];

pub const RANGE_END_ELSE: [Step; 1] = [Make(Form::Only)];

/// A range by its bounds, or by a subtype with or without a range.
pub const DISCRETE_RANGE: [Alternative; 2] = [
    (
        &[Id],
        Take::Keep,
        &[
            Make(Form::Empty),
            Many(Place::MarkPart),
            Call(Place::DiscreteRangeBehindMark),
        ],
    ),
    (
        &[
            Int,
            Char,
            Str,
            BitStr,
            Mark(Sign::Open),
            Mark(Sign::Plus),
            Mark(Sign::Minus),
            Key(Word::Abs),
            Key(Word::Not),
        ],
        Take::Look,
        &[Call(Place::Range), Make(Form::Discrete)],
    ),
];

/// A name was read as far as it can be a mark.
pub const DISCRETE_RANGE_BEHIND_MARK: [Alternative; 1] = [(
    &[Key(Word::Range)],
    Take::Look,
    &[
        Make(Form::Mark),
        Skip(Key(Word::Range)),
        Call(Place::Range),
        Make(Form::MarkRange),
    ],
)];

pub const DISCRETE_RANGE_BEHIND_MARK_ELSE: [Step; 3] = [
    Call(Place::ExpressionBehindMark),
    Call(Place::RangeEnd),
    Make(Form::Discrete),
];

/// A part of a mark.
pub const MARK_PART: [Alternative; 1] = [(
    &[Mark(Sign::Dot)],
    Take::Skip,
    &[Keep(Id), Make(Form::SelectedPart)],
)];

pub const MORE_IDENTS: [Alternative; 1] = [(
    &[Mark(Sign::Comma)],
    Take::Skip,
    &[Keep(Id), Make(Form::Add), Call(Place::MoreIdents)],
)];

pub const CONSTRAINT: [Alternative; 2] = [
    (
        &[Mark(Sign::Open)],
        Take::Skip,
        &[
            Call(Place::DiscreteRange),
            Skip(Mark(Sign::Close)),
            Make(Form::IndexConstraint),
        ],
    ),
    (
        &[Key(Word::Range)],
        Take::Skip,
        &[Call(Place::Range), Make(Form::RangeConstraint)],
    ),
];

pub const CONSTRAINT_ELSE: [Step; 1] = [Make(Form::Absent)];

/// A type mark: identifiers with dots between them.
pub const TYPE_MARK: [Alternative; 1] = [(
    &[Id],
    Take::Keep,
    &[Make(Form::Empty), Many(Place::MarkPart), Make(Form::Mark)],
)];

/// A subtype indication (IEEE 1076-1993, clause 4.2).
pub const SUBTYPE_INDICATION_ELSE: [Step; 3] = [
    Call(Place::TypeMark),
    Call(Place::Constraint),
    Make(Form::Subtype),
];
