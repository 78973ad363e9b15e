//! The places of units and their contexts.

use crate::form::Form;
use crate::place::Place;
use crate::step::Step::{Call, Keep, Make, Many, Skip};
use crate::step::{Alternative, Step, Take};
use crate::terminal::Terminal::{Id, Key, Mark};
use vv_vlex::sign::Sign;
use vv_vlex::word::Word;

/// A unit with its context clauses.
pub const UNIT: [Alternative; 5] = [
    (
        &[Key(Word::Library)],
        Take::Keep,
        &[
            Call(Place::LibraryRest),
            Make(Form::One),
            Call(Place::UnitBehindContext),
        ],
    ),
    (
        &[Key(Word::Use)],
        Take::Keep,
        &[
            Call(Place::UseRest),
            Make(Form::UseContext),
            Make(Form::One),
            Call(Place::UnitBehindContext),
        ],
    ),
    (
        &[Key(Word::Entity)],
        Take::Keep,
        &[Call(Place::EntityRest), Make(Form::Bare)],
    ),
    (
        &[Key(Word::Architecture)],
        Take::Keep,
        &[Call(Place::ArchitectureRest), Make(Form::Bare)],
    ),
    (
        &[Key(Word::Package)],
        Take::Keep,
        &[Call(Place::BehindPackage), Make(Form::Bare)],
    ),
];

pub const UNIT_BEHIND_CONTEXT: [Alternative; 5] = [
    (
        &[Key(Word::Library)],
        Take::Keep,
        &[
            Call(Place::LibraryRest),
            Make(Form::Add),
            Call(Place::UnitBehindContext),
        ],
    ),
    (
        &[Key(Word::Use)],
        Take::Keep,
        &[
            Call(Place::UseRest),
            Make(Form::UseContext),
            Make(Form::Add),
            Call(Place::UnitBehindContext),
        ],
    ),
    (
        &[Key(Word::Entity)],
        Take::Keep,
        &[Call(Place::EntityRest), Make(Form::Unit)],
    ),
    (
        &[Key(Word::Architecture)],
        Take::Keep,
        &[Call(Place::ArchitectureRest), Make(Form::Unit)],
    ),
    (
        &[Key(Word::Package)],
        Take::Keep,
        &[Call(Place::BehindPackage), Make(Form::Unit)],
    ),
];

pub const BEHIND_PACKAGE: [Alternative; 2] = [
    (
        &[Id],
        Take::Keep,
        &[
            Skip(Key(Word::Is)),
            Make(Form::Empty),
            Many(Place::PackageDeclaration),
            Skip(Key(Word::End)),
            Call(Place::EndPackage),
            Call(Place::EndName),
            Skip(Mark(Sign::Semicolon)),
            Make(Form::Package),
        ],
    ),
    (
        &[Key(Word::Body)],
        Take::Skip,
        &[
            Keep(Id),
            Skip(Key(Word::Is)),
            Make(Form::Empty),
            Many(Place::BodyDeclaration),
            Skip(Key(Word::End)),
            Call(Place::EndBody),
            Call(Place::EndName),
            Skip(Mark(Sign::Semicolon)),
            Make(Form::PackageBody),
        ],
    ),
];

pub const END_PACKAGE: [Alternative; 1] = [(&[Key(Word::Package)], Take::Skip, &[])];

pub const END_BODY: [Alternative; 1] = [(
    &[Key(Word::Package)],
    Take::Skip,
    &[Skip(Key(Word::Body))],
)];

pub const END_ENTITY: [Alternative; 1] = [(&[Key(Word::Entity)], Take::Skip, &[])];

pub const END_ARCHITECTURE: [Alternative; 1] = [(&[Key(Word::Architecture)], Take::Skip, &[])];

pub const ENTITY_REST_ELSE: [Step; 9] = [
    Keep(Id),
    Skip(Key(Word::Is)),
    Call(Place::Generics),
    Call(Place::Ports),
    Skip(Key(Word::End)),
    Call(Place::EndEntity),
    Call(Place::EndName),
    Skip(Mark(Sign::Semicolon)),
    Make(Form::Entity),
];

pub const ARCHITECTURE_REST_ELSE: [Step; 14] = [
    Keep(Id),
    Skip(Key(Word::Of)),
    Keep(Id),
    Skip(Key(Word::Is)),
    Make(Form::Empty),
    Many(Place::Declaration),
    Skip(Key(Word::Begin)),
    Make(Form::Empty),
    Many(Place::Concurrent),
    Skip(Key(Word::End)),
    Call(Place::EndArchitecture),
    Call(Place::EndName),
    Skip(Mark(Sign::Semicolon)),
    Make(Form::Architecture),
];

pub const LIBRARY_REST_ELSE: [Step; 5] = [
    Keep(Id),
    Make(Form::One),
    Call(Place::MoreIdents),
    Skip(Mark(Sign::Semicolon)),
    Make(Form::Library),
];

pub const USE_REST_ELSE: [Step; 5] = [
    Call(Place::SelectedName),
    Make(Form::One),
    Call(Place::MoreSelectedNames),
    Skip(Mark(Sign::Semicolon)),
    Make(Form::Use),
];
