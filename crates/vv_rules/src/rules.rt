//! The rules on expressions whose types are found: what is read, aggregates, orderings and literals.

use vv_base::fault::{Refusal, Rule, Span};
use vv_typed::{Callee, Element, Form, Link, Suffix, TRange, TypeMark, Typed};
use vv_types::{BaseType, NumFn, ObjectKind, Op, StdFn, What};
use vv_visible::types::Library;

/// Where an expression stands.
#[derive(Clone, Copy, Debug, PartialEq, Eq)]
pub struct Context {
    /// It gives an aggregate its bounds.
    pub bounded: bool,
    /// It is an operand of `=` or `/=`, or a choice.
    pub compared: bool,
}

/// A context that gives no bounds.
pub const PLAIN: Context = Context {
    bounded: false,
    compared: false,
};

/// A context that gives bounds.
pub const BOUNDED: Context = Context {
    bounded: true,
    compared: false,
};

/// A choice, or an operand that is compared.
pub const COMPARED: Context = Context {
    bounded: false,
    compared: true,
};

pub fn refusal(rule: Rule, span: Span) -> Option<Refusal> {
    Some(Refusal { rule, span })
}

/// The earlier of two refusals: the one at the least file and offset, and of two there the one with the least rule.
pub fn earlier(a: Option<Refusal>, b: Option<Refusal>) -> Option<Refusal> {
    match (a, b) {
        (Some(x), Some(y)) => if is_before(y, x) { b } else { a },
        (Some(_), None) => a,
        (None, _) => b,
    }
}

/// Whether a refusal is told before another one.
fn is_before(x: Refusal, y: Refusal) -> bool {
    if x.span.file != y.span.file {
        return x.span.file < y.span.file;
    }
    if x.span.at != y.span.at {
        return x.span.at < y.span.at;
    }
    (x.rule as u8) < (y.rule as u8)
}

/// The kind of an object.
pub fn kind_of(lib: &Library<'_>, decl: u32) -> Option<ObjectKind> {
    match lib.declared(decl)?.what {
        What::Object { kind, .. } => Some(kind),
        _ => None,
    }
}

/// The first rule that an expression breaks.
#[cycle(rules)]
pub fn broken(e: &Typed, lib: &Library<'_>, context: Context) -> Option<Refusal> {
    match &e.form {
        Form::Integer(_) | Form::Literal { .. } | Form::Mark(_) => None,
        Form::Character { position, .. } => character(e, *position, context),
        Form::String(positions) | Form::BitString(positions) => {
            text(e, lib, positions.as_slice(), context)
        }
        Form::Object(decl) => object(lib, *decl, e.span),
        Form::Call {
            callee,
            formals,
            args,
        } => arguments(args.as_slice(), lib, *callee, formals.as_slice()),
        Form::Edge { signal, .. } => broken(signal.get(), lib, PLAIN),
        Form::Part { prefix, suffixes } => {
            earlier(
                broken(prefix.get(), lib, PLAIN),
                parts(suffixes.as_slice(), lib),
            )
        }
        Form::Conversion { operand, .. } => broken(operand.get(), lib, PLAIN),
        Form::Qualified { mark, operand } => { broken(operand.get(), lib, qualified(lib, *mark)) }
        Form::Length(prefix)
        | Form::Range(prefix)
        | Form::ReverseRange(prefix)
        | Form::Left(prefix)
        | Form::Right(prefix)
        | Form::High(prefix)
        | Form::Low(prefix) => unread(prefix.get(), lib),
        Form::Pos { operand, .. } | Form::Val { operand, .. } => {
            broken(operand.get(), lib, PLAIN)
        }
        Form::Event(prefix) => broken(prefix.get(), lib, PLAIN),
        Form::Logical { first, rest } | Form::Sum { first, rest } | Form::Product { first, rest } =>
            { earlier(broken(first.get(), lib, PLAIN), links(rest.as_slice(), lib)) }
        Form::Relation {
            left,
            callee,
            right,
        } => {
            let context = if is_equality(*callee) {
                COMPARED
            } else {
                PLAIN
            };
            let operands = earlier(
                broken(left.get(), lib, context),
                broken(right.get(), lib, context),
            );
            earlier(ordered(*callee, e.span), operands)
        }
        Form::Shift { left, right, .. } | Form::Power { left, right, .. } => earlier(
            broken(left.get(), lib, PLAIN),
            broken(right.get(), lib, PLAIN),
        ),
        Form::Sign { operand, .. } | Form::Absolute { operand, .. } | Form::Not { operand, .. } => {
            broken(operand.get(), lib, PLAIN)
        }
        Form::Parenthesis(inner) => broken(inner.get(), lib, context),
        Form::Aggregate(list) => earlier(
            order(list.as_slice(), context.bounded),
            elements(list.as_slice(), lib),
        ),
    }
}

/// The rules on a name that is written.
fn object(lib: &Library<'_>, decl: u32, span: Span) -> Option<Refusal> {
    match kind_of(lib, decl) {
        Some(ObjectKind::OutPort) => refusal(Rule::T4, span),
        _ => None,
    }
}

/// A prefix of an attribute that does not ask for the value.
#[cycle(rules)]
fn unread(e: &Typed, lib: &Library<'_>) -> Option<Refusal> {
    match &e.form {
        Form::Object(_) | Form::Mark(_) => None,
        Form::Part { suffixes, .. } => parts(suffixes.as_slice(), lib),
        _ => broken(e, lib, PLAIN),
    }
}

/// Whether a position is one of W, L and H.
fn is_weak(position: u32) -> bool {
    match position {
        5 | 6 | 7 => true,
        _ => false,
    }
}

/// Whether a position is one of U, X, Z and -.
fn is_unknown(position: u32) -> bool {
    match position {
        0 | 1 | 4 | 8 => true,
        _ => false,
    }
}

/// Whether a literal of `std_ulogic` cannot stand in a context.
fn is_barred(position: u32, context: Context) -> bool {
    is_weak(position) || context.compared && is_unknown(position)
}

fn character(e: &Typed, position: u32, context: Context) -> Option<Refusal> {
    if e.base == BaseType::Logic && is_barred(position, context) {
        refusal(Rule::T7, e.span)
    } else {
        None
    }
}

fn text(e: &Typed, lib: &Library<'_>, positions: &[u32], context: Context) -> Option<Refusal> {
    match lib.parts(e.base) {
        Some((_, BaseType::Logic)) => {
            for position in positions {
                if is_barred(*position, context) {
                    return refusal(Rule::T7, e.span);
                }
            }
            None
        }
        _ => None,
    }
}

/// The context that a qualified expression gives its operand.
fn qualified(lib: &Library<'_>, mark: TypeMark) -> Context {
    Context {
        bounded: lib.is_bounded(mark.decl),
        compared: false,
    }
}

/// The context that parameter `k` of a function gives its actual.
fn parameter(lib: &Library<'_>, callee: Callee, k: Option<u32>) -> Context {
    match (callee, k) {
        (Callee::User(decl), Some(k)) => {
            match lib.formal(decl, k) {
                Some(formal) => if formal.bounded { BOUNDED } else { PLAIN },
                None => PLAIN,
            }
        }
        _ => PLAIN,
    }
}

#[cycle(rules)]
fn arguments(
    args: &[Typed],
    lib: &Library<'_>,
    callee: Callee,
    formals: &[u32],
) -> Option<Refusal> {
    let mut first = None;
    for (at, e) in args.iter().enumerate() {
        let context = parameter(lib, callee, formals.get(at).copied());
        first = earlier(first, broken(e, lib, context));
    }
    first
}

#[cycle(rules)]
fn links(list: &[Link], lib: &Library<'_>) -> Option<Refusal> {
    let mut first = None;
    for link in list {
        first = earlier(first, broken(&link.right, lib, PLAIN));
    }
    first
}

#[cycle(rules)]
fn parts(list: &[Suffix], lib: &Library<'_>) -> Option<Refusal> {
    let mut first = None;
    for suffix in list {
        let here = match suffix {
            Suffix::Index { index, .. } => broken(index, lib, PLAIN),
            Suffix::Slice { range, .. } => broken_range(range, lib, PLAIN),
        };
        first = earlier(first, here);
    }
    first
}

/// The first rule that a range or a choice breaks.
#[cycle(rules)]
pub fn broken_range(range: &TRange, lib: &Library<'_>, context: Context) -> Option<Refusal> {
    match range {
        TRange::Whole(e) => broken(e, lib, context),
        TRange::Between { left, right, .. } => {
            earlier(broken(left, lib, context), broken(right, lib, context))
        }
        TRange::Within { range, .. } => broken_range(range.get(), lib, context),
        TRange::Others(_) => None,
    }
}

/// Whether a callee is `=` or `/=`.
fn is_equality(callee: Callee) -> bool {
    match callee {
        Callee::Standard(row) => match row {
            StdFn::EqualLogic | StdFn::NotEqualLogic | StdFn::EqualArray | StdFn::NotEqualArray => {
                true
            }
            _ => false,
        },
        Callee::Numeric(row) => match row {
            NumFn::EqualUnsignedUnsigned
            | NumFn::EqualSignedSigned
            | NumFn::EqualUnsignedNatural
            | NumFn::EqualNaturalUnsigned
            | NumFn::EqualSignedInteger
            | NumFn::EqualIntegerSigned
            | NumFn::NotEqualUnsignedUnsigned
            | NumFn::NotEqualSignedSigned
            | NumFn::NotEqualUnsignedNatural
            | NumFn::NotEqualNaturalUnsigned
            | NumFn::NotEqualSignedInteger
            | NumFn::NotEqualIntegerSigned => true,
            _ => false,
        },
        Callee::Predefined(_) | Callee::User(_) => false,
    }
}

/// Whether a callee is an ordering without a value.
fn is_ordering(callee: Callee) -> bool {
    match callee {
        Callee::Predefined(Op::Less | Op::LessEqual | Op::Greater | Op::GreaterEqual) => true,
        _ => false,
    }
}

/// The rule on orderings.
fn ordered(callee: Callee, span: Span) -> Option<Refusal> {
    if is_ordering(callee) {
        refusal(Rule::T6, span)
    } else {
        None
    }
}

#[cycle(rules)]
fn elements(list: &[Element], lib: &Library<'_>) -> Option<Refusal> {
    let mut first = None;
    for element in list {
        for choice in element.choices.as_slice() {
            first = earlier(first, broken_range(choice, lib, PLAIN));
        }
        first = earlier(first, broken(&element.value, lib, BOUNDED));
    }
    first
}

/// The place of `others` among choices.
fn others_of(choices: &[TRange]) -> Option<Span> {
    for choice in choices {
        if let TRange::Others(span) = choice {
            return Some(*span);
        }
    }
    None
}

/// The rule on the order of elements.
fn order(list: &[Element], bounded: bool) -> Option<Refusal> {
    let mut named = false;
    let mut left = list.len();
    for element in list {
        left = left.saturating_sub(1);
        let choices = element.choices.as_slice();
        if choices.is_empty() {
            if named {
                return refusal(Rule::T5, element.value.span);
            }
        } else {
            named = true;
            if let Some(span) = others_of(choices) {
                if choices.len() != 1 || left != 0 || !bounded {
                    return refusal(Rule::T5, span);
                }
            }
        }
    }
    None
}

/// The first rule that the indexes of a target break.
pub fn broken_parts(e: &Typed, lib: &Library<'_>) -> Option<Refusal> {
    match &e.form {
        Form::Part { suffixes, .. } => parts(suffixes.as_slice(), lib),
        _ => None,
    }
}
