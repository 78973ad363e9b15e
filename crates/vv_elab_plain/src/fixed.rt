//! Whether an expression is static.

use vv_elab_base::making::Making;
use vv_held::Entry;
use vv_typed::{Element, Form, Link, Suffix, TRange, Typed};

/// Whether an expression is static. Parameters of loops count where `turns` is true.
#[cycle(fixed)]
pub fn is_fixed<'u>(making: &Making<'u>, e: &Typed, turns: bool) -> bool {
    match &e.form {
        Form::Object(decl) => match making.env.entry(*decl) {
            Some(Entry::Constant(_)) => turns || !making.known(*decl).turn,
            _ => false,
        },
        Form::Call {
            callee: _,
            formals: _,
            args,
        } => are_fixed(making, args.as_slice(), turns),
        Form::Part { prefix, suffixes } => {
            is_fixed(making, prefix.get(), turns)
                && are_suffixes_fixed(making, suffixes.as_slice(), turns)
        }
        Form::Conversion { mark: _, operand }
        | Form::Qualified { mark: _, operand }
        | Form::Pos { mark: _, operand }
        | Form::Val { mark: _, operand }
        | Form::Sign { callee: _, operand }
        | Form::Absolute { callee: _, operand }
        | Form::Not { callee: _, operand }
        | Form::Parenthesis(operand) => is_fixed(making, operand.get(), turns),
        Form::Length(prefix)
        | Form::Range(prefix)
        | Form::ReverseRange(prefix)
        | Form::Left(prefix)
        | Form::Right(prefix)
        | Form::High(prefix)
        | Form::Low(prefix) => match &prefix.get().form {
            Form::Call {
                callee: _,
                formals: _,
                args,
            } => are_fixed(making, args.as_slice(), turns),
            _ => true,
        },
        Form::Logical { first, rest } | Form::Sum { first, rest } | Form::Product { first, rest } =>
            {
                is_fixed(making, first.get(), turns)
                    && are_links_fixed(making, rest.as_slice(), turns)
            }
        Form::Relation {
            left,
            callee: _,
            right,
        }
        | Form::Shift {
            left,
            callee: _,
            right,
        }
        | Form::Power {
            left,
            callee: _,
            right,
        } => is_fixed(making, left.get(), turns) && is_fixed(making, right.get(), turns),
        Form::Aggregate(elements) => are_elements_fixed(making, elements.as_slice(), turns),
        _ => is_fixed_leaf(&e.form),
    }
}

/// Whether a form without parts is static.
fn is_fixed_leaf(form: &Form) -> bool {
    match form {
        Form::Event(_)
        | Form::Edge {
            rising: _,
            signal: _,
        } => false,
        _ => true,
    }
}

#[cycle(fixed)]
fn are_fixed<'u>(making: &Making<'u>, list: &[Typed], turns: bool) -> bool {
    for e in list {
        if !is_fixed(making, e, turns) {
            return false;
        }
    }
    true
}

#[cycle(fixed)]
fn are_links_fixed<'u>(making: &Making<'u>, links: &[Link], turns: bool) -> bool {
    for link in links {
        if !is_fixed(making, &link.right, turns) {
            return false;
        }
    }
    true
}

#[cycle(fixed)]
fn are_elements_fixed<'u>(making: &Making<'u>, elements: &[Element], turns: bool) -> bool {
    for element in elements {
        if !is_fixed(making, &element.value, turns) {
            return false;
        }
    }
    true
}

#[cycle(fixed)]
fn are_suffixes_fixed<'u>(making: &Making<'u>, suffixes: &[Suffix], turns: bool) -> bool {
    for suffix in suffixes {
        let fixed = match suffix {
            Suffix::Index {
                index,
                base: _,
                span: _,
            } => is_fixed(making, index, turns),
            Suffix::Slice { range, span: _ } => is_range_fixed(making, range, turns),
        };
        if !fixed {
            return false;
        }
    }
    true
}

/// Whether the bounds of a range are static.
#[cycle(fixed)]
pub fn is_range_fixed<'u>(making: &Making<'u>, range: &TRange, turns: bool) -> bool {
    match range {
        TRange::Whole(e) => is_fixed(making, e, turns),
        TRange::Between {
            left,
            right,
            down: _,
        } => is_fixed(making, left, turns) && is_fixed(making, right, turns),
        TRange::Within { mark: _, range } => is_range_fixed(making, range.get(), turns),
        TRange::Others(_) => true,
    }
}
