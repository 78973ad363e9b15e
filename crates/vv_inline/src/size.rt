//! How large and how deep expressions are.

use vv_vtree::{VExpr, VReference};

/// How many parts an expression has, at most `most`.
#[cycle(sizes)]
pub fn size_of(e: &VExpr, most: u32) -> u32 {
    match e {
        VExpr::Reference(VReference::Select(_)) | VExpr::Bits(_) => 1,
        VExpr::Reference(
            VReference::Indexed {
                name: _,
                index,
                count: _,
            },
        ) => size_of(index.get(), most).saturating_add(1),
        VExpr::Concatenation { parts, at: _ } => sizes(parts.as_slice(), most),
        VExpr::Repetition {
            count: _,
            part,
            at: _,
        } => size_of(part.get(), most).saturating_add(1),
        VExpr::Call { name: _, args } => sizes(args.as_slice(), most),
        VExpr::Unary {
            op: _,
            operand,
            at: _,
        } => size_of(operand.get(), most).saturating_add(1),
        VExpr::Binary {
            left,
            op: _,
            right,
            at: _,
        } => {
            let left = size_of(left.get(), most);
            if left > most {
                return left;
            }
            left.saturating_add(size_of(right.get(), most))
                .saturating_add(1)
        }
        VExpr::Conditional {
            condition,
            yes,
            no,
            at: _,
        } => {
            let test = size_of(condition.get(), most);
            let yes = size_of(yes.get(), most);
            let no = size_of(no.get(), most);
            test.saturating_add(yes)
                .saturating_add(no)
                .saturating_add(1)
        }
    }
}

#[cycle(sizes)]
fn sizes(exprs: &[VExpr], most: u32) -> u32 {
    let mut sum = 1u32;
    for e in exprs {
        if sum <= most {
            sum = sum.saturating_add(size_of(e, most));
        }
    }
    sum
}

/// The depth of an expression.
#[cycle(depths)]
pub fn depth_of(e: &VExpr) -> u32 {
    match e {
        VExpr::Reference(VReference::Select(_)) | VExpr::Bits(_) => 1,
        VExpr::Reference(
            VReference::Indexed {
                name: _,
                index,
                count: _,
            },
        ) => depth_of(index.get()).saturating_add(1),
        VExpr::Concatenation { parts, at: _ } => depths(parts.as_slice()).saturating_add(1),
        VExpr::Repetition {
            count: _,
            part,
            at: _,
        } => depth_of(part.get()).saturating_add(1),
        VExpr::Call { name: _, args } => depths(args.as_slice()).saturating_add(1),
        VExpr::Unary {
            op: _,
            operand,
            at: _,
        } => depth_of(operand.get()).saturating_add(1),
        VExpr::Binary {
            left,
            op: _,
            right,
            at: _,
        } => depth_of(left.get())
            .max(depth_of(right.get()))
            .saturating_add(1),
        VExpr::Conditional {
            condition,
            yes,
            no,
            at: _,
        } => depth_of(condition.get())
            .max(depth_of(yes.get()))
            .max(depth_of(no.get()))
            .saturating_add(1),
    }
}

#[cycle(depths)]
fn depths(exprs: &[VExpr]) -> u32 {
    let mut most = 0u32;
    for e in exprs {
        most = most.max(depth_of(e));
    }
    most
}
