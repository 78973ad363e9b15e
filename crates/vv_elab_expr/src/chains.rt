//! Operands that operators join.

use crate::calls::argument;
use crate::expressions::expression;
use vv_base::fault::{Fault, Rule};
use vv_design::Operator;
use vv_elab_base::making::{Made, Making};
use vv_elab_base::operators::is_concatenation;
use vv_elab_made::callings::{call_of, called};
use vv_elab_made::joins::{Joined, Open, concatenate, is_division, is_power_of_two, join};
use vv_elab_made::nodes::operator_of;
use vv_elab_plain::fixed::is_fixed;
use vv_elab_types::ranges::must_number;
use vv_held::Shape as Extent;
use vv_held::held::refused;
use vv_typed::{Callee, Link, Typed};

/// The links of an expression, behind its first operand.
#[cycle(expressions)]
pub fn links<'u>(
    making: &mut Making<'u>,
    rest: &'u [Link],
    e: &'u Typed,
    first: Joined,
    wanted: Option<Extent>,
) -> Result<Made, Fault> {
    let mut so_far = first;
    for (k, link) in rest.iter().enumerate() {
        let fixed = so_far.fixed && is_fixed(making, &link.right, true);
        so_far = match link.callee {
            Callee::User(decl) => {
                let of = if fixed {
                    making.node()?;
                    let held = making.fold_links(e, k.saturating_add(1))?;
                    making.value(held, link.base, link.span)
                } else {
                    let mut call = call_of(making, decl)?;
                    let span = so_far.of.expr.span;
                    call.add(making, so_far.of, 0, span)?;
                    argument(making, &link.right, 1, &mut call)?;
                    called(making, call, link.base, link.span)?
                };
                Joined {
                    of,
                    fixed,
                    open: Open::No,
                }
            }
            Callee::Predefined(op) if is_division(op) && !fixed => {
                divided(making, link, Operator::Integer(op), so_far)?
            }
            callee => {
                let operator = operator_of(callee)?;
                let right = expression(making, &link.right, wanted)?;
                if is_concatenation(operator) {
                    concatenate(making, operator, so_far, right, link, fixed)?
                } else {
                    join(making, operator, so_far, right, link, fixed)?
                }
            }
        };
    }
    Ok(so_far.of)
}

/// A division of integers that is left to the run. Its divisor is static and a power of two.
fn divided<'u>(
    making: &mut Making<'u>,
    link: &Link,
    operator: Operator,
    so_far: Joined,
) -> Result<Joined, Fault> {
    let n = must_number(making, &link.right)?;
    if !is_power_of_two(n) {
        return Err(refused(Rule::E12, link.span));
    }
    making.node()?;
    let right = making.number(n, link.right.span);
    join(making, operator, so_far, right, link, false)
}
