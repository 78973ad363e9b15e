//! The value that an assignment gives in VHDL.
ghost use Rattle.std.specs.Prelude.{◌≡◌, map};
ghost use Rattle.vv_gate.specs.View.{operand_of, term_of, assignment_of};
ghost use Rattle.vv_gate_vhdl.specs.Design as design;
ghost use Rattle.vv_gate_run.specs.Circuit.{port_of};

use crate::ports::{Port, net_of};
use crate::vhdl::signals::value_at;
use vv_bits::{S9, and9, not9, or9, xor9};
use vv_gate::tree::{Assignment, Operand, Operator, Term};

fn operand_value(ports: &[Port<'_>], values: &[S9], operand: &Operand<'_>) -> S9
    ensures { result ≡ design.operand_value (map port_of ports.now) values.now (operand_of operand.now) }
{
    match operand {
        Operand::Low => S9::Zero,
        Operand::High => S9::One,
        Operand::Port(ident) => value_at(values, net_of(ports, ident.text)),
    }
}

fn term_value(ports: &[Port<'_>], values: &[S9], term: &Term<'_>) -> S9
    ensures { result ≡ design.term_value (map port_of ports.now) values.now (term_of term.now) }
{
    let value = operand_value(ports, values, &term.operand);
    if term.negated { not9(value) } else { value }
}

fn combine(operator: Operator, left: S9, right: S9) -> S9
    ensures { result ≡ design.combine operator left right }
{
    match operator {
        Operator::And => and9(left, right),
        Operator::Or => or9(left, right),
        Operator::Xor => xor9(left, right),
    }
}

/// The terms combined from the left.
fn chain_value(ports: &[Port<'_>], operator: Operator, terms: &[Term<'_>], values: &[S9]) -> S9
    ensures { result ≡ design.chain_value (map port_of ports.now) operator (map term_of terms.now) values.now }
{
    let Some((first, rest)) = terms.split_first() else {
        return S9::U;
    };
    let mut value = term_value(ports, values, first);
    for term in rest {
        value = combine(operator, value, term_value(ports, values, term));
    }
    value
}

/// The value that an assignment gives where the nets have these values.
pub(crate) fn assigned_value(ports: &[Port<'_>], assignment: &Assignment<'_>, values: &[S9]) -> S9
    ensures { result ≡ design.assigned_value (map port_of ports.now) (assignment_of assignment.now) values.now }
{
    chain_value(ports, assignment.operator, &assignment.terms, values)
}
