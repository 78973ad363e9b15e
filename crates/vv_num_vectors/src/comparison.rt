//! Comparison of numbers.

ghost use Rattle.std.specs.Prelude.{◌≡◌, [], ◌∷◌, length};
ghost use Rattle.std.specs.Ordering.{int_cmp};
ghost use Rattle.vv_vectors.specs.Vectors.{LiesIn, with_cells};
ghost use Rattle.vv_num_vectors.specs.Operands.{IsIn, is_meta_in, value_of};
ghost use Rattle.vv_num_vectors.specs.Comparison.{admits, boolean_cell, compared, without_value};

use crate::operand::{Operand, counts};
use std::cmp::Ordering;
use vv_types::{Cells, Place};
use vv_vectors::put_scalar;

/// A relational operator.
#[derive(Clone, Copy, Debug, PartialEq, Eq)]
pub enum Relation {
    Equal,
    NotEqual,
    Less,
    LessEqual,
    Greater,
    GreaterEqual,
}

impl Relation {
    /// Whether the relation holds of two numbers in this order.
    fn admits(self, order: Ordering) -> bool
        ensures { result ≡ admits self order }
    {
        match self {
            Relation::Equal => order.is_eq(),
            Relation::NotEqual => order.is_ne(),
            Relation::Less => order.is_lt(),
            Relation::LessEqual => order.is_le(),
            Relation::Greater => order.is_gt(),
            Relation::GreaterEqual => order.is_ge(),
        }
    }
}

/// The order of two operands' numbers.
fn order(cells: &Cells, a: Operand, b: Operand) -> Ordering
    requires a { IsIn cells.now a }
    requires b { IsIn cells.now b }
    ensures { result ≡ int_cmp (value_of cells.now a) (value_of cells.now b) }
{
    let length = a.size().max(b.size());
    let below_a = counts(a.sign(cells));
    let below_b = counts(b.sign(cells));
    if below_a != below_b {
        return below_b.cmp(&below_a);
    }
    for k in 0..length {
        let x = counts(a.digit(cells, length, k));
        let y = counts(b.digit(cells, length, k));
        if x != y {
            return x.cmp(&y);
        }
    }
    Ordering::Equal
}

/// Puts whether two numbers are in a relation: 1 or 0. Where an operand has a metavalue, only `NotEqual` holds.
pub fn compare(cells: &mut Cells, relation: Relation, a: Operand, b: Operand, to: Place)
    requires a { IsIn cells.old a }
    requires b { IsIn cells.old b }
    requires to { LiesIn cells.old to }
    requires one { to.size ≡ 1 }
    ensures value { cells.new ≡ with_cells cells.old to (boolean_cell (compared relation cells.old a b) ∷ []) }
    ensures length { length cells.new ≡ length cells.old }
{
    let holds = if a.any_meta(cells) || b.any_meta(cells) {
        relation == Relation::NotEqual
    } else {
        relation.admits(order(cells, a, b))
    };
    put_scalar(cells, to, i32::from(holds));
}
