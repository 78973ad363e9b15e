//! Operands that are put into cells.

ghost use Rattle.std.specs.Prelude.{◌≡◌, ◌+◌, ◌<◌, ◌≤◌, ◌^◌, ◌↔◌, IfOk, IsTrue, length, map};
ghost use Rattle.vv_vectors.specs.Vectors.{LiesIn, cells_at, with_cells};
ghost use Rattle.vv_num_cells.specs.Rows.{FitsNumbers, FitsRow, number};
ghost use Rattle.vv_num.specs.Values.{cell, cells_of, size_given};
ghost use Rattle.vv_num.specs.Layout.{IsLayout};

use std::alloc::Global;
use vv_base::fault::Memory;
use vv_num_arithmetic::Operator;
use vv_num_cells::{Operands, Row};
use vv_types::{Cells, Place, Value};
use vv_vectors::put_scalar;

/// Where the operands and the result lie.
#[derive(Clone, Copy)]
pub struct Layout {
    pub a: Place,
    pub b: Place,
    pub to: Place,
}

/// The cell of an element or of a number.
fn cell(value: &Value) -> i32
    ensures { result ≡ cell value.now }
{
    match value {
        Value::Logic(x) => *x as i32,
        Value::Int(n) => *n,
        _ => 0,
    }
}

/// How many cells an operand has.
pub fn cell_count(value: &Value) -> Result<u32, Memory>
    ensures { IfOk result (λ n. n ≡ length (cells_of value.now)) }
{
    match value {
        Value::Array(xs) => u32::try_from(xs.as_slice().len()).map_err(|_| Memory),
        _ => Ok(1),
    }
}

/// What the first cell of an operand has, 0 where there is none.
pub fn first_cell(value: &Value) -> i32
    ensures { result ≡ number (cells_of value.now) }
{
    match value {
        Value::Array(xs) => match xs.as_slice() {
            [x, ..] => cell(x),
            [] => 0,
        },
        _ => cell(value),
    }
}

/// How many elements the result of a row has.
pub fn size_given(row: Row, a: u32, b: u32, n: i32) -> u64
    ensures { result ≡ size_given row a b n }
{
    let (a, b) = (u64::from(a), u64::from(b));
    match row {
        Row::Arithmetic(operator, _, operands) => {
            let (left, right) = match operands {
                Operands::Vectors => (a, b),
                Operands::VectorAndNumber => (a, a),
                Operands::NumberAndVector => (b, b),
            };
            match operator {
                Operator::Multiply => left + right,
                Operator::Add | Operator::Subtract => left.max(right),
            }
        }
        Row::Compare(..) | Row::ToInteger(_) => 1,
        Row::Resize(_) | Row::ToVector => u64::from(n.unsigned_abs()),
        _ => a,
    }
}

/// Whether the numbers among operands have one cell.
fn fits_numbers(operands: Operands, a: u32, b: u32) -> bool
    ensures { IsTrue result ↔ FitsNumbers operands a b }
{
    match operands {
        Operands::Vectors => true,
        Operands::VectorAndNumber => b == 1,
        Operands::NumberAndVector => a == 1,
    }
}

/// Whether operands of these sizes, where the right one is the number `n`, are those of a row.
pub fn fits(row: Row, a: u32, b: u32, n: i32) -> bool
    ensures { IsTrue result ↔ FitsRow row a b n (size_given row a b n) }
{
    match row {
        Row::Arithmetic(_, _, operands) => {
            fits_numbers(operands, a, b) && size_given(row, a, b, n) <= 128
        }
        Row::Absolute | Row::Negate => a <= 128,
        Row::Compare(_, _, operands) => fits_numbers(operands, a, b),
        Row::Logic(_) => a == b,
        Row::Not | Row::ToInteger(_) => true,
        Row::ShiftLeft | Row::ShiftRight(_) | Row::RotateLeft | Row::RotateRight => {
            b == 1 && n >= 0
        }
        Row::Resize(_) => b == 1 && n >= 0,
        Row::ToVector => a == 1 && b == 1 && n >= 0,
    }
}

/// The places of operands and a result of these sizes, one behind the other.
pub fn laid_out(a: u32, b: u32, to: u64) -> Result<Layout, Memory>
    ensures { IfOk result (λ places. IsLayout places a b to) }
{
    let whole = u64::from(a) + u64::from(b);
    let most = u64::from(u32::MAX);
    if to > most || whole + to > most {
        return Err(Memory);
    }
    Ok(Layout {
        a: Place { first: 0, size: a },
        b: Place { first: a, size: b },
        to: Place {
            first: a + b,
            size: to as u32,
        },
    })
}

/// Puts the cells of a vector's elements.
fn put_elements(cells: &mut Cells, values: &[Value], to: Place)
    requires lies { LiesIn cells.old to }
    requires size { to.size ≡ length values.now }
    ensures { cells.new ≡ with_cells cells.old to (map cell values.now) }
{
    for (k, value) in values.iter().enumerate() {
        cells.set(to.first + k as u32, cell(value));
    }
}

/// Puts the cells of an operand.
fn put_operand(cells: &mut Cells, value: &Value, to: Place)
    requires lies { LiesIn cells.old to }
    requires size { to.size ≡ length (cells_of value.now) }
    ensures { cells.new ≡ with_cells cells.old to (cells_of value.now) }
{
    match value {
        Value::Array(xs) => put_elements(cells, xs.as_slice(), to),
        _ => put_scalar(cells, to, cell(value)),
    }
}

/// Cells with both operands in their places.
pub fn filled(alloc: Global, a: &Value, b: &Value, places: Layout) -> Result<Cells, Memory>
    requires layout { IsLayout places (length (cells_of a.now)) (length (cells_of b.now)) places.to.size }
    ensures left { IfOk result (λ cells. cells_at cells places.a ≡ cells_of a.now) }
    ensures right { IfOk result (λ cells. cells_at cells places.b ≡ cells_of b.now) }
    ensures length { IfOk result (λ cells. length cells ≡ places.to.first + places.to.size) }
{
    let mut cells = Cells::new(alloc, places.to.first + places.to.size)?;
    put_operand(&mut cells, a, places.a);
    put_operand(&mut cells, b, places.b);
    Ok(cells)
}
