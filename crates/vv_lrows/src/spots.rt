//! Parts of objects, by indexes that are static and that are not.

use crate::pool::{Held, Pool};
use sqlite_items::Boxed;
use vv_base::fault::Memory;
use vv_bits::{Bits4, V4};
use vv_design::index_count;
use vv_lpart::{Part, Run, digits, push_value};
use vv_lstate::{Lowering, OwnKind, TableOf};
use vv_types::{Bounds, Value, ValueList};
use vv_vtree::{VBinary, VExpr, VName, VReference, VUnary};

/// Bits of an object: `bits` of them, from `low` on, and further on by as many as `offset` tells. `within` are the bits among which
/// they lie.
#[derive(Drop)]
pub struct Spot {
    pub within: Run,
    pub low: u32,
    pub bits: u32,
    pub offset: Option<Part>,
}

/// A spot of which the bits among which it lies, a fixed part of an object, and the offset are held in a pool.
#[derive(Clone, Copy)]
pub struct Place {
    pub within: Held,
    pub low: u32,
    pub bits: u32,
    pub offset: Option<Held>,
}

impl Place {
    /// The whole of a part that is a fixed part of an object.
    pub fn whole(run: Held) -> Place {
        let bits = run.width;
        Place {
            within: run,
            low: 0,
            bits,
            offset: None,
        }
    }

    /// Its `bits` bits from `low` on.
    pub fn part(self, low: u32, bits: u32) -> Place {
        Place {
            within: self.within,
            low: self.low.saturating_add(low),
            bits,
            offset: self.offset,
        }
    }
}

/// How elements lie in bits: each has `bits` of them, and the next one begins `stride` bits further on. Where `upward`, the one with the
/// least index lies rightmost.
#[derive(Clone, Copy)]
pub struct Rows {
    pub stride: u32,
    pub bits: u32,
    pub upward: bool,
}

impl Rows {
    /// Elements side by side as the codec has them.
    pub fn side_by_side(bits: u32) -> Rows {
        Rows {
            stride: bits,
            bits,
            upward: false,
        }
    }

    /// The elements of a table of the writer's own. The stride is a power of two, so that no index has to be multiplied, unless the table
    /// gets too large.
    pub fn of_table(bits: u32, count: usize) -> Rows {
        let stride = 1u32 << digits(u64::from(bits.saturating_sub(1))).min(20);
        let fits = u64::from(stride).saturating_mul(count as u64) <= 65_536;
        Rows {
            stride: if fits { stride } else { bits },
            bits,
            upward: true,
        }
    }
}

/// The element at a fixed number of places from that with the least index.
pub fn element_at(spot: Place, places: i64, bounds: Bounds, rows: Rows) -> Place {
    let last = i64::from(index_count(bounds).saturating_sub(1));
    let place = if bounds.down || rows.upward {
        places
    } else {
        last.saturating_sub(places)
    };
    let place = u32::try_from(place.max(0).min(last)).unwrap_or(0);
    spot.part(place.saturating_mul(rows.stride), rows.bits)
}

/// How many bits of an index are needed.
pub fn index_digits(bounds: Bounds) -> u32 {
    digits(u64::from(index_count(bounds).saturating_sub(1)))
}

/// The element by an index, of which there are as many bits as are needed.
pub fn element_by(
    state: &mut Lowering<'_>,
    pool: &mut Pool,
    spot: Place,
    index: Held,
    bounds: Bounds,
    rows: Rows,
) -> Result<Place, Memory> {
    let Place {
        within,
        low,
        bits: _,
        offset: before,
    } = spot;
    let width = index_digits(bounds);
    let place = if bounds.down || rows.upward {
        less(
            state,
            pool,
            index,
            i64::from(bounds.left.min(bounds.right)),
            width,
        )?
    } else {
        taken_from(
            state,
            pool,
            i64::from(bounds.left.max(bounds.right)),
            index,
            width,
        )?
    };
    let most = index_count(bounds)
        .saturating_mul(rows.stride)
        .saturating_sub(1);
    let scaled = scaled(state, pool, place, rows.stride, digits(u64::from(most)))?;
    let offset = match before {
        None => scaled,
        Some(before) => sum(state, pool, before, scaled)?,
    };
    Ok(Place {
        within,
        low,
        bits: rows.bits,
        offset: Some(offset),
    })
}

/// The sum of two offsets.
fn sum(state: &mut Lowering<'_>, pool: &mut Pool, left: Held, right: Held) -> Result<Held, Memory> {
    let width = left.width.max(right.width);
    let left = pool.resized(state, left, width, false)?;
    let right = pool.resized(state, right, width, false)?;
    pool.binary(state, left, VBinary::Add, right)
}

/// A number less another one, at a width.
fn less(
    state: &mut Lowering<'_>,
    pool: &mut Pool,
    number: Held,
    n: i64,
    width: u32,
) -> Result<Held, Memory> {
    let bound = pool.number(state, n, width)?;
    if all_are(pool, bound, V4::Zero) {
        return Ok(number);
    }
    pool.binary(state, number, VBinary::Subtract, bound)
}

/// `n` less a number, at a width.
fn taken_from(
    state: &mut Lowering<'_>,
    pool: &mut Pool,
    n: i64,
    number: Held,
    width: u32,
) -> Result<Held, Memory> {
    let most = pool.number(state, n, width)?;
    if all_are(pool, most, V4::One) {
        return pool.unary(state, VUnary::Not, number);
    }
    pool.binary(state, most, VBinary::Subtract, number)
}

/// A number times `bits`.
fn scaled(
    state: &mut Lowering<'_>,
    pool: &mut Pool,
    place: Held,
    bits: u32,
    width: u32,
) -> Result<Held, Memory> {
    if bits == 1 {
        return Ok(place);
    }
    if bits.is_power_of_two() {
        let zeros = pool.fill(state, V4::Zero, bits.trailing_zeros())?;
        return pool.beside(state, place, zeros);
    }
    let place = pool.resized(state, place, width, false)?;
    let factor = pool.number(state, i64::from(bits), width)?;
    pool.binary(state, place, VBinary::Multiply, factor)
}

/// What stands at a place.
pub fn read_spot(state: &mut Lowering<'_>, pool: &mut Pool, place: Place) -> Result<Held, Memory> {
    let depth = match place.offset {
        Some(offset) => offset.depth.saturating_add(1),
        None => 1,
    };
    let spot = spot_of(state, pool, place)?;
    let reference = reference(state, spot)?;
    pool.reference(reference, place.bits, depth)
}

/// A place as a spot by itself.
pub fn spot_of(state: &mut Lowering<'_>, pool: &mut Pool, place: Place) -> Result<Spot, Memory> {
    let within = pool.run(state, place.within)?;
    let offset = match place.offset {
        Some(offset) => Some(pool.taken(offset)?),
        None => None,
    };
    Ok(Spot {
        within,
        low: place.low,
        bits: place.bits,
        offset,
    })
}

/// How a spot is written.
pub fn reference(state: &mut Lowering<'_>, spot: Spot) -> Result<VReference, Memory> {
    let Spot {
        within,
        low,
        bits,
        offset,
    } = spot;
    match offset {
        None => Ok(within.part(low, bits).reference()),
        Some(offset) => indexed(state, offset, within, low, bits),
    }
}

/// How a spot by an index is written.
fn indexed(
    state: &mut Lowering<'_>,
    offset: Part,
    within: Run,
    low: u32,
    bits: u32,
) -> Result<VReference, Memory> {
    let from = within.low.saturating_add(low);
    let end = within.low.saturating_add(within.bits);
    let width = digits(u64::from(end.saturating_sub(1)));
    let index = index_of(state, offset, from, width)?;
    Ok(VReference::Indexed {
        name: VName {
            text: within.name,
            at: 0,
        },
        index,
        count: bits,
    })
}

/// An index of an object, of an offset from one of its bits on.
fn index_of(
    state: &mut Lowering<'_>,
    offset: Part,
    from: u32,
    width: u32,
) -> Result<Boxed<VExpr>, Memory> {
    let index = moved(state, offset, from, width)?;
    let index = state.operand(index)?;
    Ok(Boxed::new(state.alloc, index.expr)?)
}

/// An offset from another bit on, at a width.
pub fn moved(
    state: &mut Lowering<'_>,
    offset: Part,
    from: u32,
    width: u32,
) -> Result<Part, Memory> {
    let mut pool = Pool::new(state.alloc);
    let offset = pool.hold(offset)?;
    let offset = pool.resized(state, offset, width, false)?;
    if from == 0 {
        return pool.taken(offset);
    }
    let from = pool.number(state, i64::from(from), width)?;
    let sum = pool.binary(state, offset, VBinary::Add, from)?;
    pool.taken(sum)
}

/// The wire or register of a table, whose elements have `width` bits a scalar. The element with the least index lies rightmost.
/// `constant` is the number of the constant, where it is one of the design's.
pub fn table(
    state: &mut Lowering<'_>,
    values: &ValueList,
    constant: Option<u32>,
    down: bool,
    width: u32,
    rows: Rows,
) -> Result<Run, Memory> {
    if let Some(own) = known_constant(state, constant) {
        return state.own_run(own);
    }
    let bits = table_bits(state, values, down, width, rows)?;
    if let Some(own) = known_bits(state, &bits) {
        return state.own_run(own);
    }
    let own = state.owned(Part::bits(bits), b"table")?;
    state.tables.push(TableOf { constant, own })?;
    state.own_run(own)
}

/// The bits of a table.
fn table_bits(
    state: &Lowering<'_>,
    values: &ValueList,
    down: bool,
    width: u32,
    rows: Rows,
) -> Result<Bits4, Memory> {
    let mut bits = Bits4::new(state.alloc);
    if down {
        for value in values.as_slice() {
            push_row(value, width, rows, &mut bits)?;
        }
    } else {
        for value in values.as_slice().iter().rev() {
            push_row(value, width, rows, &mut bits)?;
        }
    }
    Ok(bits)
}

/// The wire of a constant of the design, where it has one already.
fn known_constant(state: &Lowering<'_>, constant: Option<u32>) -> Option<u32> {
    let number = constant?;
    for table in state.tables.as_slice() {
        if table.constant == Some(number) && wire_bits(state, table.own).is_some() {
            return Some(table.own);
        }
    }
    None
}

/// The wire that has these bits already.
fn known_bits(state: &Lowering<'_>, bits: &Bits4) -> Option<u32> {
    for table in state.tables.as_slice() {
        if let Some(known) = wire_bits(state, table.own) {
            if known.as_slice() == bits.as_slice() {
                return Some(table.own);
            }
        }
    }
    None
}

/// The bits of an own wire that is written bits.
fn wire_bits<'s>(state: &'s Lowering<'_>, own: u32) -> Option<&'s Bits4> {
    match state.owns.get(own as usize) {
        Some(own) => match &own.kind {
            OwnKind::Wire(VExpr::Bits(known)) => Some(&known.bits),
            _ => None,
        },
        None => None,
    }
}

/// Appends a row of a table, with zeros before it up to the stride.
fn push_row(value: &Value, width: u32, rows: Rows, into: &mut Bits4) -> Result<(), Memory> {
    for _ in 0..rows.stride.saturating_sub(rows.bits) {
        into.push(V4::Zero)?;
    }
    push_value(value, width, into)
}

/// Whether a part is written bits that are all this one.
fn all_are(pool: &Pool, part: Held, bit: V4) -> bool {
    match pool.known(part) {
        Some(bits) => bits.as_slice().iter().all(|x| *x == bit),
        None => false,
    }
}
