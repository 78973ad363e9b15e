//! Choices of case statements.

use sqlite_items::{Items, at};
use std::cmp::Ordering;
use vv_base::fault::{Fault, Rule, Span};
use vv_bits::S9;
use vv_design::{Choice, ChoiceList};
use vv_elab_base::making::{Made, Making};
use vv_elab_base::objects::matched;
use vv_elab_base::operators::any;
use vv_elab_base::sub::Sub;
use vv_elab_types::ranges::{must, prefix_sub, range};
use vv_held::Held;
use vv_held::held::{misfit, ordinal, refused};
use vv_held::shape::{contains, count, ends};
use vv_typed::{Form, TRange, Typed};
use vv_types::{BaseType, Bounds, Value};

/// The choices that were seen: ranges of scalars, and values of arrays.
#[derive(Drop)]
pub struct Seen {
    ranges: Vec<Bounds>,
    values: Vec<Value>,
    covered: u64,
    others: bool,
    sub: Sub,
    range: Bounds,
}

impl Seen {
    /// No choices yet, of a selector.
    pub fn new<'u>(making: &mut Making<'u>, e: &Typed, selector: &Made) -> Result<Seen, Fault> {
        let of = selector_sub(making, e, selector.sub)?;
        Ok(Seen {
            ranges: Vec::new(making.alloc),
            values: Vec::new(making.alloc),
            covered: 0,
            others: false,
            sub: selector.sub,
            range: of.extent.scalar,
        })
    }

    /// Adds the choices of an alternative.
    pub fn add<'u>(
        &mut self,
        making: &mut Making<'u>,
        choices: &[TRange],
    ) -> Result<ChoiceList, Fault> {
        let mut list = Items::new(making.alloc);
        for choice in choices {
            list.push(self.add_one(making, choice)?)?;
        }
        Ok(list)
    }

    fn add_one<'u>(&mut self, making: &mut Making<'u>, choice: &TRange) -> Result<Choice, Fault> {
        match choice {
            TRange::Others(_) => {
                self.others = true;
                Ok(Choice::Others)
            }
            TRange::Whole(e) if !is_range(e) => {
                let held = must(making, e, Some(self.sub.extent))?;
                if self.sub.extent.levels > 0 {
                    self.add_array(making, held, e)
                } else {
                    self.add_scalar(held, e.span)
                }
            }
            _ => {
                let placed = range(making, choice)?;
                self.add_range(placed.bounds, placed.left)?;
                let (low, high) = ends(placed.bounds);
                Ok(Choice::Between { low, high })
            }
        }
    }

    fn add_scalar(&mut self, held: Held, span: Span) -> Result<Choice, Fault> {
        if let Value::Logic(x) = held.value {
            if x != S9::Zero && x != S9::One {
                return Err(refused(Rule::E11, span));
            }
            return self.add_value(held, span);
        }
        let Some(n) = ordinal(&held.value) else {
            return Err(misfit());
        };
        self.add_range(vv_elab_base::sub::only(n), span)?;
        Ok(Choice::Value(held.value))
    }

    fn add_array<'u>(
        &mut self,
        making: &Making<'u>,
        held: Held,
        e: &Typed,
    ) -> Result<Choice, Fault> {
        matched(making.sub_of(e.base, &held), self.sub.extent, e.span)?;
        if !is_plain(&held.value) {
            return Err(refused(Rule::E11, e.span));
        }
        let copy = held.value.copy(making.alloc)?;
        self.add_new(copy, e.span)?;
        Ok(Choice::Value(held.value))
    }

    /// A choice of std_ulogic.
    fn add_value(&mut self, held: Held, span: Span) -> Result<Choice, Fault> {
        let copy = match held.value {
            Value::Logic(x) => Value::Logic(x),
            _ => return Err(misfit()),
        };
        self.add_new(copy, span)?;
        Ok(Choice::Value(held.value))
    }

    /// Adds a value that was not seen.
    fn add_new(&mut self, value: Value, span: Span) -> Result<(), Fault> {
        match place_among(self.values.as_slice(), &value) {
            Some(place) if place <= self.values.len() => self.values.insert(place, value)?,
            _ => return Err(refused(Rule::E11, span)),
        }
        self.covered = self.covered.saturating_add(1);
        Ok(())
    }

    /// Adds the numbers or positions of a range.
    fn add_range(&mut self, own: Bounds, span: Span) -> Result<(), Fault> {
        let (low, high) = ends(own);
        if high < low {
            return Ok(());
        }
        if !contains(self.range, low) || !contains(self.range, high) {
            return Err(refused(Rule::E11, span));
        }
        let place = place_of_range(self.ranges.as_slice(), low);
        let before = at(self.ranges.as_slice(), place.saturating_sub(1));
        let next = at(self.ranges.as_slice(), place);
        if (place > 0 && reaches(before, low)) || starts_within(next, high) {
            return Err(refused(Rule::E11, span));
        }
        if place <= self.ranges.len() {
            self.ranges.insert(
                place,
                Bounds {
                    left: low,
                    right: high,
                    down: false,
                },
            )?;
        }
        self.covered = self.covered.saturating_add(count(own));
        Ok(())
    }

    /// Refuses values that no choice has.
    pub fn finish(&self, span: Span) -> Result<(), Fault> {
        if self.others || self.covered >= self.wanted() {
            Ok(())
        } else {
            Err(refused(Rule::E11, span))
        }
    }

    /// How many values the choices have to have.
    fn wanted(&self) -> u64 {
        if self.sub.extent.levels == 0 {
            return match self.sub.base {
                BaseType::Logic => 9,
                _ => count(self.range),
            };
        }
        let size = self.sub.size();
        if self.sub.extent.base == BaseType::Bool && size < 63 {
            1 << size
        } else {
            u64::MAX
        }
    }
}

/// How many of some ranges, which stand in order, begin before a number.
fn place_of_range(ranges: &[Bounds], start: i32) -> usize {
    let mut low: usize = 0;
    let mut high = ranges.len();
    for _ in 0..64 {
        if low >= high {
            break;
        }
        let middle = low.saturating_add(high.saturating_sub(low) / 2);
        match at(ranges, middle) {
            Some(range) if range.left < start => low = middle.saturating_add(1),
            _ => high = middle,
        }
    }
    low
}

/// Whether a range upwards ends at a number or behind it.
fn reaches(range: Option<&Bounds>, low: i32) -> bool {
    match range {
        Some(range) => range.right >= low,
        None => false,
    }
}

/// Whether a range upwards begins at a number or before it.
fn starts_within(range: Option<&Bounds>, high: i32) -> bool {
    match range {
        Some(range) => range.left <= high,
        None => false,
    }
}

/// How many of some values, which stand in order, stand before a value. None where it is one of them.
fn place_among(values: &[Value], value: &Value) -> Option<usize> {
    let mut low: usize = 0;
    let mut high = values.len();
    for _ in 0..64 {
        if low >= high {
            break;
        }
        let middle = low.saturating_add(high.saturating_sub(low) / 2);
        let Some(other) = at(values, middle) else {
            break;
        };
        match order(value, other) {
            Ordering::Equal => return None,
            Ordering::Less => high = middle,
            Ordering::Greater => low = middle.saturating_add(1),
        }
    }
    Some(low)
}

/// The order of two values of one type.
fn order(a: &Value, b: &Value) -> Ordering {
    match (a, b) {
        (Value::Array(xs), Value::Array(ys)) => {
            for (k, x) in xs.as_slice().iter().enumerate() {
                let Some(y) = at(ys.as_slice(), k) else {
                    return Ordering::Greater;
                };
                match order(x, y) {
                    Ordering::Equal => {}
                    other => return other,
                }
            }
            Ordering::Equal
        }
        _ => number_of(a).cmp(&number_of(b)),
    }
}

/// A number that tells a scalar apart from others of its type.
fn number_of(value: &Value) -> i64 {
    match value {
        Value::Logic(x) => {
            if *x == S9::Zero {
                0
            } else if *x == S9::One {
                1
            } else {
                2
            }
        }
        Value::Bool(b) => if *b { 1 } else { 0 },
        Value::Int(n) => i64::from(*n),
        Value::Enum(position) => i64::from(*position),
        Value::Array(_) => 0,
    }
}

/// Whether a choice that is written as one expression is a range.
fn is_range(e: &Typed) -> bool {
    match &e.form {
        Form::Range(_) | Form::ReverseRange(_) | Form::Mark(_) => true,
        _ => false,
    }
}

/// Whether a value has no element of std_ulogic but 0 and 1.
fn is_plain(value: &Value) -> bool {
    match value {
        Value::Logic(x) => *x == S9::Zero || *x == S9::One,
        Value::Array(xs) => {
            for x in xs.as_slice() {
                if !is_plain(x) {
                    return false;
                }
            }
            true
        }
        _ => true,
    }
}

/// The subtype that a name has, for what has to be covered by choices: that of the object, or the whole type.
fn selector_sub<'u>(making: &mut Making<'u>, e: &Typed, of: Sub) -> Result<Sub, Fault> {
    match &e.form {
        Form::Parenthesis(inner) => selector_sub(making, inner.get(), of),
        Form::Object(_)
        | Form::Part {
            prefix: _,
            suffixes: _,
        } => {
            if of.extent.levels > 0 {
                Ok(of)
            } else {
                prefix_sub(making, e)
            }
        }
        _ => {
            if of.extent.levels > 0 {
                Ok(of)
            } else {
                Ok(any(making, of.base))
            }
        }
    }
}
