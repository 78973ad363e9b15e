//! Which elements a name means.

use vv_design::{Expr, Form, Net, Part, Run, Target};
use vv_types::{Bounds, Value};

/// What a name begins with.
#[derive(Clone, Copy, Debug, PartialEq, Eq, PartialOrd, Ord)]
pub enum Object {
    Net(u32),
    Variable(u32),
}

/// The elements that a name means: of a net by their numbers in the design, of a variable by their numbers in it. Where `fixed` is
/// false the name has an index that is not static, and means some of the elements of the part before it. A static index out of its range
/// leaves no elements.
#[derive(Clone, Copy, Debug, PartialEq, Eq)]
pub struct Place {
    pub object: Object,
    pub run: Run,
    pub fixed: bool,
}

impl Place {
    fn whole(object: Object, run: Run) -> Place {
        Place {
            object,
            run,
            fixed: true,
        }
    }

    /// Of a static part, the elements from the one with this number on.
    fn elements(self, first: u32, len: u32) -> Place {
        if self.fixed {
            Place {
                object: self.object,
                run: self.run.part(first, len),
                fixed: true,
            }
        } else {
            self
        }
    }

    /// An element, of this many scalars.
    fn element(self, index: &Expr, bounds: Bounds, len: u32) -> Place {
        match number_of(index) {
            Some(n) => match position(n, bounds) {
                Some(at) => self.elements(at.saturating_mul(len), len),
                None => self.elements(u32::MAX, 0),
            },
            None => Place {
                object: self.object,
                run: self.run,
                fixed: false,
            },
        }
    }
}

/// The number or the position that an index has in the text.
fn number_of(index: &Expr) -> Option<i32> {
    match &index.form {
        Form::Value(Value::Int(n)) => Some(*n),
        Form::Value(Value::Enum(n)) => i32::try_from(*n).ok(),
        Form::Value(Value::Bool(b)) => Some(if *b { 1 } else { 0 }),
        Form::Check {
            operand,
            low: _,
            high: _,
        } => number_of(operand.get()),
        _ => None,
    }
}

/// The place of an index from the left.
fn position(n: i32, bounds: Bounds) -> Option<u32> {
    let (low, high) = if bounds.down {
        (bounds.right, bounds.left)
    } else {
        (bounds.left, bounds.right)
    };
    if n < low || high < n {
        None
    } else {
        Some(bounds.left.abs_diff(n))
    }
}

/// A whole variable of `len` elements.
fn whole_variable(number: u32, len: u32) -> Place {
    Place::whole(Object::Variable(number), Run { first: 0, len })
}

fn whole_net(nets: &[Net], number: u32) -> Option<Place> {
    let net = nets.get(number as usize)?;
    Some(Place::whole(Object::Net(number), net.run()))
}

/// What the name of a net or a variable means, or of a part of one. Another expression has no place.
pub fn part_of(nets: &[Net], e: &Expr) -> Option<Place> {
    match &e.form {
        Form::Net(number) => whole_net(nets, *number),
        Form::Variable(number) => Some(whole_variable(*number, e.shape.size())),
        Form::Elements { of, first } => {
            Some(part_of(nets, of.get())?.elements(*first, e.shape.size()))
        }
        Form::Element { of, index, bounds } => {
            Some(part_of(nets, of.get())?.element(index.get(), *bounds, e.shape.size()))
        }
        _ => None,
    }
}

/// What a target means, of an object that is this whole.
fn taken(whole: Place, target: &Target) -> Place {
    let mut place = whole;
    for part in target.parts.as_slice() {
        place = match part {
            Part::Elements { first, shape } => place.elements(*first, shape.size()),
            Part::Element {
                index,
                bounds,
                shape,
            } => place.element(index, *bounds, shape.size()),
        };
    }
    place
}

/// What the target of an assignment means: of one to a signal where `signal` is true, and else of one to a variable.
pub fn part_of_target(nets: &[Net], signal: bool, target: &Target) -> Option<Place> {
    if signal {
        Some(taken(whole_net(nets, target.object)?, target))
    } else {
        Some(taken(whole_variable(target.object, target.whole.size()), target))
    }
}
