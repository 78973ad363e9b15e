//! The code of processes and functions.

use vv_base::fault::Span;
use vv_types::{Bounds, NumFn, Op, Place, StdFn};

/// An instruction over places and cells. An `offset` is a cell whose number is added to a first cell. Jumps lead forwards.
#[derive(Clone, Copy)]
pub enum Instr {
    Copy {
        from: Place,
        to: Place,
    },
    /// Puts the numbers of a place one behind another until the other place is full.
    Fill {
        from: Place,
        to: Place,
    },
    Standard {
        f: StdFn,
        a: Place,
        b: Place,
        to: Place,
    },
    /// A range error where the value is a number outside INTEGER.
    Numeric {
        f: NumFn,
        a: Place,
        b: Place,
        to: Place,
        at: Span,
    },
    /// Integer arithmetic. A range error where there is no value in INTEGER.
    Whole {
        op: Op,
        a: u32,
        b: u32,
        to: u32,
        at: Span,
    },
    /// A range error where the number is not from `low` to `high`.
    Check {
        cell: u32,
        low: i32,
        high: i32,
        at: Span,
    },
    /// The offset of the element at an index: `width` for each element on its left, and what the cell `plus` has. A range error where the
    /// index lies outside.
    Locate {
        index: u32,
        bounds: Bounds,
        width: u32,
        plus: u32,
        to: u32,
        at: Span,
    },
    /// Takes the cells behind an offset.
    Fetch {
        first: u32,
        offset: u32,
        to: Place,
    },
    /// Puts numbers into the cells behind an offset.
    Put {
        from: Place,
        first: u32,
        offset: u32,
    },
    /// Puts numbers into the cells of a driver, whose first one is of the net element `elem`.
    Drive {
        from: Place,
        first: u32,
        offset: u32,
        elem: u32,
    },
    /// Notes a clash of two places.
    Clash {
        a: Place,
        b: Place,
        at: Span,
    },
    Edge {
        elem: u32,
        rising: bool,
        to: u32,
    },
    /// Whether one of some net elements has an event.
    Event {
        of: Place,
        to: u32,
    },
    Set {
        to: u32,
        v: i32,
    },
    Jump(u32),
    Unless {
        cell: u32,
        to: u32,
    },
    When {
        cell: u32,
        to: u32,
    },
    /// Jumps where two places have the same numbers.
    WhenSame {
        a: Place,
        b: Place,
        to: u32,
    },
    /// Jumps where a number is from `low` to `high`.
    WhenWithin {
        cell: u32,
        low: i32,
        high: i32,
        to: u32,
    },
    /// Runs a function, whose code begins there.
    Call(u32),
    /// Goes on behind the call.
    Return,
    /// The end of a process.
    Halt,
}
