//! The bits of the lines of a map.

use std::alloc::Global;
use vv_base::fault::Memory;
use vv_bits::S9;
use vv_engine::State;
use vv_types::{BaseType, Place, Subtype};

/// How the scalars of a line are written: one of std_ulogic as it is, and a number or a position by binary digits.
#[derive(Clone, Copy)]
pub enum Written {
    Logic,
    Digits(u32),
}

/// A line: where its object lies, how its scalars are written, and which of the bits are its own.
#[derive(Clone, Copy)]
struct Shown {
    place: Place,
    written: Written,
    first: usize,
    end: usize,
}

/// The lines of a map, and the bits that they had when they were last looked at.
#[derive(Drop)]
pub struct Lines {
    shown: Vec<Shown>,
    bits: Vec<S9>,
}

/// The value of std_ulogic with a number, in the order U X 0 1 Z W L H -.
fn logic_of(n: i32) -> S9 {
    match n {
        0 => S9::U,
        2 => S9::Zero,
        3 => S9::One,
        4 => S9::Z,
        5 => S9::W,
        6 => S9::L,
        7 => S9::H,
        8 => S9::Dash,
        _ => S9::X,
    }
}

/// A digit of a number, from the right.
fn digit(n: i32, k: u32) -> S9 {
    if n.wrapping_shr(k) & 1 == 1 {
        S9::One
    } else {
        S9::Zero
    }
}

/// The fewest binary digits that hold `n`.
fn digits_of(n: u32) -> u32 {
    u32::BITS.saturating_sub(n.leading_zeros())
}

/// What the digits beside the sign have to hold.
fn reach(n: i32) -> u32 {
    if n < 0 {
        (!n).cast_unsigned()
    } else {
        n.cast_unsigned()
    }
}

/// How the scalars of a subtype are written.
pub fn written_of(subtype: &Subtype) -> Written {
    match subtype {
        Subtype::Array {
            base: _,
            bounds: _,
            elem,
        } => written_of(elem.get()),
        Subtype::Scalar {
            base,
            left,
            right,
            down: _,
            count,
        } => match base {
            BaseType::Logic | BaseType::Array(_) => Written::Logic,
            BaseType::Bool => Written::Digits(1),
            BaseType::Enum(_) => Written::Digits(digits_of(count.saturating_sub(1)).max(1)),
            BaseType::Int => {
                let digits = digits_of(reach(*left).max(reach(*right)));
                if *left < 0 || *right < 0 {
                    Written::Digits(digits.saturating_add(1))
                } else {
                    Written::Digits(digits.max(1))
                }
            }
        },
    }
}

impl Lines {
    /// No lines.
    pub fn new(alloc: Global) -> Lines {
        Lines {
            shown: Vec::new(alloc),
            bits: Vec::new(alloc),
        }
    }

    /// Adds the line of an object.
    pub fn add(&mut self, place: Place, written: Written) -> Result<(), Memory> {
        let width = match written {
            Written::Logic => 1,
            Written::Digits(n) => n,
        };
        let first = self.bits.len();
        for _ in 0..place.size {
            for _ in 0..width {
                self.bits.push(S9::U)?;
            }
        }
        self.shown.push(Shown {
            place,
            written,
            first,
            end: self.bits.len(),
        })?;
        Ok(())
    }

    /// Looks at all objects.
    pub fn look(&mut self, state: &State) {
        let mut at: usize = 0;
        for k in 0..self.shown.len() {
            let Some(shown) = self.shown.get(k).copied() else {
                return;
            };
            for cell in 0..shown.place.size {
                let n = state.get(shown.place.first.saturating_add(cell));
                at = self.write(at, n, shown.written);
            }
        }
    }

    /// Writes a scalar. The place behind it is answered.
    fn write(&mut self, at: usize, n: i32, written: Written) -> usize {
        match written {
            Written::Logic => {
                self.set(at, logic_of(n));
                at.saturating_add(1)
            }
            Written::Digits(width) => {
                let mut at = at;
                for k in 0..width {
                    let place = width.saturating_sub(k).saturating_sub(1);
                    self.set(at, digit(n, place.min(31)));
                    at = at.saturating_add(1);
                }
                at
            }
        }
    }

    fn set(&mut self, at: usize, bit: S9) {
        if let Some(kept) = self.bits.get_mut(at) {
            *kept = bit;
        }
    }

    /// The bits of a line, leftmost first.
    pub fn bits(&self, line: usize) -> Option<&[S9]> {
        let shown = self.shown.get(line)?;
        self.bits.get(shown.first..shown.end)
    }
}
