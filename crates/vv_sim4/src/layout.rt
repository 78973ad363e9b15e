//! Where the bits of objects lie in the words.

use std::alloc::Global;
use vv_base::fault::Memory;
use vv_engine4::code::Field;
use vv_engine4::pair::words_of;
use vv_flat::Place;

/// Consecutive bits that lie in words of their own, from the word `at` on.
#[derive(Clone, Copy, Debug, PartialEq, Eq)]
pub struct Area {
    pub first: u32,
    pub width: u32,
    pub at: u32,
}

/// The areas of bits that are numbered from 0 on.
#[derive(Drop)]
pub struct Layout {
    areas: Vec<Area>,
    /// The number of the area of each bit.
    of_bit: Vec<u32>,
}

impl Layout {
    pub fn new(alloc: Global) -> Layout {
        Layout {
            areas: Vec::new(alloc),
            of_bit: Vec::new(alloc),
        }
    }

    /// Adds bits behind those that there are, which lie from the word `at` on.
    pub fn add(&mut self, width: u32, at: u32) -> Result<(), Memory> {
        let first = u32::try_from(self.of_bit.len()).map_err(|_| Memory)?;
        let number = u32::try_from(self.areas.len()).map_err(|_| Memory)?;
        self.areas.push(Area { first, width, at })?;
        for _ in 0..width {
            self.of_bit.push(number)?;
        }
        Ok(())
    }

    pub fn areas(&self) -> &[Area] {
        self.areas.as_slice()
    }

    /// The area of a bit.
    fn area(&self, bit: u32) -> Option<Area> {
        let number = self.of_bit.get(bit as usize)?;
        self.areas.get(*number as usize).copied()
    }

    /// Where a place lies.
    pub fn field(&self, place: Place) -> Field {
        match self.area(place.first) {
            Some(area) => {
                let offset = place.first.saturating_sub(area.first);
                Field {
                    at: area.at.saturating_add(offset / 64),
                    shift: offset % 64,
                    width: place.width,
                }
            }
            None => Field {
                at: 0,
                shift: 0,
                width: place.width,
            },
        }
    }

    /// Whether a place has words of its own.
    pub fn is_area(&self, place: Place) -> bool {
        match self.area(place.first) {
            Some(area) => area.first == place.first && area.width == place.width,
            None => false,
        }
    }
}

/// How many words there are behind these and those of a vector.
pub fn behind(at: u32, width: u32) -> Result<u32, Memory> {
    at.checked_add(words_of(width)).ok_or(Memory)
}
