//! What all printing writes to.

use std::alloc::Global;
use vv_base::fault::Memory;
use vv_base::text::ByteList;
use vv_bits::{Bits4, V4};
use vv_vtree::{VName, VRange};

/// The text so far.
#[derive(Drop)]
pub struct Printer {
    alloc: Global,
    text: ByteList,
}

impl Printer {
    /// Nothing yet.
    pub fn new(alloc: Global) -> Printer {
        Printer {
            alloc,
            text: ByteList::new(alloc),
        }
    }

    /// The whole text.
    pub fn into_text(self) -> ByteList {
        let Printer { alloc: _, text } = self;
        text
    }

    /// Writes this text.
    pub fn put(&mut self, text: &str) -> Result<(), Memory> {
        self.text.extend_from_slice(text.as_bytes())
    }

    /// Writes the spaces before a line.
    pub fn indent(&mut self, level: usize) -> Result<(), Memory> {
        for _ in 0..level {
            self.put("  ")?;
        }
        Ok(())
    }

    /// Writes a name.
    pub fn name(&mut self, name: &VName) -> Result<(), Memory> {
        self.text.extend_from_slice(name.text.as_slice())
    }

    /// Writes a number in decimal digits.
    pub fn number(&mut self, number: u64) -> Result<(), Memory> {
        let digits = format!(in self.alloc; "{number}")?;
        self.put(digits.as_str())
    }

    /// Writes how many bits there are, and the bits.
    pub fn bits(&mut self, bits: &Bits4) -> Result<(), Memory> {
        self.number(bits.len() as u64)?;
        self.put("'b")?;
        for bit in bits.as_slice() {
            self.put(digit(*bit))?;
        }
        Ok(())
    }

    /// Writes a range with a space behind it, where there is one.
    pub fn range(&mut self, range: Option<VRange>) -> Result<(), Memory> {
        match range {
            Some(range) => {
                self.put("[")?;
                self.number(u64::from(range.high))?;
                self.put(":0] ")
            }
            None => Ok(()),
        }
    }

    /// Writes what stands before the part at this index of a list.
    pub fn comma(&mut self, index: usize) -> Result<(), Memory> {
        if index == 0 { Ok(()) } else { self.put(", ") }
    }
}

/// The digit of a bit.
fn digit(bit: V4) -> &'static str {
    match bit {
        V4::Zero => "0",
        V4::One => "1",
        V4::X => "x",
        V4::Z => "z",
    }
}
