//! Paths of what a design has.

use crate::making::Making;
use sqlite_items::at;
use std::alloc::Global;
use vv_base::fault::{Memory, Name};
use vv_base::text::Text;
use vv_typed::Label;

/// Appends the digits of a number.
pub fn push_number(alloc: Global, n: u32, into: &mut Vec<u8>) -> Result<(), Memory> {
    let text = format!(in alloc; "{n}")?;
    into.extend_from_slice(text.as_bytes())?;
    Ok(())
}

/// Appends a number with its sign.
fn push_signed(alloc: Global, n: i32, into: &mut Vec<u8>) -> Result<(), Memory> {
    let text = format!(in alloc; "{n}")?;
    into.extend_from_slice(text.as_bytes())?;
    Ok(())
}

impl<'u> Making<'u> {
    /// Appends a point where the path is not empty.
    fn push_point(&mut self) -> Result<(), Memory> {
        if !self.path.is_empty() {
            self.path.push(b'.')?;
        }
        Ok(())
    }

    /// Goes down to a name.
    pub fn down_to(&mut self, name: Name) -> Result<(), Memory> {
        self.push_point()?;
        if let Some(text) = at(self.units.texts.as_slice(), name.0 as usize) {
            self.path.extend_from_slice(text.as_slice())?;
        }
        Ok(())
    }

    /// Goes down to a concurrent statement.
    pub fn down_to_label(&mut self, label: Label) -> Result<(), Memory> {
        match label {
            Label::Written(name) => self.down_to(name),
            Label::Unlabelled(k) => {
                self.push_point()?;
                self.path.extend_from_slice(b"_p")?;
                push_number(self.alloc, k, &mut self.path)
            }
        }
    }

    /// Goes down to a turn of a generate statement.
    pub fn down_to_turn(&mut self, n: i32) -> Result<(), Memory> {
        self.path.push(b'(')?;
        push_signed(self.alloc, n, &mut self.path)?;
        self.path.push(b')')?;
        Ok(())
    }

    /// Goes back up to a length.
    pub fn up_to(&mut self, len: usize) {
        self.path.truncate(len);
    }

    /// The text of a name.
    pub fn text(&self, name: Name) -> Result<Text, Memory> {
        match at(self.units.texts.as_slice(), name.0 as usize) {
            Some(text) => Text::from_slice(self.alloc, text.as_slice()),
            None => Text::from_slice(self.alloc, &[]),
        }
    }

    /// The path as a text.
    pub fn here(&self) -> Result<Text, Memory> {
        Text::from_slice(self.alloc, self.path.as_slice())
    }

    /// The path of a name here.
    pub fn path_of(&mut self, name: Name) -> Result<Text, Memory> {
        let len = self.path.len();
        self.down_to(name)?;
        let text = self.here()?;
        self.up_to(len);
        Ok(text)
    }
}
