//! Which instances are alike.

use crate::keys::is_same_held;
use crate::making::{Making, next_number};
use crate::sub::Sub;
use sqlite_items::at;
use vv_base::fault::Memory;
use vv_held::Held;

/// What the alike instances of an entity have: the architecture, the values of the generics and the subtypes of the ports.
#[derive(Drop)]
pub struct Special {
    pub entity: u32,
    pub arch: u32,
    pub generics: Vec<Held>,
    pub ports: Vec<Sub>,
}

fn is_same(a: &Special, b: &Special) -> bool {
    if a.entity != b.entity
        || a.arch != b.arch
        || a.generics.len() != b.generics.len()
        || a.ports.as_slice() != b.ports.as_slice()
    {
        return false;
    }
    for (k, x) in a.generics.iter().enumerate() {
        match at(b.generics.as_slice(), k) {
            Some(y) => {
                if !is_same_held(x, y) {
                    return false;
                }
            }
            None => return false,
        }
    }
    true
}

impl<'u> Making<'u> {
    /// The number of the instances that are alike.
    pub fn special(&mut self, own: Special) -> Result<u32, Memory> {
        for (k, known) in self.specials.iter().enumerate() {
            if is_same(known, &own) {
                return next_number(k);
            }
        }
        let number = next_number(self.specials.len())?;
        self.specials.push(own)?;
        Ok(number)
    }
}
