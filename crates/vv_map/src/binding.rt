//! Finds the objects of lines in a text.

use crate::lines::{Line, is_same_line};
use sqlite_items::Items;
use std::alloc::Global;
use std::collections::HashMap;
use vv_base::fault::Memory;
use vv_flat::{Flat, FlatObject, TopKind};
use vv_hash::{Seed, SeededState};
use vv_record::{RecordCode, RecordFault};

/// For each line the number of its object.
#[derive(Drop)]
pub struct Binding {
    pub objects: ObjectList,
}

pub type ObjectList = Items<usize>;

/// The objects of lines. `own` are the lines that they have to be. The least record that breaks M2 is told.
pub fn bind(
    alloc: Global,
    lines: &[Line],
    flat: &Flat,
    own: Option<&[Line]>,
) -> Result<Binding, RecordFault> {
    let numbers = numbers_of(alloc, flat.objects.as_slice())?;
    let mut objects = Items::new(alloc);
    for (number, line) in lines.iter().enumerate() {
        let is_own = match own {
            Some(own) => match own.get(number) {
                Some(other) => is_same_line(line, other),
                None => false,
            },
            None => true,
        };
        match numbers.get(line.verilog.as_slice()) {
            Some(object) if is_own && fits(line, flat, *object) => objects.push(*object)?,
            _ => return refused(number),
        }
    }
    if let Some(own) = own
        && own.len() > lines.len()
    {
        return refused(lines.len());
    }
    Ok(Binding { objects })
}

fn refused(number: usize) -> Result<Binding, RecordFault> {
    Err(RecordFault::Refused {
        code: RecordCode::M2,
        number: number as u64,
    })
}

/// Whether an object has the width of a line, and is an input of the top exactly where the line is of an input.
fn fits(line: &Line, flat: &Flat, number: usize) -> bool {
    match flat.objects.get(number) {
        Some(object) => {
            object.width == line.width && (object.top == TopKind::Input) == line.kind.is_input()
        }
        None => false,
    }
}

/// The numbers of objects by their paths.
fn numbers_of<'f>(
    alloc: Global,
    objects: &'f [FlatObject],
) -> Result<HashMap<&'f [u8], usize, SeededState>, Memory> {
    let mut seed = Seed::new();
    for object in objects {
        seed.add(object.path.as_slice());
    }
    let mut numbers = HashMap::with_hasher(alloc, seed.state());
    for (number, object) in objects.iter().enumerate() {
        numbers.insert(object.path.as_slice(), number)?;
    }
    Ok(numbers)
}
