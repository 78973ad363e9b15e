//! Wires of a module that are written bits.

use sqlite_items::Items;
use std::alloc::Global;
use vv_base::fault::Memory;
use vv_base::text::Text;
use vv_bits::Bits4;
use vv_vtree::{VExpr, VExprList};

/// Written bits that a wire of the module has already.
#[derive(Drop)]
pub struct Table {
    bits: Bits4,
    name: Text,
}

pub type TableList = Items<Table>;

/// The wire that has the bits already that stand last in a list.
pub fn known_table(
    alloc: Global,
    tables: &TableList,
    list: &VExprList,
) -> Result<Option<Text>, Memory> {
    if let Some(VExpr::Bits(bits)) = list.as_slice().last() {
        for table in tables.as_slice() {
            if table.bits.as_slice() == bits.bits.as_slice() {
                return Ok(Some(Text::from_slice(alloc, table.name.as_slice())?));
            }
        }
    }
    Ok(None)
}

/// Notes a wire of the module whose value stands last in a list, where it is written bits.
pub fn note_table(
    alloc: Global,
    tables: &mut TableList,
    name: &Text,
    list: &VExprList,
) -> Result<(), Memory> {
    if let Some(VExpr::Bits(bits)) = list.as_slice().last() {
        tables.push(Table {
            bits: Bits4::from_slice(alloc, bits.bits.as_slice())?,
            name: Text::from_slice(alloc, name.as_slice())?,
        })?;
    }
    Ok(())
}
