//! Files that are loaded in turn.

ghost use Rattle.std.specs.Prelude.{map, IfOk, IfErr, IsErrOf};
ghost use Rattle.vv_base.specs.Outside.{Gives, Rose, KeepsAll, NoneFell};
ghost use Rattle.vv_trans.specs.Translation.{bytes_of};
ghost use Rattle.vv_top.specs.Loads.{GiveAll, HasLoadCause};

use std::alloc::Global;
use vv_base::shelf::{LoadFault, Shelf};

/// Why the loads stopped.
#[derive(Clone, Copy, Debug, PartialEq, Eq)]
pub enum LoadStop {
    /// A load of the file of this number failed. Those before it were loaded.
    Failed(usize),
    /// There is no memory left.
    Memory,
}

/// The bytes of the file of this name.
pub fn load_one<D: Shelf>(alloc: Global, name: &str, shelf: &mut D) -> Result<Vec<u8>, LoadFault>
    ensures loaded { IfOk result (λ file. Gives (D.held shelf.old name.now) file.items) }
    ensures cause { IsErrOf result LoadFault.Failed
        → Rose (D.failed_loads shelf.old name.now) (D.failed_loads shelf.new name.now) }
    ensures held { KeepsAll (D.held shelf.old) (D.held shelf.new) }
    ensures loads { NoneFell (D.failed_loads shelf.old) (D.failed_loads shelf.new) }
    ensures saves { NoneFell (D.failed_saves shelf.old) (D.failed_saves shelf.new) }
{
    let mut file = Vec::new(alloc);
    shelf.load(name, &mut file)?;
    Ok(file)
}

/// The bytes of the files of these names, which are loaded in order.
pub fn load_all<D: Shelf>(
    alloc: Global,
    names: &[&str],
    shelf: &mut D,
) -> Result<Vec<Vec<u8>>, LoadStop>
    ensures loaded { IfOk result (λ files.
        GiveAll (D.held shelf.old) (bytes_of names.now) (map (λ file. file.items) files.items)) }
    ensures cause { IfErr result (HasLoadCause (bytes_of names.now) (D.held shelf.old)
        (D.failed_loads shelf.old) (D.failed_loads shelf.new)) }
    ensures held { KeepsAll (D.held shelf.old) (D.held shelf.new) }
    ensures loads { NoneFell (D.failed_loads shelf.old) (D.failed_loads shelf.new) }
    ensures saves { NoneFell (D.failed_saves shelf.old) (D.failed_saves shelf.new) }
{
    let mut files = Vec::new(alloc);
    for name in names {
        match load_one(alloc, *name, shelf) {
            Ok(file) => {
                if files.push(file).is_err() {
                    return Err(LoadStop::Memory);
                }
            }
            Err(LoadFault::Failed) => return Err(LoadStop::Failed(files.len())),
            Err(LoadFault::Memory) => return Err(LoadStop::Memory),
        }
    }
    Ok(files)
}
