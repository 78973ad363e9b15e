//! What one name denotes in each region that changes it.

ghost use Rattle.std.specs.Prelude.{◌≤◌, vec_len};

use std::alloc::Global;
use vv_base::fault::Memory;

/// What a name denotes at a place: declarations, all overloadable where they are several. It is a clash where use clauses give
/// declarations that are not.
#[derive(Clone, Copy)]
pub struct Seen<'t> {
    pub list: &'t [u32],
    pub clash: bool,
}

/// What a name denotes from a scope on: a part of the slot's list.
#[derive(Clone, Copy)]
struct Entry {
    scope: u32,
    start: usize,
    end: usize,
    clash: bool,
}

/// What a name denotes in a region, in the order of scopes. Entries that grow share their list.
#[derive(Drop)]
pub struct Slot {
    region: u32,
    entries: Vec<Entry>,
    list: Vec<u32>,
}

impl Slot {
    /// What stands from the last scope on that is not behind `scope`.
    fn seen(&self, scope: u32) -> Option<Seen<'_>> {
        let entries = self.entries.as_slice();
        let count = entries.partition_point(|entry| entry.scope <= scope);
        let entry = entries.get(count.checked_sub(1)?)?;
        let list = self.list.get(entry.start..entry.end)?;
        Some(Seen {
            list,
            clash: entry.clash,
        })
    }

    /// From `scope` on the name denotes these declarations.
    fn put(&mut self, scope: u32, decls: &[u32], clash: bool) -> Result<(), Memory> {
        let start = self.list.len();
        self.list.extend_from_slice(decls)?;
        self.entries.push(Entry {
            scope,
            start,
            end: self.list.len(),
            clash,
        })?;
        Ok(())
    }

    /// From `scope` on the name denotes one declaration more than before.
    fn grow(&mut self, scope: u32, decl: u32) -> Result<(), Memory> {
        let start = match self.entries.last() {
            Some(entry) => entry.start,
            None => self.list.len(),
        };
        self.list.push(decl)?;
        self.entries.push(Entry {
            scope,
            start,
            end: self.list.len(),
            clash: false,
        })?;
        Ok(())
    }
}

/// What a name denotes in all regions, in the order of regions.
#[derive(Drop)]
pub struct Slots {
    slots: Vec<Slot>,
}

impl Slots {
    pub fn new(alloc: Global) -> Slots {
        Slots {
            slots: Vec::new(alloc),
        }
    }

    /// How many slots have regions before this one.
    fn before(&self, region: u32) -> usize
        ensures { result ≤ vec_len self.now.slots }
    {
        self.slots
            .as_slice()
            .partition_point(|slot| slot.region < region)
    }

    /// What the name denotes by the slot of a region, if there is one.
    pub fn seen(&self, region: u32, scope: u32) -> Option<Seen<'_>> {
        let slot = self.slots.get(self.before(region))?;
        if slot.region == region {
            slot.seen(scope)
        } else {
            None
        }
    }

    /// Whether the region changes the name.
    pub fn has(&self, region: u32) -> bool {
        match self.slots.get(self.before(region)) {
            Some(slot) => slot.region == region,
            None => false,
        }
    }

    /// From `scope` on the name denotes these declarations in the region.
    pub fn put(
        &mut self,
        alloc: Global,
        region: u32,
        scope: u32,
        decls: &[u32],
        clash: bool,
    ) -> Result<(), Memory> {
        let at = self.before(region);
        if !self.has(region) {
            let slot = Slot {
                region,
                entries: Vec::new(alloc),
                list: Vec::new(alloc),
            };
            self.slots.insert(at, slot)?;
        }
        match self.slots.get_mut(at) {
            Some(slot) => slot.put(scope, decls, clash),
            None => Ok(()),
        }
    }

    /// From `scope` on the name denotes one declaration more in the region than before.
    pub fn grow(&mut self, region: u32, scope: u32, decl: u32) -> Result<(), Memory> {
        let at = self.before(region);
        match self.slots.get_mut(at) {
            Some(slot) => slot.grow(scope, decl),
            None => Ok(()),
        }
    }
}
