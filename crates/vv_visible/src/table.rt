//! Regions, scopes and what names denote in them.
//!
//! A region is a part of the text that declares: a unit, a process, a function, a loop. A scope begins where what is visible may
//! change. Scopes are numbered in the order of analysis, so that what is visible in a scope was declared in scopes up to it. For each name
//! and each region that changes it there is a list, which has all that the name denotes there, also by the regions round it and by use
//! clauses. So a look-up goes outwards to the first region that has one.

use crate::declared::{Declared, Entity, Formal, FormalList, Sort};
use crate::slots::{Seen, Slots};
use crate::symbols::number;
use indexmap::IndexMap;
use std::alloc::Global;
use vv_base::fault::{Memory, Span};
use vv_types::BaseType;

/// The region round all units, in which the package `standard` is visible.
pub const ROOT: u32 = 0;

/// The regions of the units of the libraries.
pub const IEEE: u32 = 1;

pub const STD: u32 = 2;

pub const WORK: u32 = 3;

/// A name of a use clause: all that a package exports, one name of it, or a unit.
#[derive(Clone, Copy, PartialEq, Eq)]
pub enum Used {
    All { exports: u32 },
    One { exports: u32, symbol: u32 },
    Unit { decl: u32 },
}

/// A region. Its `twin` is the region that it goes on with: that of the entity for an architecture, and that of the package for its
/// body.
#[derive(Drop)]
struct Region {
    parent: Option<u32>,
    twin: Option<u32>,
    used: Vec<Used>,
    symbols: Vec<u32>,
}

/// Where a scope begins.
#[derive(Clone, Copy)]
struct Start {
    file: u32,
    at: u32,
    scope: u32,
}

/// An array type by the number of its declaration, with the types of its indexes and elements.
#[derive(Clone, Copy)]
pub struct ArrayType {
    pub decl: u32,
    pub index: BaseType,
    pub element: BaseType,
}

/// All declarations, regions and scopes. `marks` has what lists hold that can be overloaded, by `Entity::mark_in`: of homographs the
/// one that was put there last. What a list no longer holds may stand there too.
#[derive(Drop)]
pub struct Table {
    alloc: Global,
    entities: Vec<Entity>,
    regions: Vec<Region>,
    scopes: Vec<u32>,
    starts: Vec<Start>,
    slots: Vec<Slots>,
    marks: IndexMap<u64, u32>,
    arrays: Vec<ArrayType>,
    places: Vec<(u64, u32)>,
}

/// A place as one number, in the order of files and offsets.
fn place(file: u32, at: u32) -> u64 {
    ((file as u64) << 32) | at as u64
}

impl Table {
    /// No declarations, and the scope 0 in the region round all units.
    pub fn new(alloc: Global, symbols: u32) -> Result<Table, Memory> {
        let mut table = Table {
            alloc,
            entities: Vec::new(alloc),
            regions: Vec::new(alloc),
            scopes: Vec::new(alloc),
            starts: Vec::new(alloc),
            slots: Vec::new(alloc),
            marks: IndexMap::new(alloc),
            arrays: Vec::new(alloc),
            places: Vec::new(alloc),
        };
        for _ in 0..symbols {
            table.slots.push(Slots::new(alloc))?;
        }
        for _ in ROOT..=WORK {
            table.region(None, None)?;
        }
        table.scopes.push(ROOT)?;
        Ok(table)
    }

    /// The allocator.
    pub fn alloc(&self) -> Global {
        self.alloc
    }

    /// A new region in another one.
    pub fn region(&mut self, parent: Option<u32>, twin: Option<u32>) -> Result<u32, Memory> {
        let region = number(self.regions.len())?;
        self.regions.push(Region {
            parent,
            twin,
            used: Vec::new(self.alloc),
            symbols: Vec::new(self.alloc),
        })?;
        Ok(region)
    }

    /// The scope that was begun last.
    fn now(&self) -> u32 {
        match u32::try_from(self.scopes.len().saturating_sub(1)) {
            Ok(scope) => scope,
            Err(_) => u32::MAX,
        }
    }

    /// Begins a scope in a region at a place.
    pub fn begin(&mut self, file: u32, at: u32, region: u32) -> Result<(), Memory> {
        let scope = number(self.scopes.len())?;
        self.scopes.push(region)?;
        self.starts.push(Start { file, at, scope })?;
        Ok(())
    }

    /// From a place on no unit stands.
    pub fn leave(&mut self, file: u32, at: u32) -> Result<(), Memory> {
        self.starts.push(Start { file, at, scope: 0 })?;
        Ok(())
    }

    /// Puts the starts of scopes and the places of declarations into the order of the text. Of starts at one place the last one counts.
    pub fn settle(&mut self) -> Result<(), Memory> {
        self.starts
            .sort_by_key(|start| place(start.file, start.at))?;
        self.places.sort_by_key(|entry| entry.0)?;
        Ok(())
    }

    /// The scope of a place.
    pub fn scope_at(&self, file: u32, at: u32) -> u32 {
        let wanted = place(file, at);
        let starts = self.starts.as_slice();
        let count = starts.partition_point(|start| place(start.file, start.at) <= wanted);
        match starts.get(count.saturating_sub(1)) {
            Some(start) if count > 0 => start.scope,
            _ => 0,
        }
    }

    /// The declaration whose identifier begins at a place.
    pub fn declaration_at(&self, file: u32, at: u32) -> Option<u32> {
        let wanted = place(file, at);
        let places = self.places.as_slice();
        let entry = places.get(places.partition_point(|entry| entry.0 < wanted))?;
        if entry.0 == wanted {
            Some(entry.1)
        } else {
            None
        }
    }

    /// The identifier at a place is that of a declaration.
    pub fn place(&mut self, span: Span, decl: u32) -> Result<(), Memory> {
        self.places.push((place(span.file, span.at), decl))?;
        Ok(())
    }

    /// How many declarations there are.
    pub fn count(&self) -> usize {
        self.entities.len()
    }

    /// A declaration by its number.
    pub fn entity(&self, decl: u32) -> Option<&Entity> {
        self.entities.get(decl as usize)
    }

    /// What the name of a symbol denotes in a scope.
    pub fn denoted(&self, scope: u32, symbol: u32) -> Seen<'_> {
        match self.scopes.get(scope as usize) {
            Some(region) => self.seen(*region, scope, symbol),
            None => Seen {
                list: &[],
                clash: false,
            },
        }
    }

    /// What it denotes now in a region.
    pub fn denoted_now(&self, region: u32, symbol: u32) -> Seen<'_> {
        self.seen(region, self.now(), symbol)
    }

    fn seen(&self, region: u32, scope: u32, symbol: u32) -> Seen<'_> {
        let mut around = Some(region);
        if let Some(slots) = self.slots.get(symbol as usize) {
            for _ in 0..self.regions.len() {
                let Some(region) = around else {
                    break;
                };
                if let Some(seen) = slots.seen(region, scope) {
                    return seen;
                }
                around = self.around(region);
            }
        }
        Seen {
            list: &[],
            clash: false,
        }
    }

    /// The region round a region.
    fn around(&self, region: u32) -> Option<u32> {
        self.regions.get(region as usize)?.parent
    }

    /// Whether a region is another one or stands round it.
    fn is_round(&self, outer: u32, region: u32) -> bool {
        let mut around = Some(region);
        for _ in 0..self.regions.len() {
            match around {
                Some(inner) if inner == outer => return true,
                Some(inner) => around = self.around(inner),
                None => return false,
            }
        }
        false
    }

    /// The region that a region goes on with, or itself.
    fn whole(&self, region: u32) -> u32 {
        match self.regions.get(region as usize) {
            Some(found) => found.twin.unwrap_or(region),
            None => region,
        }
    }

    fn is_overloadable(&self, decl: u32) -> bool {
        match self.entity(decl) {
            Some(entity) => entity.is_overloadable(),
            None => false,
        }
    }

    fn are_homographs(&self, one: u32, other: u32) -> bool {
        match (self.entity(one), self.entity(other)) {
            (Some(one), Some(other)) => one.is_homograph(other),
            _ => true,
        }
    }

    /// Whether a declaration is visible by a region that is this one or stands round it.
    fn is_by_region(&self, decl: u32, region: u32) -> bool {
        match self.entity(decl) {
            Some(entity) => self.is_round(entity.region, region),
            None => false,
        }
    }

    /// A new declaration, which is not visible yet.
    pub fn add(&mut self, entity: Entity) -> Result<u32, Memory> {
        let decl = number(self.entities.len())?;
        self.entities.push(entity)?;
        Ok(decl)
    }

    /// All array types, in the order of their declarations.
    pub fn arrays(&self) -> &[ArrayType] {
        self.arrays.as_slice()
    }

    /// An array type.
    pub fn add_array(
        &mut self,
        decl: u32,
        index: BaseType,
        element: BaseType,
    ) -> Result<(), Memory> {
        self.arrays.push(ArrayType {
            decl,
            index,
            element,
        })?;
        Ok(())
    }

    /// The types of the indexes and the elements of an array type.
    pub fn parts(&self, base: BaseType) -> Option<(BaseType, BaseType)> {
        let BaseType::Array(decl) = base else {
            return None;
        };
        let arrays = self.arrays.as_slice();
        let found = arrays.get(arrays.partition_point(|array| array.decl < decl))?;
        if found.decl == decl {
            Some((found.index, found.element))
        } else {
            None
        }
    }

    /// The region whose list the name of a symbol has now in a region.
    fn listing(&self, region: u32, symbol: u32) -> Option<u32> {
        let slots = self.slots.get(symbol as usize)?;
        let mut around = Some(region);
        for _ in 0..self.regions.len() {
            let inner = around?;
            if slots.has(inner) {
                return Some(inner);
            }
            around = self.around(inner);
        }
        None
    }

    /// What the list of a declaration's name holds by its mark. Where that is nothing the list has no homograph that can be overloaded.
    fn marked(&self, entity: &Entity) -> Option<u32> {
        let region = self.listing(entity.region, entity.symbol)?;
        self.marks.get(&entity.mark_in(region)).copied()
    }

    /// Whether a declaration is a function of the region `whole` with the profile of a new one.
    fn is_function_of(&self, decl: u32, whole: u32, entity: &Entity) -> bool {
        match self.entity(decl) {
            Some(found) => {
                let here = self.whole(found.region) == whole;
                let function = matches!(found.sort, Sort::Function { .. });
                here && function && found.is_homograph(entity)
            }
            None => false,
        }
    }

    /// The function of its region whose profile a new one has, if there is one.
    pub fn same_function(&self, entity: &Entity) -> Option<u32> {
        let whole = self.whole(entity.region);
        let marked = self.marked(entity)?;
        if self.is_function_of(marked, whole, entity) {
            return Some(marked);
        }
        let seen = self.denoted_now(entity.region, entity.symbol);
        for decl in seen.list {
            if self.is_function_of(*decl, whole, entity) {
                return Some(*decl);
            }
        }
        None
    }

    /// The body of a function is met.
    pub fn set_body(&mut self, decl: u32) {
        if let Some(entity) = self.entities.get_mut(decl as usize) {
            entity.sort = Sort::Function { body: true };
        }
    }

    /// Makes a unit known in its library.
    pub fn enlist(&mut self, decl: u32) -> Result<(), Memory> {
        match self.entity(decl) {
            Some(entity) => {
                let region = entity.region;
                let symbol = entity.symbol;
                self.put_more(region, symbol, decl)
            }
            None => Ok(()),
        }
    }

    /// What a package declares is exported.
    pub fn set_exports(&mut self, decl: u32, exports: u32) {
        if let Some(entity) = self.entities.get_mut(decl as usize)
            && let Sort::Package { region, .. } = entity.sort
        {
            entity.sort = Sort::Package {
                region,
                exports: Some(exports),
            };
        }
    }

    /// Whether a region has declared a homograph of a declaration, which no operator of a type counts for.
    fn is_twice(&self, region: u32, decl: u32, list: &[u32]) -> bool {
        let whole = self.whole(region);
        for other in list {
            if let Some(found) = self.entity(*other) {
                let here = self.whole(found.region) == whole;
                if here && !found.is_predefined() && self.are_homographs(*other, decl) {
                    return true;
                }
            }
        }
        false
    }

    /// Makes a declaration visible in its region from now on. The answer is whether the region has a homograph of it.
    pub fn declare(&mut self, decl: u32) -> Result<bool, Memory> {
        let Some(entity) = self.entity(decl) else {
            return Ok(false);
        };
        let region = entity.region;
        let symbol = entity.symbol;
        let fresh = entity.is_predefined();
        let seen = self.denoted_now(region, symbol);
        let single = self.is_single(seen.list);
        let met = single || !entity.is_overloadable() || self.marked(entity).is_some();
        if !fresh && met && self.is_twice(region, decl, seen.list) {
            return Ok(true);
        }
        if seen.clash || single {
            let list = self.uncovered(region, symbol, decl)?;
            self.put(region, symbol, list.as_slice(), false)?;
            return Ok(false);
        }
        if !fresh && met && self.hides_any(decl, seen.list) {
            let list = self.unhidden(decl, seen.list)?;
            self.put(region, symbol, list.as_slice(), false)?;
            return Ok(false);
        }
        self.put_more(region, symbol, decl)?;
        Ok(false)
    }

    /// Whether the list has a declaration that cannot be overloaded.
    fn is_single(&self, list: &[u32]) -> bool {
        match list.first() {
            Some(decl) => !self.is_overloadable(*decl),
            None => false,
        }
    }

    fn hides_any(&self, decl: u32, list: &[u32]) -> bool {
        list.iter().any(|other| self.are_homographs(*other, decl))
    }

    /// Those that a declaration does not hide, and it.
    fn unhidden(&self, decl: u32, list: &[u32]) -> Result<Vec<u32>, Memory> {
        let mut kept = Vec::new(self.alloc);
        for other in list {
            if !self.are_homographs(*other, decl) {
                kept.push(*other)?;
            }
        }
        kept.push(decl)?;
        Ok(kept)
    }

    /// What use clauses give beside a declaration that hides all that was visible, and it.
    fn uncovered(&self, region: u32, symbol: u32, decl: u32) -> Result<Vec<u32>, Memory> {
        let mut list = Vec::new(self.alloc);
        let mut around = Some(region);
        for _ in 0..self.regions.len() {
            let Some(region) = around else {
                break;
            };
            if let Some(found) = self.regions.get(region as usize) {
                for used in found.used.as_slice() {
                    self.add_given(*used, symbol, decl, &mut list)?;
                }
            }
            around = self.around(region);
        }
        list.push(decl)?;
        Ok(list)
    }

    /// Adds what a use clause gives, but for homographs of a declaration.
    fn add_given(
        &self,
        used: Used,
        symbol: u32,
        decl: u32,
        list: &mut Vec<u32>,
    ) -> Result<(), Memory> {
        for other in self.given(used, symbol) {
            if !self.are_homographs(*other, decl) && !list.as_slice().contains(other) {
                list.push(*other)?;
            }
        }
        Ok(())
    }

    /// What a use clause gives for a symbol. A unit is no overloadable one and counts in no list.
    fn given(&self, used: Used, symbol: u32) -> &[u32] {
        match used {
            Used::All { exports } => self.exported(exports, symbol),
            Used::One {
                exports,
                symbol: one,
            } => {
                if one == symbol {
                    self.exported(exports, symbol)
                } else {
                    &[]
                }
            }
            Used::Unit { .. } => &[],
        }
    }

    /// What a package exports under a symbol.
    pub fn exported(&self, exports: u32, symbol: u32) -> &[u32] {
        let Some(slots) = self.slots.get(symbol as usize) else {
            return &[];
        };
        match slots.seen(exports, u32::MAX) {
            Some(seen) => seen.list,
            None => &[],
        }
    }

    /// What a package exports, once it is known.
    pub fn exports_of(&self, decl: u32) -> Option<u32> {
        match self.entity(decl)?.sort {
            Sort::Package { exports, .. } => exports,
            _ => None,
        }
    }

    /// The package or the entity of a library by its symbol.
    pub fn unit(&self, library: u32, symbol: u32, package: bool) -> Option<u32> {
        for decl in self.exported(library, symbol) {
            if let Some(entity) = self.entity(*decl)
                && matches!(entity.sort, Sort::Package { .. }) == package
            {
                return Some(*decl);
            }
        }
        None
    }

    /// From now on a symbol denotes this list in the region.
    fn put(&mut self, region: u32, symbol: u32, list: &[u32], clash: bool) -> Result<(), Memory> {
        let now = self.now();
        self.note(region, symbol)?;
        for decl in list {
            self.mark(region, *decl)?;
        }
        match self.slots.get_mut(symbol as usize) {
            Some(slots) => slots.put(self.alloc, region, now, list, clash),
            None => Ok(()),
        }
    }

    /// From now on a symbol denotes one declaration more in the region.
    fn put_more(&mut self, region: u32, symbol: u32, decl: u32) -> Result<(), Memory> {
        let now = self.now();
        let has = match self.slots.get(symbol as usize) {
            Some(slots) => slots.has(region),
            None => false,
        };
        if has {
            self.mark(region, decl)?;
            return match self.slots.get_mut(symbol as usize) {
                Some(slots) => slots.grow(region, now, decl),
                None => Ok(()),
            };
        }
        let mut list = Vec::from_slice(self.alloc, self.denoted_now(region, symbol).list)?;
        list.push(decl)?;
        self.put(region, symbol, list.as_slice(), false)
    }

    /// The list of a region holds a declaration from now on.
    fn mark(&mut self, region: u32, decl: u32) -> Result<(), Memory> {
        if let Some(entity) = self.entities.get(decl as usize)
            && entity.is_overloadable()
        {
            let mark = entity.mark_in(region);
            self.marks.insert(mark, decl)?;
        }
        Ok(())
    }

    /// The region changes a symbol.
    fn note(&mut self, region: u32, symbol: u32) -> Result<(), Memory> {
        let has = match self.slots.get(symbol as usize) {
            Some(slots) => slots.has(region),
            None => true,
        };
        if !has && let Some(found) = self.regions.get_mut(region as usize) {
            found.symbols.push(symbol)?;
        }
        Ok(())
    }

    /// Whether a use clause that reaches a region gives this already.
    fn is_used(&self, region: u32, used: Used) -> bool {
        let mut around = Some(region);
        for _ in 0..self.regions.len() {
            let Some(region) = around else {
                break;
            };
            if let Some(found) = self.regions.get(region as usize)
                && found.used.as_slice().contains(&used)
            {
                return true;
            }
            around = self.around(region);
        }
        false
    }

    /// A use clause in a region, from now on.
    pub fn apply(&mut self, region: u32, used: Used) -> Result<(), Memory> {
        if self.is_used(region, used) {
            return Ok(());
        }
        match used {
            Used::All { exports } => self.offer_all(region, exports)?,
            Used::One { exports, symbol } => {
                let list = Vec::from_slice(self.alloc, self.exported(exports, symbol))?;
                self.offer(region, symbol, list.as_slice())?;
            }
            Used::Unit { decl } => {
                if let Some(entity) = self.entity(decl) {
                    let symbol = entity.symbol;
                    self.offer(region, symbol, &[decl])?;
                }
            }
        }
        if let Some(found) = self.regions.get_mut(region as usize) {
            found.used.push(used)?;
        }
        Ok(())
    }

    fn offer_all(&mut self, region: u32, exports: u32) -> Result<(), Memory> {
        let symbols = match self.regions.get(exports as usize) {
            Some(found) => Vec::from_slice(self.alloc, found.symbols.as_slice())?,
            None => Vec::new(self.alloc),
        };
        for symbol in symbols.as_slice() {
            let list = Vec::from_slice(self.alloc, self.exported(exports, *symbol))?;
            self.offer(region, *symbol, list.as_slice())?;
        }
        Ok(())
    }

    /// A use clause gives these declarations of a symbol.
    fn offer(&mut self, region: u32, symbol: u32, given: &[u32]) -> Result<(), Memory> {
        let seen = self.denoted_now(region, symbol);
        if seen.clash {
            return Ok(());
        }
        let mut list = Vec::from_slice(self.alloc, seen.list)?;
        let mut here = 0usize;
        for decl in seen.list {
            if self.is_by_region(*decl, region) {
                here = here.saturating_add(1);
            }
        }
        for decl in given {
            let hidden = here > 0 && self.is_covered(*decl, region, seen.list);
            if !hidden && !seen.list.contains(decl) {
                list.push(*decl)?;
            }
        }
        if list.len() == seen.list.len() {
            return Ok(());
        }
        let agree = list.len() < 2 || list.iter().all(|decl| self.is_overloadable(*decl));
        if agree {
            self.put(region, symbol, list.as_slice(), false)
        } else {
            self.put(region, symbol, &[], true)
        }
    }

    /// Whether a homograph of a declaration is visible by regions.
    fn is_covered(&self, decl: u32, region: u32, list: &[u32]) -> bool {
        for other in list {
            if self.are_homographs(*other, decl) && self.is_by_region(*other, region) {
                return true;
            }
        }
        false
    }

    /// The region of what a package exports: what its own region declares.
    pub fn export(&mut self, package: u32) -> Result<u32, Memory> {
        let exports = self.region(None, None)?;
        let symbols = match self.regions.get(package as usize) {
            Some(found) => Vec::from_slice(self.alloc, found.symbols.as_slice())?,
            None => Vec::new(self.alloc),
        };
        for symbol in symbols.as_slice() {
            let own = self.own(package, *symbol)?;
            if !own.is_empty() {
                self.put(exports, *symbol, own.as_slice(), false)?;
            }
        }
        Ok(exports)
    }

    /// What a symbol denotes now of what a region declares itself.
    fn own(&self, region: u32, symbol: u32) -> Result<Vec<u32>, Memory> {
        let mut own = Vec::new(self.alloc);
        for decl in self.denoted_now(region, symbol).list {
            if let Some(entity) = self.entity(*decl)
                && entity.region == region
            {
                own.push(*decl)?;
            }
        }
        Ok(own)
    }

    /// Formal parameters of these types, none of them with a name.
    pub fn nameless(&self, params: &[BaseType]) -> Result<FormalList, Memory> {
        let mut formals = FormalList::new(self.alloc);
        for base in params {
            formals.push(Formal {
                name: None,
                default: false,
                bounded: !matches!(base, BaseType::Array(_)),
            })?;
        }
        Ok(formals)
    }

    /// A declaration's name, kind and place.
    pub fn declared(&self, decl: u32) -> Option<&Declared> {
        match self.entity(decl) {
            Some(entity) => Some(&entity.declared),
            None => None,
        }
    }

    /// Parameter `k` of a function.
    pub fn formal(&self, decl: u32, k: u32) -> Option<Formal> {
        self.entity(decl)?.formals.get(k as usize).copied()
    }
}
