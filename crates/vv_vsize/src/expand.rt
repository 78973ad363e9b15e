//! Puts the instances in their places.

use crate::lower::Lowering;
use sqlite_items::Items;
use std::alloc::Global;
use vv_base::fault::Memory;
use vv_base::text::Text;
use vv_bits::V4;
use vv_flat::{FEvent, FEventList, FlatBit, FlatItem, FlatObject, Place, TopKind};
use vv_vscope::loads::{Load, named_load};
use vv_vscope::scope::{Design, Kind, ModuleScope, Object, Scope, number_of};
use vv_vtree::{VAlways, VDirection, VExpr, VInstance, VItem, VName, VSelect};

/// What there is of the flat design.
#[derive(Drop)]
pub struct Parts {
    pub objects: Vec<FlatObject>,
    pub bits: Vec<FlatBit>,
    pub items: Vec<FlatItem>,
}

/// Makes the flat design.
#[derive(Drop)]
struct Expansion<'s, 't> {
    alloc: Global,
    design: &'s Design<'t>,
    loads: &'s [Load],
    parts: Parts,
    /// The instances on the way, the innermost last.
    way: Vec<Instance<'s, 't>>,
}

/// An instance: where its objects have their bits, what stands before the names in their paths, the next item, and how many objects
/// have their numbers.
#[derive(Drop)]
struct Instance<'s, 't> {
    module: &'s ModuleScope<'t>,
    top: bool,
    prefix: Vec<u8>,
    places: Vec<Place>,
    next: usize,
    listed: usize,
}

/// The parts of the flat design of this top, and their objects, bits and items.
pub fn expand<'s, 't>(
    alloc: Global,
    design: &'s Design<'t>,
    loads: &'s [Load],
    top: &'s ModuleScope<'t>,
) -> Result<Parts, Memory> {
    let load = named_load(design, loads, top.module.name.text.as_slice());
    if load.parts > u64::from(u32::MAX) {
        return Err(Memory);
    }
    let mut expansion = Expansion {
        alloc,
        design,
        loads,
        parts: Parts {
            objects: Vec::new(alloc),
            bits: Vec::new(alloc),
            items: Vec::new(alloc),
        },
        way: Vec::new(alloc),
    };
    expansion.enter_top(top)?;
    for _ in 0..load.steps {
        let Some(instance) = expansion.way.pop() else {
            break;
        };
        expansion.step(instance)?;
    }
    Ok(expansion.parts)
}

impl<'s, 't> Expansion<'s, 't> {
    fn enter_top(&mut self, module: &'s ModuleScope<'t>) -> Result<(), Memory> {
        let mut places = Vec::new(self.alloc);
        for object in &module.objects {
            places.push(self.bits_of(object, true)?)?;
        }
        let instance = Instance {
            module,
            top: true,
            prefix: Vec::new(self.alloc),
            places,
            next: 0,
            listed: 0,
        };
        self.enter(instance)
    }

    /// Gives the ports of an instance their numbers, and goes on with its items.
    fn enter(&mut self, instance: Instance<'s, 't>) -> Result<(), Memory> {
        let mut instance = instance;
        for port in instance.module.module.ports.as_slice() {
            self.list(&mut instance, &port.name)?;
        }
        self.way.push(instance)?;
        Ok(())
    }

    /// Goes over the next item of an instance.
    fn step(&mut self, instance: Instance<'s, 't>) -> Result<(), Memory> {
        let mut instance = instance;
        let module = instance.module;
        let Some(item) = module.module.items.get(instance.next) else {
            return Ok(());
        };
        instance.next = instance.next.saturating_add(1);
        if let VItem::Instance(inner) = item {
            return self.descend(instance, inner);
        }
        self.add(&mut instance, item)?;
        self.way.push(instance)?;
        Ok(())
    }

    /// Adds an item of an instance that is no instance itself.
    fn add(&mut self, instance: &mut Instance<'s, 't>, item: &VItem) -> Result<(), Memory> {
        match item {
            VItem::Wire(declaration)
            | VItem::Reg {
                declaration,
                initial: _,
            } => self.list(instance, &declaration.name),
            VItem::Assign { target, value, at } => self.add_assign(instance, target, value, *at),
            VItem::Always(always) => self.add_always(instance, always),
            VItem::Instance(_) | VItem::Function(_) => Ok(()),
        }
    }

    fn add_assign(
        &mut self,
        instance: &Instance<'s, 't>,
        target: &VSelect,
        value: &VExpr,
        at: u64,
    ) -> Result<(), Memory> {
        let lowering = self.lowering(instance);
        let target = lowering.select(target);
        let value = lowering.expr(value)?;
        self.drive(target);
        self.parts
            .items
            .push(FlatItem::Assign { target, value, at })?;
        Ok(())
    }

    fn add_always(&mut self, instance: &Instance<'s, 't>, always: &VAlways) -> Result<(), Memory> {
        let lowering = self.lowering(instance);
        let events = events(self.alloc, &lowering, always)?;
        let body = lowering.stmts(always.block.stmts.as_slice())?;
        self.parts.items.push(FlatItem::Always {
            events,
            body,
            at: always.at,
        })?;
        Ok(())
    }

    fn lowering<'i>(&self, instance: &'i Instance<'s, 't>) -> Lowering<'i, 't> {
        Lowering {
            alloc: self.alloc,
            scope: Scope {
                module: instance.module,
                function: None,
            },
            places: instance.places.as_slice(),
        }
    }

    /// Goes into an instance that stands in another one, unless there is nothing in it.
    fn descend(&mut self, outer: Instance<'s, 't>, inner: &VInstance) -> Result<(), Memory> {
        let entered = self.entered(&outer, inner)?;
        self.way.push(outer)?;
        match entered {
            Some(instance) => self.enter(instance),
            None => Ok(()),
        }
    }

    /// The instance, where there is something in it.
    fn entered(
        &mut self,
        outer: &Instance<'s, 't>,
        inner: &VInstance,
    ) -> Result<Option<Instance<'s, 't>>, Memory> {
        let name = inner.module.text.as_slice();
        let design = self.design;
        let Some(module) = design.module(name) else {
            return Ok(None);
        };
        if named_load(design, self.loads, name).parts == 0 {
            return Ok(None);
        }
        let instance = self.inner(outer, inner, module)?;
        Ok(Some(instance))
    }

    /// An instance in another one.
    fn inner(
        &mut self,
        outer: &Instance<'s, 't>,
        inner: &VInstance,
        module: &'s ModuleScope<'t>,
    ) -> Result<Instance<'s, 't>, Memory> {
        let joined = self.joined(outer, inner, module)?;
        let places = self.places_of(module, joined.as_slice())?;
        let prefix = prefix_in(outer, inner)?;
        Ok(Instance {
            module,
            top: false,
            prefix,
            places,
            next: 0,
            listed: 0,
        })
    }

    /// The places of the objects of a module: those that they are joined with, and new bits for the others.
    fn places_of(
        &mut self,
        module: &'s ModuleScope<'t>,
        joined: &[Option<Place>],
    ) -> Result<Vec<Place>, Memory> {
        let mut places = Vec::new(self.alloc);
        for (object, place) in module.objects.iter().zip(joined) {
            places.push(match place {
                Some(place) => *place,
                None => self.bits_of(object, false)?,
            })?;
        }
        Ok(places)
    }

    /// For each object of a module the bits that an instance connects it with.
    fn joined(
        &self,
        outer: &Instance<'s, 't>,
        inner: &VInstance,
        module: &ModuleScope<'t>,
    ) -> Result<Vec<Option<Place>>, Memory> {
        let lowering = self.lowering(outer);
        let scope = Scope {
            module,
            function: None,
        };
        let mut joined = Vec::new(self.alloc);
        for _ in &module.objects {
            joined.push(None)?;
        }
        for connection in inner.connections.as_slice() {
            let number = scope.number(connection.formal.text.as_slice());
            if let Some(actual) = &connection.actual
                && let Some(place) = joined.get_mut(number as usize)
            {
                *place = Some(lowering.select(actual));
            }
        }
        Ok(joined)
    }

    /// New bits for an object.
    fn bits_of(&mut self, object: &Object<'t>, top: bool) -> Result<Place, Memory> {
        let first = number_of(self.parts.bits.len());
        let width = u32::try_from(object.width).unwrap_or(u32::MAX);
        if width > u32::MAX - first {
            return Err(Memory);
        }
        match (object.kind, object.initial) {
            (Kind::Reg, Some(initial)) => {
                for bit in initial.as_slice().iter().rev() {
                    self.parts.bits.push(FlatBit::Reg(*bit))?;
                }
            }
            (kind, _) => {
                let bit = match kind {
                    Kind::Reg => FlatBit::Reg(V4::X),
                    Kind::Port(VDirection::Input) if top => FlatBit::Input,
                    Kind::Port(_) | Kind::Wire => FlatBit::Undriven,
                };
                for _ in 0..width {
                    self.parts.bits.push(bit)?;
                }
            }
        }
        Ok(Place { first, width })
    }

    /// Notes that an assignment drives these bits.
    fn drive(&mut self, target: Place) {
        for bit in target.first..target.first.saturating_add(target.width) {
            if let Some(place) = self.parts.bits.get_mut(bit as usize)
                && *place == FlatBit::Undriven
            {
                *place = FlatBit::Driven;
            }
        }
    }

    /// Gives the next object of an instance its number.
    fn list(&mut self, instance: &mut Instance<'s, 't>, name: &VName) -> Result<(), Memory> {
        let listed = instance.listed;
        instance.listed = listed.saturating_add(1);
        let (Some(object), Some(place)) = (
            instance.module.objects.get(listed),
            instance.places.get(listed),
        ) else {
            return Ok(());
        };
        let top = match object.kind {
            Kind::Port(VDirection::Input) if instance.top => TopKind::Input,
            Kind::Port(_) if instance.top => TopKind::Output,
            _ => TopKind::Inner,
        };
        self.parts.objects.push(FlatObject {
            path: path_in(self.alloc, instance, name)?,
            width: place.width,
            top,
            first: place.first,
        })?;
        Ok(())
    }
}

/// What stands before the names in the paths of an instance's objects.
fn prefix_in(outer: &Instance<'_, '_>, inner: &VInstance) -> Result<Vec<u8>, Memory> {
    let mut prefix = outer.prefix.clone()?;
    prefix.extend_from_slice(inner.name.text.as_slice())?;
    prefix.push(b'.')?;
    Ok(prefix)
}

/// The path of an object of an instance.
fn path_in(alloc: Global, instance: &Instance<'_, '_>, name: &VName) -> Result<Text, Memory> {
    let mut path = instance.prefix.clone()?;
    path.extend_from_slice(name.text.as_slice())?;
    Text::from_slice(alloc, &path)
}

/// The events of an always construct.
fn events(
    alloc: Global,
    lowering: &Lowering<'_, '_>,
    always: &VAlways,
) -> Result<FEventList, Memory> {
    let mut events = Items::new(alloc);
    for event in always.events.as_slice() {
        events.push(FEvent {
            edge: event.edge,
            of: lowering.place(&event.name),
        })?;
    }
    Ok(events)
}
