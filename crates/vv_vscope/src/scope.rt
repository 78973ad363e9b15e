//! What the names of modules and functions mean.

use crate::faults::Faults;
use std::alloc::{AllocError, Global};
use std::collections::HashMap;
use vv_bits::Bits4;
use vv_hash::{Seed, SeededState};
use vv_vtree::{
    Module, VBits, VDeclaration, VDirection, VFunction, VItem, VName, VRange, width_of,
};

/// Numbers by names.
pub type Table<'t, T> = HashMap<&'t [u8], T, SeededState>;

/// The modules of a text, in order, and the number of the first one of each name.
#[derive(Drop)]
pub struct Design<'t> {
    pub modules: Vec<ModuleScope<'t>>,
    pub numbers: Table<'t, u32>,
    pub state: SeededState,
}

/// A module. `names` has what each name means, and `objects` its ports, wires and regs in the order of the text.
#[derive(Drop)]
pub struct ModuleScope<'t> {
    pub module: &'t Module,
    pub names: Table<'t, Meaning>,
    pub objects: Vec<Object<'t>>,
    pub functions: Vec<FunctionScope<'t>>,
}

/// What a name of a module means: an object or a function of the module by its number, or an instance.
#[derive(Clone, Copy, Debug, PartialEq, Eq)]
pub enum Meaning {
    Object(u32),
    Function(u32),
    Instance,
}

/// An object of a module.
#[derive(Clone, Copy)]
pub struct Object<'t> {
    pub kind: Kind,
    pub width: u64,
    pub initial: Option<&'t Bits4>,
}

/// The kinds of objects.
#[derive(Clone, Copy, Debug, PartialEq, Eq)]
pub enum Kind {
    Port(VDirection),
    Wire,
    Reg,
}

/// A function. `number` is its number among those of all modules. `own` has its result, its inputs and its regs in this order.
#[derive(Drop)]
pub struct FunctionScope<'t> {
    pub function: &'t VFunction,
    pub number: u32,
    pub names: Table<'t, u32>,
    pub own: Vec<Own>,
}

/// An object of a function.
#[derive(Clone, Copy, Debug, PartialEq, Eq)]
pub struct Own {
    pub input: bool,
    pub width: u64,
}

/// Where an expression stands: in a module, and there maybe in a function.
#[derive(Clone, Copy)]
pub struct Scope<'s, 't> {
    pub module: &'s ModuleScope<'t>,
    pub function: Option<&'s FunctionScope<'t>>,
}

impl<'t> Design<'t> {
    /// The module of this name.
    pub fn module(&self, name: &[u8]) -> Option<&ModuleScope<'t>> {
        let number = self.numbers.get(name)?;
        self.modules.get(*number as usize)
    }

    /// The scopes of the modules. Repeated names are noted, and mean what the first ones do.
    pub fn new(
        alloc: Global,
        modules: &'t [Module],
        faults: &mut Faults,
    ) -> Result<Design<'t>, AllocError> {
        let state = seed_of(modules).state();
        let mut scopes = Vec::new(alloc);
        let mut numbers = HashMap::with_hasher(alloc, state);
        let mut functions = 0;
        for (number, module) in modules.iter().enumerate() {
            declare(&mut numbers, &module.name, number_of(number), faults)?;
            let scope = ModuleScope::new(alloc, module, state, functions, faults)?;
            functions = functions.saturating_add(number_of(scope.functions.len()));
            scopes.push(scope)?;
        }
        Ok(Design {
            modules: scopes,
            numbers,
            state,
        })
    }
}

/// How many bits a vector may have.
const VECTOR: u64 = 65536;

/// A position as a number. No text is so long that it has more positions than there are numbers.
pub fn number_of(position: usize) -> u32 {
    match u32::try_from(position) {
        Ok(number) => number,
        Err(_) => u32::MAX,
    }
}

/// The seed of the hashes of all declared names.
fn seed_of(modules: &[Module]) -> Seed {
    let mut seed = Seed::new();
    for module in modules {
        add_names(&mut seed, module);
    }
    seed
}

fn add_names(seed: &mut Seed, module: &Module) {
    seed.add(module.name.text.as_slice());
    for port in module.ports.as_slice() {
        seed.add(port.name.text.as_slice());
    }
    for item in module.items.as_slice() {
        if let Some(name) = declared_by(item) {
            seed.add(name.text.as_slice());
        }
    }
}

/// The name that an item declares.
fn declared_by(item: &VItem) -> Option<&VName> {
    match item {
        VItem::Wire(declaration)
        | VItem::Reg {
            declaration,
            initial: _,
        } => Some(&declaration.name),
        VItem::Function(function) => Some(&function.name),
        VItem::Instance(instance) => Some(&instance.name),
        VItem::Assign { .. } | VItem::Always(_) => None,
    }
}

/// Adds a name with its meaning. A repeated one is noted instead.
fn declare<'t, T: Copy>(
    table: &mut Table<'t, T>,
    name: &'t VName,
    meaning: T,
    faults: &mut Faults,
) -> Result<(), AllocError> {
    if table.contains_key(name.text.as_slice()) {
        faults.name(name.at);
    } else {
        table.insert(name.text.as_slice(), meaning)?;
    }
    Ok(())
}

/// The width of an object with this range. One that is too wide is noted.
fn declared_width(range: Option<VRange>, name: &VName, faults: &mut Faults) -> u64 {
    let width = width_of(range);
    if width > VECTOR {
        faults.limit(name.at);
    }
    width
}

impl<'t> ModuleScope<'t> {
    /// The scope of a module, whose functions are numbered on from `first`.
    fn new(
        alloc: Global,
        module: &'t Module,
        state: SeededState,
        first: u32,
        faults: &mut Faults,
    ) -> Result<ModuleScope<'t>, AllocError> {
        let mut scope = ModuleScope {
            module,
            names: HashMap::with_hasher(alloc, state),
            objects: Vec::new(alloc),
            functions: Vec::new(alloc),
        };
        scope.declare_ports(faults)?;
        for item in module.items.as_slice() {
            scope.declare_item(alloc, item, state, first, faults)?;
        }
        Ok(scope)
    }

    fn declare_ports(&mut self, faults: &mut Faults) -> Result<(), AllocError> {
        let module = self.module;
        for port in module.ports.as_slice() {
            self.object(
                Kind::Port(port.direction),
                port.range,
                &port.name,
                None,
                faults,
            )?;
        }
        Ok(())
    }

    /// Adds what an item declares.
    fn declare_item(
        &mut self,
        alloc: Global,
        item: &'t VItem,
        state: SeededState,
        first: u32,
        faults: &mut Faults,
    ) -> Result<(), AllocError> {
        match item {
            VItem::Wire(wire) => self.object(Kind::Wire, wire.range, &wire.name, None, faults),
            VItem::Reg {
                declaration,
                initial,
            } => self.object(
                Kind::Reg,
                declaration.range,
                &declaration.name,
                initial.as_ref(),
                faults,
            ),
            VItem::Function(function) => {
                self.declare_function(alloc, function, state, first, faults)
            }
            VItem::Instance(instance) => {
                declare(&mut self.names, &instance.name, Meaning::Instance, faults)
            }
            VItem::Assign { .. } | VItem::Always(_) => Ok(()),
        }
    }

    fn declare_function(
        &mut self,
        alloc: Global,
        function: &'t VFunction,
        state: SeededState,
        first: u32,
        faults: &mut Faults,
    ) -> Result<(), AllocError> {
        let number = number_of(self.functions.len());
        declare(
            &mut self.names,
            &function.name,
            Meaning::Function(number),
            faults,
        )?;
        let scope = FunctionScope::new(
            alloc,
            function,
            state,
            first.saturating_add(number),
            faults,
        )?;
        self.functions.push(scope)?;
        Ok(())
    }

    /// Adds an object. Initial bits of another size are noted.
    fn object(
        &mut self,
        kind: Kind,
        range: Option<VRange>,
        name: &'t VName,
        initial: Option<&'t VBits>,
        faults: &mut Faults,
    ) -> Result<(), AllocError> {
        let number = number_of(self.objects.len());
        let width = declared_width(range, name, faults);
        let initial = match initial {
            Some(bits) => {
                if bits.bits.len() as u64 != width {
                    faults.size(bits.at);
                }
                Some(&bits.bits)
            }
            None => None,
        };
        self.objects.push(Object {
            kind,
            width,
            initial,
        })?;
        declare(&mut self.names, name, Meaning::Object(number), faults)
    }

    /// What a name of the module means.
    pub fn meaning(&self, name: &[u8]) -> Option<Meaning> {
        self.names.get(name).copied()
    }

    /// The port of this name, with its direction.
    pub fn port(&self, name: &[u8]) -> Option<(Object<'t>, VDirection)> {
        let Meaning::Object(number) = self.meaning(name)? else {
            return None;
        };
        let object = self.objects.get(number as usize)?;
        match object.kind {
            Kind::Port(direction) => Some((*object, direction)),
            Kind::Wire | Kind::Reg => None,
        }
    }

    /// The function of this name.
    pub fn function(&self, name: &[u8]) -> Option<&FunctionScope<'t>> {
        match self.meaning(name)? {
            Meaning::Function(number) => self.functions.get(number as usize),
            Meaning::Object(_) | Meaning::Instance => None,
        }
    }
}

impl<'t> FunctionScope<'t> {
    fn new(
        alloc: Global,
        function: &'t VFunction,
        state: SeededState,
        number: u32,
        faults: &mut Faults,
    ) -> Result<FunctionScope<'t>, AllocError> {
        let mut scope = FunctionScope {
            function,
            number,
            names: HashMap::with_hasher(alloc, state),
            own: Vec::new(alloc),
        };
        scope.object(false, function.range, &function.name, faults)?;
        scope.objects(true, function.inputs.as_slice(), faults)?;
        scope.objects(false, function.regs.as_slice(), faults)?;
        Ok(scope)
    }

    fn objects(
        &mut self,
        input: bool,
        declarations: &'t [VDeclaration],
        faults: &mut Faults,
    ) -> Result<(), AllocError> {
        for declaration in declarations {
            self.object(input, declaration.range, &declaration.name, faults)?;
        }
        Ok(())
    }

    /// Adds an object of the function.
    fn object(
        &mut self,
        input: bool,
        range: Option<VRange>,
        name: &'t VName,
        faults: &mut Faults,
    ) -> Result<(), AllocError> {
        let number = number_of(self.own.len());
        let width = declared_width(range, name, faults);
        self.own.push(Own { input, width })?;
        declare(&mut self.names, name, number, faults)
    }

    /// The number of the function's object of this name.
    pub fn number(&self, name: &[u8]) -> Option<u32> {
        self.names.get(name).copied()
    }
}

/// What a name stands for where it is used.
#[derive(Clone, Copy, Debug, PartialEq, Eq)]
pub enum Found {
    /// An object of the function.
    Own(Own),
    /// An object of the module.
    Shared { number: u32, kind: Kind, width: u64 },
}

impl Found {
    pub fn width(self) -> u64 {
        match self {
            Found::Own(own) => own.width,
            Found::Shared { width, .. } => width,
        }
    }
}

impl<'s, 't> Scope<'s, 't> {
    /// The object of this name: one of the function, or else one of the module.
    pub fn object(&self, name: &[u8]) -> Option<Found> {
        if let Some(own) = self.own(name) {
            return Some(Found::Own(own));
        }
        let Meaning::Object(number) = self.module.meaning(name)? else {
            return None;
        };
        let object = self.module.objects.get(number as usize)?;
        Some(Found::Shared {
            number,
            kind: object.kind,
            width: object.width,
        })
    }

    /// The number of the object of this name, within a function among its own objects.
    pub fn number(&self, name: &[u8]) -> u32 {
        let number = match self.function {
            Some(function) => function.number(name),
            None => match self.module.meaning(name) {
                Some(Meaning::Object(number)) => Some(number),
                _ => None,
            },
        };
        number.unwrap_or(u32::MAX)
    }

    /// The object of the function with this name.
    fn own(&self, name: &[u8]) -> Option<Own> {
        let function = self.function?;
        let number = function.number(name)?;
        function.own.get(number as usize).copied()
    }

    /// The function of this name. The names of a function's objects hide those of functions, but for its own name.
    pub fn function(&self, name: &[u8]) -> Option<&'s FunctionScope<'t>> {
        if let Some(function) = self.function
            && let Some(number) = function.number(name)
            && number > 0
        {
            return None;
        }
        self.module.function(name)
    }
}
