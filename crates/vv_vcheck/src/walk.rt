//! The walk over the text that finds the places of broken rules.

use std::alloc::Global;
use vv_base::fault::Memory;
use vv_vscope::faults::Faults;
use vv_vscope::graph::{Edge, leading_back};
use vv_vscope::loads::instances;
use vv_vscope::scope::{Design, Found, Kind, ModuleScope, Scope, number_of};
use vv_vtree::{VAlways, VDirection, VExpr, VItem, VSelect, VSign};

/// What was found so far. `uses` has how each object of the module was assigned so far, and `always` is the number of the always
/// construct. `calls` are those of functions in functions.
#[derive(Drop)]
pub struct Checker<'s, 't> {
    pub alloc: Global,
    pub design: &'s Design<'t>,
    pub faults: Faults,
    pub uses: Vec<Option<Use>>,
    pub always: u32,
    pub calls: Vec<Edge>,
}

/// By which always construct and by which sign a reg was assigned first.
#[derive(Clone, Copy, Debug, PartialEq, Eq)]
pub struct Use {
    pub always: u32,
    pub sign: VSign,
}

/// Looks at all modules, where some places were noted already.
pub fn check(alloc: Global, design: &Design<'_>, faults: Faults) -> Result<Faults, Memory> {
    let mut checker = Checker {
        alloc,
        design,
        faults,
        uses: Vec::new(alloc),
        always: 0,
        calls: Vec::new(alloc),
    };
    let mut functions = 0;
    for module in &design.modules {
        checker.module(module)?;
        functions = number_of(module.functions.len()).saturating_add(functions);
    }
    if let Some(at) = leading_back(alloc, functions, checker.calls.as_slice())? {
        checker.faults.name(at);
    }
    let modules = number_of(design.modules.len());
    let instances = instances(alloc, design)?;
    if let Some(at) = leading_back(alloc, modules, instances.as_slice())? {
        checker.faults.name(at);
    }
    Ok(checker.faults)
}

impl<'s, 't> Checker<'s, 't> {
    fn module(&mut self, module: &'s ModuleScope<'t>) -> Result<(), Memory> {
        self.forget_uses(module.objects.len())?;
        for function in &module.functions {
            let within = Scope {
                module,
                function: Some(function),
            };
            self.stmts(within, function.function.body.as_slice())?;
        }
        let scope = Scope {
            module,
            function: None,
        };
        for item in module.module.items.as_slice() {
            match item {
                VItem::Assign {
                    target,
                    value,
                    at: _,
                } => self.assign(scope, target, value)?,
                VItem::Always(always) => self.always(scope, always)?,
                VItem::Instance(instance) => self.instance(scope, instance)?,
                VItem::Wire(_) | VItem::Reg { .. } | VItem::Function(_) => {}
            }
        }
        Ok(())
    }

    /// Begins with objects that nothing assigns.
    fn forget_uses(&mut self, count: usize) -> Result<(), Memory> {
        self.uses.clear();
        for _ in 0..count {
            self.uses.push(None)?;
        }
        Ok(())
    }

    fn assign(
        &mut self,
        scope: Scope<'s, 't>,
        target: &VSelect,
        value: &VExpr,
    ) -> Result<(), Memory> {
        let found = scope.object(target.name.text.as_slice());
        self.driven(found, target.name.at);
        let wanted = self.select_size(target, found.map(|found| found.width()));
        let size = self.size(scope, value)?;
        self.fits(size, wanted, value.at());
        Ok(())
    }

    /// Looks at an object of a module that is driven from here, other than by an always construct: a wire that is no input.
    pub fn driven(&mut self, found: Option<Found>, at: u64) {
        match found {
            None => self.faults.name(at),
            Some(
                Found::Shared {
                    kind: Kind::Reg | Kind::Port(VDirection::Input),
                    ..
                },
            ) => self.faults.driver(at),
            Some(_) => {}
        }
    }

    fn always(&mut self, scope: Scope<'s, 't>, always: &VAlways) -> Result<(), Memory> {
        self.always = self.always.saturating_add(1);
        for event in always.events.as_slice() {
            if scope.object(event.name.text.as_slice()).is_none() {
                self.faults.name(event.name.at);
            }
        }
        self.stmts(scope, always.block.stmts.as_slice())
    }

    /// Notes a call of a function in a function, by their numbers.
    pub fn note_call(&mut self, caller: u32, called: u32, at: u64) -> Result<(), Memory> {
        self.calls.push(Edge {
            from: caller,
            to: called,
            at,
        })?;
        Ok(())
    }
}
