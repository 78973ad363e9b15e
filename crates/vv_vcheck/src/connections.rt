//! Instances and their connections.

use crate::walk::Checker;
use std::collections::HashSet;
use vv_base::fault::Memory;
use vv_vscope::scope::{ModuleScope, Object, Scope};
use vv_vtree::{VConnection, VDirection, VInstance, VSelect};

impl<'s, 't> Checker<'s, 't> {
    /// Looks at an instance.
    pub fn instance(&mut self, scope: Scope<'s, 't>, instance: &VInstance) -> Result<(), Memory> {
        let design = self.design;
        let name = &instance.module;
        let inner = design.module(name.text.as_slice());
        if inner.is_none() {
            self.faults.name(name.at);
        }
        let mut formals = HashSet::with_hasher(self.alloc, design.state);
        for connection in instance.connections.as_slice() {
            if !formals.insert(connection.formal.text.as_slice())? {
                self.faults.name(connection.formal.at);
            }
            self.connection(scope, inner, connection);
        }
        Ok(())
    }

    /// Looks at a connection with a port of the module, where there is one.
    fn connection(
        &mut self,
        scope: Scope<'s, 't>,
        inner: Option<&ModuleScope<'t>>,
        connection: &VConnection,
    ) {
        let port = match inner {
            Some(inner) => {
                let port = inner.port(connection.formal.text.as_slice());
                if port.is_none() {
                    self.faults.name(connection.formal.at);
                }
                port
            }
            None => None,
        };
        if let Some(actual) = &connection.actual {
            self.actual(scope, port, actual);
        }
    }

    /// Looks at what is connected with a port. What a port drives is driven from here.
    fn actual(
        &mut self,
        scope: Scope<'s, 't>,
        port: Option<(Object<'t>, VDirection)>,
        actual: &VSelect,
    ) {
        let at = actual.name.at;
        let found = scope.object(actual.name.text.as_slice());
        if found.is_none() {
            self.faults.name(at);
        }
        let size = self.select_size(actual, found.map(|found| found.width()));
        if let Some((object, direction)) = port {
            self.fits(size, Some(object.width), at);
            if direction != VDirection::Input {
                self.driven(found, at);
            }
        }
    }
}
