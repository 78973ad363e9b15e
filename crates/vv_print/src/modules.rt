//! Printing modules and their items.

use crate::printer::Printer;
use std::alloc::Global;
use vv_base::fault::Memory;
use vv_base::text::ByteList;
use vv_vtree::{
    Module, Modules, VAlways, VConnection, VDeclaration, VFunction, VInstance, VItem, VPort,
};

/// The text of the modules.
pub fn print(alloc: Global, m: &Modules) -> Result<ByteList, Memory> {
    let mut printer = Printer::new(alloc);
    for module in m.as_slice() {
        printer.module(module)?;
    }
    Ok(printer.into_text())
}

impl Printer {
    fn module(&mut self, module: &Module) -> Result<(), Memory> {
        self.put("module ")?;
        self.name(&module.name)?;
        self.put("(")?;
        self.ports(module.ports.as_slice())?;
        self.put(");\n")?;
        for item in module.items.as_slice() {
            self.indent(1)?;
            self.item(item)?;
        }
        self.put("endmodule\n")
    }

    /// Prints the ports, each on a line.
    fn ports(&mut self, ports: &[VPort]) -> Result<(), Memory> {
        for (index, port) in ports.iter().enumerate() {
            self.put(if index == 0 { "\n" } else { ",\n" })?;
            self.indent(1)?;
            self.port(port)?;
        }
        if ports.is_empty() {
            Ok(())
        } else {
            self.put("\n")
        }
    }

    fn port(&mut self, port: &VPort) -> Result<(), Memory> {
        self.put(port.direction.text())?;
        self.put(" wire ")?;
        self.range(port.range)?;
        self.name(&port.name)
    }

    /// Prints an item, whose first line is indented.
    fn item(&mut self, item: &VItem) -> Result<(), Memory> {
        match item {
            VItem::Wire(declaration) => {
                self.declaration("wire ", declaration)?;
                self.put(";\n")
            }
            VItem::Reg {
                declaration,
                initial,
            } => {
                self.declaration("reg ", declaration)?;
                if let Some(initial) = initial {
                    self.put(" = ")?;
                    self.bits(&initial.bits)?;
                }
                self.put(";\n")
            }
            VItem::Assign {
                target,
                value,
                at: _,
            } => {
                self.put("assign ")?;
                self.select(target)?;
                self.put(" = ")?;
                self.expr(value)?;
                self.put(";\n")
            }
            VItem::Function(function) => self.function(function),
            VItem::Always(always) => self.always(always),
            VItem::Instance(instance) => self.instance(instance),
        }
    }

    /// Prints a word, and the range and the name of a declaration.
    fn declaration(&mut self, word: &str, declaration: &VDeclaration) -> Result<(), Memory> {
        self.put(word)?;
        self.range(declaration.range)?;
        self.name(&declaration.name)
    }

    /// Prints declarations, each on a line.
    fn declarations(&mut self, word: &str, declarations: &[VDeclaration]) -> Result<(), Memory> {
        for declaration in declarations {
            self.indent(2)?;
            self.declaration(word, declaration)?;
            self.put(";\n")?;
        }
        Ok(())
    }

    fn function(&mut self, function: &VFunction) -> Result<(), Memory> {
        self.put("function ")?;
        self.range(function.range)?;
        self.name(&function.name)?;
        self.put(";\n")?;
        self.declarations("input ", function.inputs.as_slice())?;
        self.declarations("reg ", function.regs.as_slice())?;
        self.indent(2)?;
        self.put("begin\n")?;
        self.stmts(function.body.as_slice(), 3)?;
        self.indent(2)?;
        self.put("end\n")?;
        self.indent(1)?;
        self.put("endfunction\n")
    }

    fn always(&mut self, always: &VAlways) -> Result<(), Memory> {
        self.put("always @(")?;
        for (index, event) in always.events.as_slice().iter().enumerate() {
            if index > 0 {
                self.put(" or ")?;
            }
            self.put(event.edge.text())?;
            self.name(&event.name)?;
        }
        self.put(") ")?;
        self.block(&always.block, 1)?;
        self.put("\n")
    }

    fn instance(&mut self, instance: &VInstance) -> Result<(), Memory> {
        self.name(&instance.module)?;
        self.put(" ")?;
        self.name(&instance.name)?;
        self.put("(")?;
        for (index, connection) in instance.connections.as_slice().iter().enumerate() {
            self.comma(index)?;
            self.connection(connection)?;
        }
        self.put(");\n")
    }

    fn connection(&mut self, connection: &VConnection) -> Result<(), Memory> {
        self.put(".")?;
        self.name(&connection.formal)?;
        self.put("(")?;
        if let Some(actual) = &connection.actual {
            self.select(actual)?;
        }
        self.put(")")
    }
}
