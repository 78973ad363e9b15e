//! Reading modules and their items.

use crate::reader::{DEPTH, Reader};
use sqlite_items::Items;
use std::alloc::Global;
use vv_vlexer::token::{Kind, Sign, Word};
use vv_vlexer::tokens;
use vv_vtree::{
    Module, Modules, VAlways, VCode, VConnection, VConnectionList, VDeclaration, VDeclarationList,
    VDirection, VEdge, VEvent, VEventList, VFault, VFunction, VInstance, VItem, VItemList, VPort,
    VPortList, VStmtList,
};

/// The modules of a text. A bad token is told first, then the first token that does not go on, and then the first expression or
/// statement that nests too deep.
pub fn read(alloc: Global, bytes: &[u8]) -> Result<Modules, VFault> {
    let tokens = tokens(alloc, bytes)?;
    let mut reader = Reader {
        alloc,
        tokens: tokens.as_slice(),
        passed: 0,
        end: bytes.len() as u64,
        too_deep: None,
    };
    let modules = reader.modules()?;
    match reader.too_deep {
        None => Ok(modules),
        Some(at) => Err(VFault::Refused {
            code: VCode::V8,
            at,
        }),
    }
}

impl<'t> Reader<'t> {
    /// Modules up to the end.
    fn modules(&mut self) -> Result<Modules, VFault> {
        let mut modules = Items::new(self.alloc);
        let tokens = self.tokens;
        for _ in tokens {
            if self.is_at_end() {
                break;
            }
            modules.push(self.module()?)?;
        }
        Ok(modules)
    }

    fn is_at_end(&self) -> bool {
        matches!(self.token().kind, Kind::End)
    }

    fn module(&mut self) -> Result<Module, VFault> {
        let at = self.at();
        self.word(Word::Module)?;
        let name = self.name()?;
        let ports = self.ports()?;
        let items = self.items()?;
        Ok(Module {
            name,
            ports,
            items,
            at,
        })
    }

    /// The ports of a module between their parentheses, and the semicolon behind them.
    fn ports(&mut self) -> Result<VPortList, VFault> {
        self.sign(Sign::Open)?;
        if self.takes_sign(Sign::Close) {
            self.sign(Sign::Semicolon)?;
            return Ok(Items::new(self.alloc));
        }
        let ports = self.some_ports()?;
        self.sign(Sign::Close)?;
        self.sign(Sign::Semicolon)?;
        Ok(ports)
    }

    /// Ports with commas between them.
    fn some_ports(&mut self) -> Result<VPortList, VFault> {
        let mut ports = Items::new(self.alloc);
        let tokens = self.tokens;
        for _ in tokens {
            ports.push(self.port()?)?;
            if !self.takes_sign(Sign::Comma) {
                return Ok(ports);
            }
        }
        Err(self.refusal())
    }

    fn port(&mut self) -> Result<VPort, VFault> {
        let at = self.at();
        let direction = match self.token().kind {
            Kind::Word(Word::Input) => VDirection::Input,
            Kind::Word(Word::Output) => VDirection::Output,
            Kind::Word(Word::Inout) => VDirection::Inout,
            _ => return Err(self.refusal()),
        };
        self.pass();
        self.word(Word::Wire)?;
        let range = self.range()?;
        let name = self.name()?;
        Ok(VPort {
            direction,
            range,
            name,
            at,
        })
    }

    /// Items, and the `endmodule` behind them.
    fn items(&mut self) -> Result<VItemList, VFault> {
        let mut items = Items::new(self.alloc);
        let tokens = self.tokens;
        for _ in tokens {
            if self.takes_word(Word::Endmodule) {
                return Ok(items);
            }
            items.push(self.item()?)?;
        }
        Err(self.refusal())
    }

    fn item(&mut self) -> Result<VItem, VFault> {
        match self.token().kind {
            Kind::Word(Word::Wire) => {
                let declaration = self.declaration()?;
                self.sign(Sign::Semicolon)?;
                Ok(VItem::Wire(declaration))
            }
            Kind::Word(Word::Reg) => self.register(),
            Kind::Word(Word::Assign) => self.assign(),
            Kind::Word(Word::Function) => {
                let function = self.function()?;
                Ok(VItem::Function(function))
            }
            Kind::Word(Word::Always) => {
                let always = self.always()?;
                Ok(VItem::Always(always))
            }
            Kind::Name(_) => {
                let instance = self.instance()?;
                Ok(VItem::Instance(instance))
            }
            _ => Err(self.refusal()),
        }
    }

    /// A range and a name, behind a word that stands next.
    fn declaration(&mut self) -> Result<VDeclaration, VFault> {
        let at = self.at();
        self.pass();
        let range = self.range()?;
        let name = self.name()?;
        Ok(VDeclaration { range, name, at })
    }

    fn register(&mut self) -> Result<VItem, VFault> {
        let declaration = self.declaration()?;
        let initial = if self.takes_sign(Sign::Assign) {
            let bits = self.bits()?;
            Some(bits)
        } else {
            None
        };
        self.sign(Sign::Semicolon)?;
        Ok(VItem::Reg {
            declaration,
            initial,
        })
    }

    fn assign(&mut self) -> Result<VItem, VFault> {
        let at = self.at();
        self.pass();
        let target = self.select()?;
        self.sign(Sign::Assign)?;
        let value = self.expr(DEPTH)?;
        self.sign(Sign::Semicolon)?;
        Ok(VItem::Assign { target, value, at })
    }

    fn function(&mut self) -> Result<VFunction, VFault> {
        let VDeclaration { range, name, at } = self.declaration()?;
        let inputs = self.inputs()?;
        let regs = self.declarations(Word::Reg)?;
        let body = self.function_body()?;
        Ok(VFunction {
            range,
            name,
            inputs,
            regs,
            body,
            at,
        })
    }

    /// The inputs of a function, at least one, and the semicolon before them.
    fn inputs(&mut self) -> Result<VDeclarationList, VFault> {
        self.sign(Sign::Semicolon)?;
        if !self.is_word(Word::Input) {
            return Err(self.refusal());
        }
        self.declarations(Word::Input)
    }

    fn function_body(&mut self) -> Result<VStmtList, VFault> {
        self.word(Word::Begin)?;
        let body = self.stmts(DEPTH)?;
        self.word(Word::Endfunction)?;
        Ok(body)
    }

    /// Declarations behind this word, as many as there are.
    fn declarations(&mut self, word: Word) -> Result<VDeclarationList, VFault> {
        let mut declarations = Items::new(self.alloc);
        let tokens = self.tokens;
        for _ in tokens {
            if !self.is_word(word) {
                return Ok(declarations);
            }
            declarations.push(self.declaration()?)?;
            self.sign(Sign::Semicolon)?;
        }
        Err(self.refusal())
    }

    fn always(&mut self) -> Result<VAlways, VFault> {
        let at = self.at();
        self.pass();
        let events = self.control()?;
        let block = self.block(DEPTH)?;
        Ok(VAlways { events, block, at })
    }

    /// The event control of an always construct.
    fn control(&mut self) -> Result<VEventList, VFault> {
        self.sign(Sign::At)?;
        self.sign(Sign::Open)?;
        let events = self.events()?;
        self.sign(Sign::Close)?;
        Ok(events)
    }

    /// Events with `or` between them.
    fn events(&mut self) -> Result<VEventList, VFault> {
        let mut events = Items::new(self.alloc);
        let tokens = self.tokens;
        for _ in tokens {
            events.push(self.event()?)?;
            if !self.takes_word(Word::Or) {
                return Ok(events);
            }
        }
        Err(self.refusal())
    }

    fn event(&mut self) -> Result<VEvent, VFault> {
        let at = self.at();
        let edge = if self.takes_word(Word::Posedge) {
            VEdge::Rising
        } else if self.takes_word(Word::Negedge) {
            VEdge::Falling
        } else {
            VEdge::Any
        };
        let name = self.name()?;
        Ok(VEvent { edge, name, at })
    }

    fn instance(&mut self) -> Result<VInstance, VFault> {
        let module = self.name()?;
        let name = self.name()?;
        let connections = self.connections()?;
        Ok(VInstance {
            module,
            name,
            connections,
        })
    }

    /// The connections of an instance between their parentheses, and the semicolon behind them.
    fn connections(&mut self) -> Result<VConnectionList, VFault> {
        self.sign(Sign::Open)?;
        if self.takes_sign(Sign::Close) {
            self.sign(Sign::Semicolon)?;
            return Ok(Items::new(self.alloc));
        }
        let connections = self.some_connections()?;
        self.sign(Sign::Close)?;
        self.sign(Sign::Semicolon)?;
        Ok(connections)
    }

    /// Connections with commas between them.
    fn some_connections(&mut self) -> Result<VConnectionList, VFault> {
        let mut connections = Items::new(self.alloc);
        let tokens = self.tokens;
        for _ in tokens {
            connections.push(self.connection()?)?;
            if !self.takes_sign(Sign::Comma) {
                return Ok(connections);
            }
        }
        Err(self.refusal())
    }

    fn connection(&mut self) -> Result<VConnection, VFault> {
        let at = self.at();
        self.sign(Sign::Point)?;
        let formal = self.name()?;
        self.sign(Sign::Open)?;
        let actual = if self.is_sign(Sign::Close) {
            None
        } else {
            let select = self.select()?;
            Some(select)
        };
        self.sign(Sign::Close)?;
        Ok(VConnection { formal, actual, at })
    }
}
