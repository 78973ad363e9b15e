//! What is made of the units, and the least place at which a rule of names is broken.

use std::alloc::Global;
use vv_base::fault::{Memory, Rule, Span};
use vv_base::text::Text;
use vv_names::least::Least;
use vv_names::paths::of_mark;
use vv_names::spans::end;
use vv_tree::declaration::Mark;
use vv_tree::leaf::Ident;
use vv_types::{BaseList, BaseType, Op, What};
use vv_visible::declared::{Declared, Entity, FormalList, Sort};
use vv_visible::symbols::Symbols;
use vv_visible::table::Table;
use vv_visible::texts::operator_text;
use vv_visible::types::{Found, Path, find};

/// What is made so far.
#[derive(Drop)]
pub struct Builder {
    pub table: Table,
    pub symbols: Symbols,
    pub least: Least,
}

impl Builder {
    pub fn alloc(&self) -> Global {
        self.table.alloc()
    }

    /// What a name denotes now in a region.
    pub fn found(&self, region: u32, path: Path) -> Found<'_> {
        let seen = self.table.denoted_now(region, path.first.0);
        find(&self.table, &self.symbols, seen, path)
    }

    /// The base type of a mark, if it is one of a type, and whether that is scalar or has bounds.
    pub fn marked(&self, region: u32, mark: Mark<'_>) -> Option<(BaseType, bool)> {
        let Found::Several(list) = self.found(region, of_mark(mark)) else {
            return None;
        };
        let entity = self.table.entity(*list.first()?)?;
        match entity.declared.what {
            What::Mark(base) => Some((base, entity.bounded)),
            _ => None,
        }
    }

    /// The base type of a mark. One that is not of a type breaks a rule, and integer stands for it.
    pub fn base(&self, region: u32, mark: Mark<'_>) -> BaseType {
        match self.marked(region, mark) {
            Some((base, _)) => base,
            None => BaseType::Int,
        }
    }

    /// From the end of a place on there is a scope of the region.
    pub fn begin_behind(&mut self, span: Span, region: u32) -> Result<(), Memory> {
        self.table.begin(span.file, end(span), region)
    }

    /// From the start of a place on there is a scope of the region.
    pub fn begin_at(&mut self, span: Span, region: u32) -> Result<(), Memory> {
        self.table.begin(span.file, span.at, region)
    }

    /// Declares an identifier from now on.
    pub fn named(
        &mut self,
        region: u32,
        ident: Ident,
        what: What,
        sort: Sort,
    ) -> Result<u32, Memory> {
        let formals = FormalList::new(self.alloc());
        self.declare(entity(region, ident, what, sort, formals))
    }

    /// Declares a type or a subtype from now on. `bounded` is whether it is scalar or has bounds.
    pub fn named_type(
        &mut self,
        region: u32,
        ident: Ident,
        base: BaseType,
        bounded: bool,
    ) -> Result<(), Memory> {
        let formals = FormalList::new(self.alloc());
        let mut made = entity(region, ident, What::Mark(base), Sort::Plain, formals);
        made.bounded = bounded;
        self.declare(made)?;
        Ok(())
    }

    /// Declares the literal of a type at a position.
    pub fn literal(
        &mut self,
        region: u32,
        ident: Ident,
        base: BaseType,
        position: u32,
    ) -> Result<(), Memory> {
        let formals = FormalList::new(self.alloc());
        let mut made = entity(region, ident, What::Literal(base), Sort::Plain, formals);
        made.position = position;
        self.declare(made)?;
        Ok(())
    }

    /// Declares something of the sources from now on. Where the region has a homograph, the rule on it is broken.
    pub fn declare(&mut self, entity: Entity) -> Result<u32, Memory> {
        let span = entity.declared.span;
        let decl = self.table.add(entity)?;
        self.table.place(span, decl)?;
        if self.table.declare(decl)? {
            self.least.note(Rule::N2, span);
        }
        Ok(decl)
    }

    /// Declares an operator that comes with a type.
    pub fn predefined(
        &mut self,
        region: u32,
        span: Span,
        op: Op,
        params: &[BaseType],
        gives: BaseType,
    ) -> Result<(), Memory> {
        let alloc = self.alloc();
        let symbol = self.symbols.of_operator(op);
        let declared = Declared {
            name: self.symbols.name(symbol),
            built: Some(Text::from_slice(alloc, operator_text(op).as_bytes())?),
            span,
            what: What::Function {
                params: BaseList::from_slice(alloc, params)?,
                result: gives,
            },
        };
        let formals = self.table.nameless(params)?;
        let decl = self.table.add(Entity {
            symbol,
            region,
            sort: Sort::Predefined,
            formals,
            declared,
            position: 0,
            bounded: false,
        })?;
        self.table.declare(decl)?;
        Ok(())
    }
}

/// A declaration of the sources.
pub fn entity(region: u32, ident: Ident, what: What, sort: Sort, formals: FormalList) -> Entity {
    Entity {
        symbol: ident.name.0,
        region,
        sort,
        formals,
        declared: Declared {
            name: Some(ident.name),
            built: None,
            span: ident.span,
            what,
        },
        position: 0,
        bounded: false,
    }
}
