//! What the checks ask of the libraries and of the layers below.

use crate::forms::Forms;
use sqlite_items::Items;
use std::alloc::Global;
use vv_base::fault::{Fault, Memory, Refusal, Rule, Span, cannot_come};
use vv_base::names::Names;
use vv_over::{resolve, resolve_choice, resolve_range, stray_attribute};
use vv_rules::{COMPARED, Context, PLAIN, broken, broken_range};
use vv_tree::declaration::{DiscreteRange, Mark};
use vv_tree::expression::{Choice, Expr, Range};
use vv_tree::leaf::Ident;
use vv_typed::{TRange, TypeMark, Typed};
use vv_types::{BaseType, What};
use vv_visible::types::Library;

/// What is known of declarations by their numbers.
#[derive(Clone, Copy)]
pub struct Tables<'l, 'n, 'f, 'a> {
    pub alloc: Global,
    pub lib: &'l Library<'a>,
    pub names: &'n Names,
    pub forms: &'f Forms<'a>,
    /// The declaration of the literal `true`.
    pub truth: u32,
}

/// The fault that a rule is broken at a place.
pub fn fault(rule: Rule, span: Span) -> Fault {
    Fault::Refused(Refusal { rule, span })
}

/// The declaration of the literal `true`.
pub fn truth_of(lib: &Library<'_>) -> Result<u32, Memory> {
    for decl in 0..u32::MAX {
        match lib.declared(decl) {
            Some(declared) => {
                let boolean = matches!(declared.what, What::Literal(BaseType::Bool));
                if boolean && lib.position(decl) == Some(1) {
                    return Ok(decl);
                }
            }
            None => break,
        }
    }
    Err(cannot_come())
}

/// A refusal, if there is one.
fn told(refusal: Option<Refusal>) -> Result<(), Fault> {
    match refusal {
        Some(refusal) => Err(Fault::Refused(refusal)),
        None => Ok(()),
    }
}

impl<'l, 'n, 'f, 'a> Tables<'l, 'n, 'f, 'a> {
    /// The scope of a place.
    fn scope(&self, span: Span) -> u32 {
        self.lib.scope_at(span.file, span.at)
    }

    /// An expression with its type, once it breaks no rule.
    pub fn typed(
        &self,
        e: Expr<'_>,
        at: Span,
        wanted: Option<BaseType>,
        context: Context,
    ) -> Result<Typed, Fault> {
        let typed = self.named(e, at, wanted)?;
        told(broken(&typed, self.lib, context))?;
        Ok(typed)
    }

    /// An expression with its type, whatever other rules it breaks.
    pub fn named(&self, e: Expr<'_>, at: Span, wanted: Option<BaseType>) -> Result<Typed, Fault> {
        match resolve(self.alloc, self.lib, self.names, self.scope(at), &e, wanted) {
            Err(Fault::Refused(refusal)) => self.refused(&Range::Value(e), at, refusal),
            answer => answer,
        }
    }

    /// An attribute that a prefix lacks is told before the rule that the expression then breaks too.
    fn refused<T>(&self, range: &Range<'_>, at: Span, refusal: Refusal) -> Result<T, Fault> {
        let stray = stray_attribute(self.alloc, self.lib, self.names, self.scope(at), range)?;
        Err(match stray {
            Some(span) => fault(Rule::T9, span),
            None => Fault::Refused(refusal),
        })
    }

    /// A range with the type of its values.
    pub fn range(
        &self,
        range: &Range<'_>,
        at: Span,
        wanted: Option<BaseType>,
    ) -> Result<(TRange, BaseType), Fault> {
        let scope = self.scope(at);
        let (typed, base) = match resolve_range(
            self.alloc, self.lib, self.names, scope, range, wanted,
        ) {
            Err(Fault::Refused(refusal)) => return self.refused(range, at, refusal),
            answer => answer?,
        };
        told(broken_range(&typed, self.lib, PLAIN))?;
        Ok((typed, base))
    }

    /// A choice among values of a type.
    pub fn choice(&self, choice: &Choice<'_>, at: Span, wanted: BaseType) -> Result<TRange, Fault> {
        let typed = resolve_choice(
            self.alloc,
            self.lib,
            self.names,
            self.scope(at),
            choice,
            wanted,
        )?;
        told(broken_range(&typed, self.lib, COMPARED))?;
        Ok(typed)
    }

    /// A discrete range with the type of its values, which is not `std_ulogic`.
    pub fn discrete(
        &self,
        range: &DiscreteRange<'_>,
        at: Span,
        wanted: Option<BaseType>,
    ) -> Result<(TRange, BaseType), Fault> {
        let (typed, base) = self.range_of(range, at, wanted)?;
        match base {
            BaseType::Logic => Err(fault(Rule::T9, at)),
            _ => Ok((typed, base)),
        }
    }

    /// A discrete range with the type of its values.
    pub fn range_of(
        &self,
        range: &DiscreteRange<'_>,
        at: Span,
        wanted: Option<BaseType>,
    ) -> Result<(TRange, BaseType), Fault> {
        let (typed, base) = match range {
            DiscreteRange::Range(range) => self.range(range, at, wanted)?,
            DiscreteRange::Marked { mark, range, span } => {
                let (mark, base) = self.mark(*mark)?;
                if wanted.is_some() && wanted != Some(base) {
                    return Err(fault(Rule::T1, *span));
                }
                let (range, _) = self.range(range, *span, Some(base))?;
                let range = sqlite_items::Boxed::new(self.alloc, range)?;
                (TRange::Within { mark, range }, base)
            }
        };
        match base {
            BaseType::Array(_) => Err(fault(Rule::T1, at)),
            BaseType::Logic | BaseType::Bool | BaseType::Int | BaseType::Enum(_) => {
                Ok((typed, base))
            }
        }
    }

    /// What a mark denotes.
    pub fn denoted(&self, mark: Mark<'_>) -> &'l [u32] {
        let scope = self.scope(mark.span);
        match mark.others {
            [] => self.lib.denotes(scope, mark.first.name),
            [name] => self.lib.selected(scope, &[mark.first.name], name.name),
            [package, name] => {
                self.lib
                    .selected(scope, &[mark.first.name, package.name], name.name)
            }
            _ => &[],
        }
    }

    /// A type by its mark.
    pub fn mark(&self, mark: Mark<'_>) -> Result<(TypeMark, BaseType), Fault> {
        for decl in self.denoted(mark) {
            if let Some(declared) = self.lib.declared(*decl) {
                if let What::Mark(base) = declared.what {
                    return Ok((TypeMark { decl: *decl }, base));
                }
            }
        }
        Err(fault(Rule::N6, mark.span))
    }

    /// The declaration of an identifier.
    pub fn ident(&self, ident: Ident) -> Result<vv_typed::Ident, Fault> {
        match self.lib.declaration_at(ident.span.file, ident.span.at) {
            Some(decl) => Ok(vv_typed::Ident {
                decl,
                name: ident.name,
                span: ident.span,
            }),
            None => Err(fault(Rule::N1, ident.span)),
        }
    }

    /// The declarations of identifiers.
    pub fn idents(&self, idents: &[Ident]) -> Result<vv_typed::IdentList, Fault> {
        let mut list = Items::new(self.alloc);
        for ident in idents {
            list.push(self.ident(*ident)?)?;
        }
        Ok(list)
    }
}
