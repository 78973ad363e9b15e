//! Declarations.

ghost use Rattle.std.specs.Prelude.{◌≡◌, IfOk};
ghost use Rattle.vv_nodes.specs.Nodes.{node_tree};
ghost use Rattle.vv_tree.specs.View as v;

use bumpalo::Bump;
use bumpalo::collections::into_bump_slice;
use std::alloc::Global;
use vv_base::fault::Memory;
use vv_grammar::form::Form;
use vv_leaves::leaf::{designators, ident, idents, keyword, optional_designator, optional_ident};
use vv_nodes::node::Node;
use vv_pexpr::expression::{expr, optional_expr};
use vv_pseq::statement::statements;
use vv_psubtype::interface::{interfaces, specification, use_clause};
use vv_psubtype::subtype::{discrete_range, mark, subtype};
use vv_tree::declaration::{ArrayIndex, Decl, DeclKind, TypeDefinition};

/// The index of an array type.
fn array_index<'a>(arena: &'a Bump<Global>, node: Node<'_>) -> Result<ArrayIndex<'a>, Memory>
    ensures { IfOk result (λ index. v.index_tree index ≡ node_tree node.entry) }
{
    if let Some(Form::Unbounded) = node.form() {
        let (name, span) = node.one(Form::Unbounded)?;
        return Ok(ArrayIndex::Unbounded(mark(arena, name)?, span));
    }
    Ok(ArrayIndex::Bounded(discrete_range(arena, node)?))
}

/// The definition of a type.
fn definition<'a>(arena: &'a Bump<Global>, node: Node<'_>) -> Result<TypeDefinition<'a>, Memory>
    ensures { IfOk result (λ definition. v.definition_tree definition ≡ node_tree node.entry) }
{
    match node.form() {
        Some(Form::Enumeration) => {
            let (literals, span) = node.one(Form::Enumeration)?;
            Ok(TypeDefinition::Enumeration {
                literals: designators(arena, literals)?,
                span,
            })
        }
        _ => {
            let (index, element, span) = node.two(Form::Array)?;
            Ok(TypeDefinition::Array {
                index: array_index(arena, index)?,
                element: subtype(arena, element)?,
                span,
            })
        }
    }
}

/// The declaration of a type or a subtype.
#[tactic(auto, using(vv_tree::proofs::Declarations::type_is, vv_tree::proofs::Declarations::subtype_is))]
fn type_declaration<'a>(arena: &'a Bump<Global>, node: Node<'_>) -> Result<DeclKind<'a>, Memory>
    ensures { IfOk result (λ kind. v.decl_kind_tree kind ≡ node_tree node.entry) }
{
    match node.form() {
        Some(Form::Type) => {
            let (identifier, inner, span) = node.two(Form::Type)?;
            Ok(DeclKind::Type {
                identifier: ident(identifier)?,
                definition: definition(arena, inner)?,
                span,
            })
        }
        _ => {
            let (identifier, narrowed, span) = node.two(Form::SubtypeDeclaration)?;
            Ok(DeclKind::Subtype {
                identifier: ident(identifier)?,
                subtype: subtype(arena, narrowed)?,
                span,
            })
        }
    }
}

/// The declaration of constants, signals or variables.
#[tactic(auto, using(vv_tree::proofs::Declarations::constant_is, vv_tree::proofs::Declarations::signal_is, vv_tree::proofs::Declarations::variable_is))]
fn objects<'a>(arena: &'a Bump<Global>, node: Node<'_>) -> Result<DeclKind<'a>, Memory>
    ensures { IfOk result (λ kind. v.decl_kind_tree kind ≡ node_tree node.entry) }
{
    match node.form() {
        Some(Form::Constant) => {
            let (names, narrowed, initial, span) = node.three(Form::Constant)?;
            Ok(DeclKind::Constant {
                identifiers: idents(arena, names)?,
                subtype: subtype(arena, narrowed)?,
                value: optional_expr(arena, initial)?,
                span,
            })
        }
        Some(Form::Signal) => {
            let (names, narrowed, initial, span) = node.three(Form::Signal)?;
            Ok(DeclKind::Signal {
                identifiers: idents(arena, names)?,
                subtype: subtype(arena, narrowed)?,
                value: optional_expr(arena, initial)?,
                span,
            })
        }
        _ => {
            let (names, narrowed, initial, span) = node.three(Form::Variable)?;
            Ok(DeclKind::Variable {
                identifiers: idents(arena, names)?,
                subtype: subtype(arena, narrowed)?,
                value: optional_expr(arena, initial)?,
                span,
            })
        }
    }
}

/// The declaration of a component.
fn component<'a>(arena: &'a Bump<Global>, node: Node<'_>) -> Result<DeclKind<'a>, Memory>
    ensures { IfOk result (λ kind. v.decl_kind_tree kind ≡ node_tree node.entry) }
{
    let (identifier, generics, ports, end, span) = node.four(Form::ComponentDeclaration)?;
    Ok(DeclKind::Component {
        identifier: ident(identifier)?,
        generics: interfaces(arena, generics)?,
        ports: interfaces(arena, ports)?,
        end: optional_ident(end)?,
        span,
    })
}

/// The declaration of an attribute, or its specification for some entities.
#[tactic(auto, using(vv_tree::proofs::Declarations::attribute_is, vv_tree::proofs::Declarations::specification_is))]
fn attribute<'a>(arena: &'a Bump<Global>, node: Node<'_>) -> Result<DeclKind<'a>, Memory>
    ensures { IfOk result (λ kind. v.decl_kind_tree kind ≡ node_tree node.entry) }
{
    match node.form() {
        Some(Form::AttributeDeclaration) => {
            let (identifier, name, span) = node.two(Form::AttributeDeclaration)?;
            Ok(DeclKind::Attribute {
                identifier: ident(identifier)?,
                mark: mark(arena, name)?,
                span,
            })
        }
        _ => {
            let (identifier, entities, class, value, span) = node.four(
                Form::AttributeSpecification,
            )?;
            Ok(DeclKind::AttributeSpecification {
                identifier: ident(identifier)?,
                entities: designators(arena, entities)?,
                class: keyword(class)?,
                value: expr(arena, value)?,
                span,
            })
        }
    }
}

/// The declaration of a function without its body.
#[tactic(auto, using(vv_tree::proofs::Declarations::function_is))]
fn function<'a>(arena: &'a Bump<Global>, node: Node<'_>) -> Result<DeclKind<'a>, Memory>
    ensures { IfOk result (λ kind. v.decl_kind_tree kind ≡ node_tree node.entry) }
{
    let (inner, span) = node.one(Form::FunctionDeclaration)?;
    Ok(DeclKind::Function {
        specification: specification(arena, inner)?,
        span,
    })
}

/// What a declaration is that holds no others.
#[tactic(auto, using(vv_tree::proofs::Declarations::use_is))]
fn plain<'a>(arena: &'a Bump<Global>, node: Node<'_>) -> Result<DeclKind<'a>, Memory>
    ensures { IfOk result (λ kind. v.decl_kind_tree kind ≡ node_tree node.entry) }
{
    match node.form() {
        Some(Form::Type | Form::SubtypeDeclaration) => type_declaration(arena, node),
        Some(Form::FunctionDeclaration) => function(arena, node),
        Some(Form::ComponentDeclaration) => component(arena, node),
        Some(Form::AttributeDeclaration | Form::AttributeSpecification) => attribute(arena, node),
        Some(Form::Use) => Ok(DeclKind::Use(use_clause(arena, node)?)),
        _ => objects(arena, node),
    }
}

/// A declaration.
#[cycle(declarations)]
fn declaration<'a>(arena: &'a Bump<Global>, node: Node<'_>) -> Result<Decl<'a>, Memory>
    ensures { IfOk result (λ declaration. v.decl_tree declaration ≡ node_tree node.entry) }
{
    declaration_kind(arena, node)?.keep(arena)
}

/// What a declaration is.
#[tactic(auto, using(vv_tree::proofs::Declarations::body_is))]
#[cycle(declarations)]
fn declaration_kind<'a>(arena: &'a Bump<Global>, node: Node<'_>) -> Result<DeclKind<'a>, Memory>
    ensures { IfOk result (λ kind. v.decl_kind_tree kind ≡ node_tree node.entry) }
{
    if let Some(Form::FunctionBody) = node.form() {
        let (head, inner, list, end, span) = node.four(Form::FunctionBody)?;
        return Ok(DeclKind::FunctionBody {
            specification: specification(arena, head)?,
            declarations: declarations(arena, inner)?,
            statements: statements(arena, list)?,
            end: optional_designator(arena, end)?,
            span,
        });
    }
    plain(arena, node)
}

/// Declarations.
#[cycle(declarations)]
pub fn declarations<'a>(arena: &'a Bump<Global>, node: Node<'_>) -> Result<&'a [Decl<'a>], Memory>
    ensures { IfOk result (λ declarations. v.trees_of v.decl_tree declarations.now ≡ node_tree node.entry) }
{
    let nodes = node.items()?;
    let mut all = Vec::with_capacity(arena, nodes.len())?;
    for each in nodes {
        all.push(declaration(arena, *each)?)?;
    }
    Ok(into_bump_slice(all))
}
