//! The flat design that the text of a file of gates stands for.
ghost use Rattle.std.specs.Prelude.{◌≡◌, ℕ, List, [], ◌∷◌, ◌++◌, map, IfOk, OnOk};
ghost use Rattle.vv_gate.specs.Conditions.{IsSound};
ghost use Rattle.vv_gate.specs.View.{file_of, operand_of, term_of, assignment_of};
ghost use Rattle.vv_gate.specs.Whole.{IsPlaced};
ghost use Rattle.vv_gate_text.specs.Made.{binary_of, made_port, module_of};
ghost use Rattle.vv_gate_text.specs.Names.{mangled};
ghost use Rattle.vv_gate_vhdl.specs.Design.{is_assigned};
ghost use Rattle.vv_vast.specs.Flat.{FlatDesign};
ghost use Rattle.vv_vast.specs.Tree.{not', unary, binary};
ghost use Rattle.vv_gate_run.specs.Circuit.{ports_in, assignments_in, port_of};
ghost use Rattle.vv_gate_run.specs.Numbered.{numbered_operand, numbered_term, numbered_terms, numbered_item, idle_items, numbered_file};
ghost use Rattle.vv_gate_run.specs.Flat.{expr_of, item_of, object_of, flat_of};

use crate::ports::{Port, net_of};
use crate::vhdl::circuit::Circuit;
use std::alloc::{AllocError, Global};
use vv_bits::V4;
use vv_gate::tree::{Assignment, GateFile, Operand, Operator, Term};
use vv_vast::words::is_reserved;

/// An expression over the numbers of objects.
#[derive(Debug, Drop)]
pub enum Expr {
    Literal(V4),
    /// An object.
    Read(usize),
    /// `~`
    Not(Box<Expr>),
    /// `&`, `|` or `^`
    Both(Operator, Box<Expr>, Box<Expr>),
}

/// `assign target = value;`
#[derive(Debug, Drop)]
pub struct Item {
    pub target: usize,
    pub value: Expr,
}

/// A port of the module, with its Verilog name.
#[derive(Debug, Drop)]
pub struct Object {
    pub name: Vec<u8>,
    pub input: bool,
}

/// Objects by number, and items over these numbers.
#[derive(Debug, Drop)]
pub struct Flat {
    pub objects: Vec<Object>,
    pub items: Vec<Item>,
}

fn made_operand(ports: &[Port<'_>], operand: &Operand<'_>) -> Expr
    ensures { expr_of result ≡ numbered_operand (map port_of ports.now) (operand_of operand.now) }
{
    match operand {
        Operand::Low => Expr::Literal(V4::Zero),
        Operand::High => Expr::Literal(V4::One),
        Operand::Port(ident) => Expr::Read(net_of(ports, ident.text)),
    }
}

fn negation(alloc: Global, value: Expr) -> Result<Expr, AllocError>
    ensures { IfOk result (λ e. expr_of e ≡ unary not' (expr_of value)) }
{
    Ok(Expr::Not(Box::new(alloc, value)?))
}

fn both(alloc: Global, operator: Operator, left: Expr, right: Expr) -> Result<Expr, AllocError>
    ensures { IfOk result (λ e. expr_of e ≡ binary (binary_of operator) (expr_of left) (expr_of right)) }
{
    let left = Box::new(alloc, left)?;
    let right = Box::new(alloc, right)?;
    Ok(Expr::Both(operator, left, right))
}

fn made_term(alloc: Global, ports: &[Port<'_>], term: &Term<'_>) -> Result<Expr, AllocError>
    ensures { IfOk result (λ e. expr_of e ≡ numbered_term (map port_of ports.now) (term_of term.now)) }
{
    let value = made_operand(ports, &term.operand);
    if !term.negated {
        return Ok(value);
    }
    negation(alloc, value)
}

/// The terms combined from the left.
fn made_chain(
    alloc: Global,
    ports: &[Port<'_>],
    operator: Operator,
    terms: &[Term<'_>],
) -> Result<Expr, AllocError>
    ensures { IfOk result (λ e. expr_of e ≡ numbered_terms (map port_of ports.now) (binary_of operator) (map term_of terms.now)) }
{
    let Some((first, rest)) = terms.split_first() else {
        return Ok(Expr::Literal(V4::X));
    };
    let mut value = made_term(alloc, ports, first)?;
    for next in rest {
        value = both(alloc, operator, value, made_term(alloc, ports, next)?)?;
    }
    Ok(value)
}

fn made_item(
    alloc: Global,
    ports: &[Port<'_>],
    assignment: &Assignment<'_>,
) -> Result<Item, AllocError>
    ensures { IfOk result (λ i. item_of i ≡ numbered_item (map port_of ports.now) (assignment_of assignment.now)) }
{
    let value = made_chain(alloc, ports, assignment.operator, &assignment.terms)?;
    Ok(Item {
        target: net_of(ports, assignment.target.text),
        value,
    })
}

/// Appends an item for each assignment.
fn push_items(
    alloc: Global,
    items: &mut Vec<Item>,
    ports: &[Port<'_>],
    assignments: &[Assignment<'_>],
) -> Result<(), AllocError>
    ensures { OnOk result (map item_of items.new.items ≡ map item_of items.old.items ++ map (numbered_item (map port_of ports.now)) (map assignment_of assignments.now)) }
{
    for assignment in assignments {
        items.push(made_item(alloc, ports, assignment)?)?;
    }
    Ok(())
}

/// Appends an item for each output that no assignment targets.
fn push_idle(items: &mut Vec<Item>, circuit: &Circuit<'_, '_>) -> Result<(), AllocError>
    ensures { OnOk result (map item_of items.new.items ≡ map item_of items.old.items ++ idle_items (is_assigned (ports_in circuit.now) (assignments_in circuit.now)) (ports_in circuit.now) 0) }
{
    for (net, port) in circuit.ports.iter().enumerate() {
        if !port.input && !circuit.is_assigned(net) {
            items.push(Item {
                target: net,
                value: Expr::Literal(V4::X),
            })?;
        }
    }
    Ok(())
}

/// The Verilog name of a VHDL name.
fn verilog_name(alloc: Global, name: &[u8]) -> Result<Vec<u8>, AllocError>
    ensures { IfOk result (λ v. v.items ≡ mangled name.now) }
{
    let mut written = Vec::from_slice(alloc, name)?;
    if is_reserved(name) {
        written.push(b'$')?;
    }
    Ok(written)
}

fn made_object(alloc: Global, port: &Port<'_>) -> Result<Object, AllocError>
    ensures { IfOk result (λ o. object_of o ≡ made_port (port_of port.now)) }
{
    Ok(Object {
        name: verilog_name(alloc, port.ident.text)?,
        input: port.input,
    })
}

fn objects(alloc: Global, ports: &[Port<'_>]) -> Result<Vec<Object>, AllocError>
    ensures { IfOk result (λ v. map object_of v.items ≡ map made_port (map port_of ports.now)) }
{
    let mut objects = Vec::new(alloc);
    for port in ports {
        objects.push(made_object(alloc, port)?)?;
    }
    Ok(objects)
}

impl Flat {
    /// The flat design of the module that is printed for a file: the number of an object is that
    /// of its port.
    pub fn of_file(alloc: Global, file: &GateFile<'_>) -> Result<Flat, AllocError>
        ensures numbered { IfOk result (λ r. flat_of r ≡ numbered_file (file_of file.now)) }
        ensures flat { let f = file_of file.now in IfOk result (λ r. (top : List ℕ) → IsPlaced f → IsSound top f → FlatDesign (module_of f ∷ []) (mangled f.entity.text) (flat_of r)) }
    {
        let circuit = Circuit::new(alloc, file)?;
        let mut items = Vec::new(alloc);
        push_items(alloc, &mut items, &circuit.ports, circuit.assignments)?;
        push_idle(&mut items, &circuit)?;
        Ok(Flat {
            objects: objects(alloc, &circuit.ports)?,
            items,
        })
    }
}
