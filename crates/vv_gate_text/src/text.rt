//! The Verilog text.
ghost use Rattle.std.specs.HashSet.{contains_by};
ghost use Rattle.std.specs.Str.{bytes_eq};
ghost use Rattle.std.specs.Prelude.{◌≡◌, ◌++◌, ℕ, List, [], ◌∷◌, map, flat_map, filter, not, ◌&&◌, codes, IfOk, OnOk};
ghost use Rattle.vv_gate.specs.Conditions.{IsSound};
ghost use Rattle.vv_gate.specs.View.{file_of, assignment_of, term_of, operand_of};
ghost use Rattle.vv_gate.specs.Whole.{IsPlaced};
ghost use Rattle.vv_gate_text.specs.Layout.{written_expr, written_item, written_port, written_ports};
ghost use Rattle.vv_gate_text.specs.Made.{binary_of, made_operand, made_term, made_terms, made_assignment, made_idle, made_port, is_assigned, module_of};
ghost use Rattle.vv_gate_text.specs.Names.{mangled};
ghost use Rattle.vv_gate_text.specs.Text.{text_of};
ghost use Rattle.vv_gate_text.specs.View.{port_of};
ghost use Rattle.vv_vast.specs.Flat.{Flat, FlatDesign};
ghost use Rattle.vv_vast.specs.Grammar.{spelled_binary, VerilogText};

use crate::names::write_name;
use crate::ports::{Port, ports};
use std::alloc::{AllocError, Global};
use std::collections::HashSet;
use vv_gate::tree::{Assignment, GateFile, Operand, Operator, Term};
use vv_hash::{Seed, SeededState};

/// The sign of an operator.
fn sign(operator: Operator) -> &'static [u8]
    ensures { result.now ≡ spelled_binary (binary_of operator) }
{
    match operator {
        Operator::And => b"&",
        Operator::Or => b"|",
        Operator::Xor => b"^",
    }
}

fn write_operand(out: &mut Vec<u8>, operand: &Operand<'_>) -> Result<(), AllocError>
    ensures { OnOk result (out.new.items ≡ out.old.items ++ written_expr (made_operand (operand_of operand.now))) }
{
    match operand {
        Operand::Low => out.extend_from_slice(b"1'b0"),
        Operand::High => out.extend_from_slice(b"1'b1"),
        Operand::Port(ident) => write_name(out, ident.text),
    }
}

fn write_term(out: &mut Vec<u8>, term: &Term<'_>) -> Result<(), AllocError>
    ensures { OnOk result (out.new.items ≡ out.old.items ++ written_expr (made_term (term_of term.now))) }
{
    if !term.negated {
        return write_operand(out, &term.operand);
    }
    out.extend_from_slice(b"(~")?;
    write_operand(out, &term.operand)?;
    out.extend_from_slice(b")")
}

/// Writes a chain of terms from the left, each operator in parentheses with its operands.
fn write_terms(out: &mut Vec<u8>, operator: Operator, terms: &[Term<'_>]) -> Result<(), AllocError>
    ensures { OnOk result (out.new.items ≡ out.old.items ++ written_expr (made_terms (binary_of operator) (map term_of terms.now))) }
{
    let Some((first, rest)) = terms.split_first() else {
        return out.extend_from_slice(b"1'bx");
    };
    'opened: for _ in rest {
        out.push(b'(')?;
    }
    write_term(out, first)?;
    'chained: for term in rest {
        out.extend_from_slice(b" ")?;
        out.extend_from_slice(sign(operator))?;
        out.extend_from_slice(b" ")?;
        write_term(out, term)?;
        out.extend_from_slice(b")")?;
    }
    Ok(())
}

fn write_assignment(out: &mut Vec<u8>, assignment: &Assignment<'_>) -> Result<(), AllocError>
    ensures { OnOk result (out.new.items ≡ out.old.items ++ written_item (made_assignment (assignment_of assignment.now))) }
{
    out.extend_from_slice(b"  assign ")?;
    write_name(out, assignment.target.text)?;
    out.extend_from_slice(b" = ")?;
    write_terms(out, assignment.operator, &assignment.terms)?;
    out.extend_from_slice(b";\n")
}

/// Writes that an output is x.
fn write_idle(out: &mut Vec<u8>, port: &Port<'_>) -> Result<(), AllocError>
    ensures { OnOk result (out.new.items ≡ out.old.items ++ written_item (made_idle (port_of port.now))) }
{
    out.extend_from_slice(b"  assign ")?;
    write_name(out, port.ident.text)?;
    out.extend_from_slice(b" = 1'bx;\n")
}

fn write_port(out: &mut Vec<u8>, port: &Port<'_>) -> Result<(), AllocError>
    ensures { OnOk result (out.new.items ≡ out.old.items ++ written_port (made_port (port_of port.now))) }
{
    let head: &[u8] = if port.input {
        b"  input wire "
    } else {
        b"  output wire "
    };
    out.extend_from_slice(head)?;
    write_name(out, port.ident.text)
}

/// Writes the ports, a comma and a line feed between them.
fn write_ports(out: &mut Vec<u8>, ports: &[Port<'_>]) -> Result<(), AllocError>
    ensures { OnOk result (out.new.items ≡ out.old.items ++ written_ports (map made_port (map port_of ports.now))) }
{
    let Some((first, rest)) = ports.split_first() else {
        return Ok(());
    };
    out.extend_from_slice(b"\n")?;
    write_port(out, first)?;
    for port in rest {
        out.extend_from_slice(b",\n")?;
        write_port(out, port)?;
    }
    out.extend_from_slice(b"\n")
}

/// The seed of the names that the assignments target.
fn seed(assignments: &[Assignment<'_>]) -> Seed {
    let mut seed = Seed::new();
    for assignment in assignments {
        seed.add(assignment.target.text);
    }
    seed
}

/// The names that the assignments target.
fn targets<'a>(
    alloc: Global,
    assignments: &[Assignment<'a>],
) -> Result<HashSet<&'a [u8], SeededState>, AllocError>
    ensures { IfOk result (λ s. (q : List ℕ) → contains_by (λ k. bytes_eq q k.now) s ≡ is_assigned (map assignment_of assignments.now) q) }
{
    let mut names = HashSet::with_capacity_and_hasher(
        alloc,
        assignments.len(),
        seed(assignments).state(),
    )?;
    for assignment in assignments {
        names.insert(assignment.target.text)?;
    }
    Ok(names)
}

/// Writes that each output that isn't a target is x.
fn write_idles(
    out: &mut Vec<u8>,
    ports: &[Port<'_>],
    targets: &HashSet<&[u8], SeededState>,
) -> Result<(), AllocError>
    ensures { OnOk result (out.new.items ≡ out.old.items ++ flat_map written_item (map made_idle (filter (λ p. not p.input && not (contains_by (λ k. bytes_eq p.ident.text k.now) targets.now)) (map port_of ports.now)))) }
{
    for port in ports {
        if !port.input && !targets.contains(port.ident.text) {
            write_idle(out, port)?;
        }
    }
    Ok(())
}

fn write_assignments(out: &mut Vec<u8>, assignments: &[Assignment<'_>]) -> Result<(), AllocError>
    ensures { OnOk result (out.new.items ≡ out.old.items ++ flat_map written_item (map made_assignment (map assignment_of assignments.now))) }
{
    'written: for assignment in assignments {
        write_assignment(out, assignment)?;
    }
    Ok(())
}

/// The Verilog text of a file of gates. It is in the grammar, and stands for a flat design where the file is sound.
pub fn text(alloc: Global, file: &GateFile<'_>) -> Result<Vec<u8>, AllocError>
    ensures written { IfOk result (λ v. v.items ≡ text_of (file_of file.now)) }
    ensures verilog { let f = file_of file.now in IfOk result (λ v. IsPlaced f → VerilogText (module_of f ∷ []) v.items) }
    ensures flat { let f = file_of file.now in IfOk result (λ _. (top : List ℕ) → IsPlaced f → IsSound top f → (flat : Flat) × FlatDesign (module_of f ∷ []) (mangled f.entity.text) flat) }
{
    let ports = ports(alloc, file)?;
    let targets = targets(alloc, &file.assignments)?;
    let mut out = Vec::new(alloc);
    out.extend_from_slice(b"module ")?;
    write_name(&mut out, file.entity.text)?;
    out.extend_from_slice(b"(")?;
    write_ports(&mut out, &ports)?;
    out.extend_from_slice(b");\n")?;
    write_assignments(&mut out, &file.assignments)?;
    write_idles(&mut out, &ports, &targets)?;
    out.extend_from_slice(b"endmodule\n")?;
    Ok(out)
}
