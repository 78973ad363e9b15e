//! Laws on the definitions. The functions do nothing, and their contracts are the laws.

ghost use Rattle.std.specs.Prelude.{◌≡◌, ◌+◌};
ghost use Rattle.vv_typed.specs.Parts.{form_node_count, node_count, stmt_form_node_count, stmt_node_count, StmtLayer, TypedLayer};
ghost use Rattle.vv_typed.specs.declared.expressions.Typed.{roll-Typed};
ghost use Rattle.vv_typed.specs.declared.statements.TStmt.{roll-TStmt};

/// An expression and a statement count one more than their forms.
pub fn counts_add_up()
    ensures typed { (e : TypedLayer) → node_count (roll-Typed e) ≡ form_node_count e.form + 1 }
    ensures stmt { (s : StmtLayer) → stmt_node_count (roll-TStmt s) ≡ stmt_form_node_count s.form + 1 }
{}
