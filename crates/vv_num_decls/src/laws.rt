//! A law on the list of declarations. The function does nothing: its contract is the law.

ghost use Rattle.std.specs.Prelude.{◌≢◌};
ghost use Rattle.std.specs.List.{AllPairs};
ghost use Rattle.vv_num_decls.specs.Declarations.{num_declarations};

/// No declaration stands twice.
pub fn none_stands_twice()
    ensures { AllPairs (λ x y. x ≢ y) num_declarations }
{}
