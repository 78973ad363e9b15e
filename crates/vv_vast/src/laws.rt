//! The laws that a text has one meaning: one list of tokens, one list of modules, and one flat design of its top.
ghost use Rattle.std.specs.Prelude.{◌≡◌, ℕ, List, [], ◌∷◌, flat_map, codes, All};
ghost use Rattle.vv_vast.specs.Examples.{inverter, inverter_text, inverter_flat};
ghost use Rattle.vv_vast.specs.Flat.{Flat, FlatDesign};
ghost use Rattle.vv_vast.specs.Grammar.{spelled, names_of, VerilogText};
ghost use Rattle.vv_vast.specs.Tokens.{IsCut};
ghost use Rattle.vv_vast.specs.Tree.{Module};
ghost use Rattle.vv_vast.specs.Words.{IsIdentifier};

/// A text is cut into tokens in at most one way.
pub fn one_cut()
    ensures { (text : List ℕ) (tokens others : List (List ℕ)) → IsCut text tokens → IsCut text others → tokens ≡ others }
{}

/// Modules whose names are identifiers are told by their tokens: no two lists of modules are spelled alike.
pub fn one_tree()
    ensures { (modules others : List Module) → All IsIdentifier (flat_map names_of modules) → All IsIdentifier (flat_map names_of others) → spelled modules ≡ spelled others → modules ≡ others }
{}

/// A text is that of at most one list of modules.
pub fn one_text()
    ensures { (modules others : List Module) (text : List ℕ) → VerilogText modules text → VerilogText others text → modules ≡ others }
{}

/// A list of modules has at most one flat design for each name of its top.
pub fn one_flat()
    ensures { (modules : List Module) (top : List ℕ) (flat other : Flat) → FlatDesign modules top flat → FlatDesign modules top other → flat ≡ other }
{}

/// The laws speak of something: an inverter has a text, and a flat design.
pub fn inverter_meets_premises()
    ensures text { VerilogText (inverter ∷ []) inverter_text }
    ensures flat { FlatDesign (inverter ∷ []) (codes "m") inverter_flat }
{}
