//! Laws of cells that are written in one place. Each function does nothing: its contract is the law.

ghost use Rattle.std.specs.Prelude.{◌≡◌, ℤ, List, length};
ghost use Rattle.vv_bits.specs.declared.nine.S9.{S9};
ghost use Rattle.vv_types.specs.declared.cells.Place.{Place};
ghost use Rattle.vv_vectors.specs.Vectors.{Apart, LiesIn, cells_at, vector_at, with_cells, with_vector};

/// There are as many cells as before, so places lie in them as before.
pub fn cells_stay_as_many()
    ensures length { (old zs : List ℤ) (to : Place) → LiesIn old to → length zs ≡ to.size → length (with_cells old to zs) ≡ length old }
    ensures lies { (old zs : List ℤ) (to p : Place) → LiesIn old to → length zs ≡ to.size → LiesIn old p → LiesIn (with_cells old to zs) p }
{}

/// The place holds what was written.
pub fn place_holds_what_was_written()
    ensures cells { (old zs : List ℤ) (to : Place) → LiesIn old to → length zs ≡ to.size → cells_at (with_cells old to zs) to ≡ zs }
    ensures vector { (old : List ℤ) (to : Place) (xs : List S9) → LiesIn old to → length xs ≡ to.size → vector_at (with_vector old to xs) to ≡ xs }
{}

/// A place apart holds what it held.
pub fn other_places_stay()
    ensures cells { (old zs : List ℤ) (p to : Place) → LiesIn old to → LiesIn old p → length zs ≡ to.size → Apart p to → cells_at (with_cells old to zs) p
        ≡ cells_at old p }
    ensures vector { (old : List ℤ) (p to : Place) (xs : List S9) → LiesIn old to → LiesIn old p → length xs ≡ to.size → Apart p to → vector_at
        (with_vector old to xs) p
        ≡ vector_at old p }
{}
