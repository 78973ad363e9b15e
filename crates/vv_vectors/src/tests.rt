ghost use Rattle.std.specs.Prelude.{◌≡◌, ◌≤◌, length};
ghost use Rattle.vv_vectors.specs.Vectors.{Apart, LiesIn};

use crate::laws::{cells_stay_as_many, other_places_stay, place_holds_what_was_written};
use crate::{any_meta, bit, copy, fill, number, put_scalar, scalar, write_bit, write_number};
use std::alloc::Global;
use std::test::Fail;
use vv_base::fault::Memory;
use vv_bits::S9;
use vv_types::{Cells, Place};

/// What is written into a place of four cells, in the middle of twelve.
#[derive(Clone, Copy)]
enum Step {
    Number(u128),
    Fill(S9),
    Bit(u32, S9),
    Copy,
}

const LEFT: Place = Place { first: 1, size: 4 };

const RIGHT: Place = Place { first: 6, size: 4 };

const ALONE: Place = Place { first: 11, size: 1 };

fn write(cells: &mut Cells, step: Step)
    requires { length cells.old ≡ 12 }
    ensures { length cells.new ≡ 12 }
{
    match step {
        Step::Number(n) => write_number(cells, LEFT, n),
        Step::Fill(value) => fill(cells, LEFT, value),
        Step::Bit(k, value) => {
            if k < 4 {
                write_bit(cells, LEFT, k, value);
            }
        }
        Step::Copy => copy(cells, RIGHT, LEFT),
    }
}

/// The vector on the left after some steps: its number, whether it has a metavalue, and its first element.
fn read_after(alloc: Global, steps: &[Step]) -> Result<(u128, bool, S9), Memory> {
    let mut cells = Cells::new(alloc, 12)?;
    for step in steps {
        write(&mut cells, *step);
    }
    Ok((
        number(&cells, LEFT),
        any_meta(&cells, LEFT),
        bit(&cells, LEFT, 0),
    ))
}

#[test]
fn vectors(rt: HostRuntime) -> Result<(), Fail> {
    let rows: [(&[Step], (u128, bool, S9)); 6] = [
        (&[], (0, true, S9::U)),
        (&[Step::Number(26)], (10, false, S9::One)),
        (&[Step::Fill(S9::H)], (15, false, S9::H)),
        (
            &[Step::Number(6), Step::Bit(0, S9::Dash)],
            (6, true, S9::Dash),
        ),
        (
            &[Step::Fill(S9::L), Step::Bit(3, S9::One)],
            (1, false, S9::L),
        ),
        (&[Step::Number(7), Step::Copy], (0, true, S9::U)),
    ];
    for (steps, want) in rows {
        assert_eq!(rt; read_after(rt.alloc(), steps)?, want);
    }
    Ok(())
}

#[test]
fn scalars(rt: HostRuntime) -> Result<(), Fail> {
    for v in [0, 8, -1, -2147483648, 2147483647] {
        let mut cells = Cells::new(rt.alloc(), 12)?;
        put_scalar(&mut cells, ALONE, v);
        assert_eq!(rt; scalar(&cells, ALONE), v);
    }
    Ok(())
}

#[test]
fn laws(rt: HostRuntime) {
    cells_stay_as_many();
    place_holds_what_was_written();
    other_places_stay();
}
