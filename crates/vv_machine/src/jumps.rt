//! By which of its alternatives a place goes on at a terminal, worked out once for all.

ghost use Rattle.std.specs.Prelude.{◌≡◌, ◌++◌, ◌<◌, ◌≤◌, ◌*◌, IfOk, OnOk, flat_map, length, map};
ghost use Rattle.vv_machine.specs.Jumps as spec;
ghost use Rattle.vv_machine.specs.Machine.{choose};
ghost use Rattle.vv_grammar.specs.Table as table;
ghost use Rattle.vv_grammar.specs.Terminals.{contains};

use std::alloc::Global;
use vv_base::fault::Memory;
use vv_grammar::all::{PLACES, TERMINAL_COUNT, TERMINALS};
use vv_grammar::edition::Edition;
use vv_grammar::place::Place;
use vv_grammar::rows::alternatives;
use vv_grammar::step::Alternative;
use vv_grammar::terminal::{Terminal, is_among};

/// For each place and each terminal, the number of the alternative that has it.
#[derive(Debug, Drop)]
pub struct Jumps {
    pub edition: Edition,
    cells: Vec<u8>,
    ghost right: { cells.items ≡ spec.numbers edition },
}

/// The number of a terminal among all of them.
fn number_of(terminal: Terminal) -> usize
    ensures { result ≡ spec.number_of terminal }
{
    match terminal {
        Terminal::Id => 0,
        Terminal::Int => 1,
        Terminal::Char => 2,
        Terminal::Str => 3,
        Terminal::BitStr => 4,
        Terminal::End => 5,
        Terminal::Mark(sign) => 6 + sign as usize,
        Terminal::Key(word) => 29 + word as usize,
    }
}

/// The number of the first alternative that has the terminal, from 1 on, or 0.
fn turn_number(rows: &[Alternative], terminal: Terminal) -> u8
    requires { length rows.now ≤ 255 }
    ensures value { result ≡ spec.turn_number (map (λ a. table.choice a.0.now a.1 a.2.now) rows.now) terminal }
    ensures below { result ≤ length rows.now }
{
    match rows {
        [] => 0,
        [row, more @ ..] => {
            if is_among(terminal, row.0) {
                return 1;
            }
            match turn_number(more, terminal) {
                0 => 0,
                number => number + 1,
            }
        }
    }
}

/// Puts the numbers of these terminals at the end.
fn push_row(cells: &mut Vec<u8>, rows: &[Alternative], terminals: &[Terminal]) -> Result<(), Memory>
    requires { length rows.now ≤ 255 }
    ensures { OnOk result (cells.new.items ≡ cells.old.items ++ map (spec.turn_number (map (λ a. table.choice a.0.now a.1 a.2.now) rows.now)) terminals.now) }
{
    for terminal in terminals {
        cells.push(turn_number(rows, *terminal))?;
    }
    Ok(())
}

/// Puts the numbers of these terminals for each of these places at the end.
fn push_rows(
    cells: &mut Vec<u8>,
    edition: Edition,
    places: &[Place],
    terminals: &[Terminal],
) -> Result<(), Memory>
    ensures { OnOk result (cells.new.items ≡ cells.old.items ++ flat_map (spec.row edition terminals.now) places.now) }
{
    for place in places {
        push_row(cells, alternatives(edition, *place), terminals)?;
    }
    Ok(())
}

impl Jumps {
    pub fn new(alloc: Global, edition: Edition) -> Result<Jumps, Memory>
        ensures { IfOk result (λ j. j.edition ≡ edition) }
    {
        let mut cells = Vec::new(alloc);
        push_rows(&mut cells, edition, &PLACES, &TERMINALS)?;
        Ok(Jumps { edition, cells })
    }

    /// The number of the alternative by which the place goes on at the terminal, from 1 on, or 0.
    pub fn at(&self, place: Place, terminal: Terminal) -> usize
        ensures turn { spec.turn_of (table.alternatives self.now.edition place) result ≡ choose (table.alternatives self.now.edition place) terminal }
        ensures below { result ≤ length (table.alternatives self.now.edition place) }
    {
        self.cells[place as usize * TERMINAL_COUNT + number_of(terminal)] as usize
    }
}
