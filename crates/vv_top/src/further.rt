//! The commands that are no translation.

ghost use Rattle.std.specs.Prelude.{◌≡◌, ◌≤◌, false};
ghost use Rattle.vv_base.specs.Outside.{KeepsAll, NoneFell};
ghost use Rattle.vv_top.specs.Lines.{Said, usage_line};
ghost use Rattle.vv_top.specs.Words.{is_further};

use crate::comparison::compare_order;
use crate::generation::generate;
use crate::halts::{Halt, tell_halt};
use crate::lines::say;
use crate::orders::Order;
use crate::replays::{replay_design, replay_text};
use std::alloc::Global;
use vv_base::shelf::Shelf;
use vv_base::sink::Sink;

/// Does the command that the words are, and answers its status. Words that are none of these commands have `usage` and status 2.
pub fn do_further<D: Shelf, O: Sink>(
    alloc: Global,
    words: &[&str],
    shelf: &mut D,
    out: &mut O,
) -> u8
    ensures range { result ≤ 11 }
    ensures loads { NoneFell (D.failed_loads shelf.old) (D.failed_loads shelf.new) }
    ensures saves { NoneFell (D.failed_saves shelf.old) (D.failed_saves shelf.new) }
    ensures later { O.faults out.old ≤ O.faults out.new }
    ensures no_command { is_further words.now ≡ false
        → Said usage_line 2 result
        (O.written out.old) (O.written out.new) (O.faults out.old) (O.faults out.new) }
    ensures no_command_keeps { is_further words.now ≡ false
        → KeepsAll (D.held shelf.old) (D.held shelf.new) }
{
    match Order::from_words(words) {
        Some(order) => do_order(alloc, &order, shelf, out),
        None => say(out, b"usage\n", 2),
    }
}

/// Does a command.
fn do_order<D: Shelf, O: Sink>(alloc: Global, order: &Order<'_>, shelf: &mut D, out: &mut O) -> u8
    ensures range { result ≤ 11 }
    ensures loads { NoneFell (D.failed_loads shelf.old) (D.failed_loads shelf.new) }
    ensures saves { NoneFell (D.failed_saves shelf.old) (D.failed_saves shelf.new) }
    ensures later { O.faults out.old ≤ O.faults out.new }
{
    match order {
        Order::ReplayDesign(order) => {
            let ended = replay_design(alloc, order, shelf, out);
            after_cycles(ended, out)
        }
        Order::ReplayText(order) => {
            let ended = replay_text(alloc, order, shelf, out);
            after_cycles(ended, out)
        }
        Order::Compare(order) => with_line(compare_order(alloc, order, shelf), out),
        Order::Generate(order) => with_line(generate(alloc, order, shelf), out),
    }
}

/// The status of a command that has printed its cycles.
fn after_cycles<O: Sink>(ended: Result<(), Halt>, out: &mut O) -> u8
    ensures range { result ≤ 11 }
    ensures later { O.faults out.old ≤ O.faults out.new }
{
    match ended {
        Ok(()) => 0,
        Err(halt) => tell_halt(halt, out),
    }
}

/// The status of a command that ends with a line.
fn with_line<O: Sink>(ended: Result<String, Halt>, out: &mut O) -> u8
    ensures range { result ≤ 11 }
    ensures later { O.faults out.old ≤ O.faults out.new }
{
    match ended {
        Ok(line) => say(out, line.as_bytes(), 0),
        Err(halt) => tell_halt(halt, out),
    }
}
