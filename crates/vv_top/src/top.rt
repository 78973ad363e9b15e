//! The whole program but its `main`.

ghost use Rattle.std.specs.Prelude.{◌≡◌, ◌≢◌, ◌≤◌, ◌⊎◌, None, false, IfSome};
ghost use Rattle.std.specs.Io.KnownBytes.{Appends, Keeps};
ghost use Rattle.vv_base.specs.Outside.{Rose, KeepsAll, NoneFell};
ghost use Rattle.vv_top.specs.Lines.{Said, Cut, usage_line, memory_line};
ghost use Rattle.vv_top.specs.Words.{asked, is_further};
ghost use Rattle.vv_top.specs.Run.{KeepsBut, Saved, SavedPart, OfFiles};
ghost use Rattle.vv_top.specs.Top.{IsDone, IsRefused, IsReadFault, IsSaveFault, IsStopped, NoFault, Translates};

use crate::further::do_further;
use crate::run::run;
use crate::tell::tell;
use crate::words::Command;
use std::alloc::Global;
use vv_base::shelf::Shelf;
use vv_base::sink::Sink;

/// Does the command that the words are, and answers its status. The contract speaks of `translate TOP OUT MAP FILE` with further FILEs or
/// none, whose FILEs are loaded in order before anything else is done; its statuses are 0 to 5.
///
/// - 0: the command is done. `translate` has saved the text of the FILEs under OUT and their map under MAP, and prints nothing.
/// - 1: the FILEs break a rule. `FILE:LINE:COL: CODE` is printed, with the FILE that the place is in.
/// - 2: the words are no command. `usage` is printed.
/// - 3: a load of a FILE failed, and those before it did not. `read fault: FILE` is printed.
/// - 4: a save of a name failed, and `write fault: NAME` is printed; or a put failed, and some first part of its
///   line is printed.
/// - 5: there is no memory left. `memory` is printed, or nothing where the put had no memory.
///
/// The other commands are `replay`, `compare` and `gen`, which have these statuses too, and besides:
///
/// - 6: a stimulus or a map breaks a rule. `NAME: record N: CODE` is printed.
/// - 7: the design reaches a range error. `row N: range error at FILE:LINE:COL` is printed.
/// - 8: the text has another value than the design. `row N: PATH: vhdl V verilog W` is printed.
/// - 9: a text breaks a rule. `NAME: offset N: CODE` is printed.
/// - 10: the design meets a clash, an equality of different unknown values. `row N: clash at FILE:LINE:COL` is printed.
/// - 11: the design meets a control fault. `row N: control fault at FILE:LINE:COL` is printed.
///
/// Only after 0, 4 and 5 something may have been saved, and never under other names than those that the command saves.
pub fn v2v<D: Shelf, O: Sink>(alloc: Global, words: &[&str], shelf: &mut D, out: &mut O) -> u8
    ensures range { result ≤ 11 }
    ensures translation { IfSome (asked words.now) (λ w. result ≤ 5) }
    ensures loads { NoneFell (D.failed_loads shelf.old) (D.failed_loads shelf.new) }
    ensures saves { NoneFell (D.failed_saves shelf.old) (D.failed_saves shelf.new) }
    ensures faults { O.faults out.old ≤ O.faults out.new }
    ensures others { IfSome (asked words.now) (λ w.
        KeepsBut w.output w.map (D.held shelf.old) (D.held shelf.new)) }
    ensures no_command { asked words.now ≡ None → is_further words.now ≡ false
        → Said usage_line 2 result
        (O.written out.old) (O.written out.new) (O.faults out.old) (O.faults out.new) }
    ensures no_command_keeps { asked words.now ≡ None → is_further words.now ≡ false
        → KeepsAll (D.held shelf.old) (D.held shelf.new) }
    ensures usage { result ≡ 2 → asked words.now ≡ None }
    ensures done { result ≡ 0 → IfSome (asked words.now) (λ w.
        IsDone w (D.held shelf.old) (D.held shelf.new) (O.written out.old) (O.written out.new)) }
    ensures refused { result ≡ 1 → IfSome (asked words.now) (λ w.
        IsRefused w (D.held shelf.old) (D.held shelf.new)
        (Appends (O.written out.old) (O.written out.new))) }
    ensures read_fault { result ≡ 3 → IfSome (asked words.now) (λ w.
        IsReadFault w (D.held shelf.old) (D.held shelf.new)
        (D.failed_loads shelf.old) (D.failed_loads shelf.new)
        (Appends (O.written out.old) (O.written out.new))) }
    // a save failed; or a put failed, and some first part stands of the line that was to be printed
    ensures write_fault { result ≡ 4 → IfSome (asked words.now) (λ w.
        IsSaveFault w (D.held shelf.old) (D.held shelf.new)
        (D.failed_saves shelf.old) (D.failed_saves shelf.new)
        (Appends (O.written out.old) (O.written out.new))
        ⊎ (Rose (O.faults out.old) (O.faults out.new)
        × IsStopped w (D.held shelf.old) (D.held shelf.new)
        (D.failed_loads shelf.old) (D.failed_loads shelf.new)
        (D.failed_saves shelf.old) (D.failed_saves shelf.new)
        (Cut (O.written out.old) (O.written out.new)))) }
    ensures memory { result ≡ 5 → IfSome (asked words.now) (λ w.
        Appends (O.written out.old) (O.written out.new) memory_line
        ⊎ Keeps (O.written out.old) (O.written out.new)) }
    ensures saved { 4 ≤ result → IfSome (asked words.now) (λ w.
        Saved w (D.held shelf.old) (D.held shelf.new)
        (D.failed_saves shelf.old) (D.failed_saves shelf.new)) }
    ensures part { 4 ≤ result → IfSome (asked words.now) (λ w.
        (¬ Rose (D.failed_saves shelf.old w.output) (D.failed_saves shelf.new w.output))
        → (¬ Rose (D.failed_saves shelf.old w.map) (D.failed_saves shelf.new w.map))
        → SavedPart w (D.held shelf.old) (D.held shelf.new)) }
    // with no fault and no want of memory, what the files come to is settled by their bytes
    ensures headline { IfSome (asked words.now) (λ w.
        NoFault w (D.failed_loads shelf.old) (D.failed_loads shelf.new)
        (D.failed_saves shelf.old) (D.failed_saves shelf.new)
        (O.faults out.old) (O.faults out.new)
        → result ≢ 5
        → OfFiles w (D.held shelf.old) (λ files.
        Translates w files result (D.held shelf.old) (D.held shelf.new)
        (O.written out.old) (O.written out.new))) }
{
    let Some(command) = Command::from_words(words) else {
        return do_further(alloc, words, shelf, out);
    };
    match run(alloc, &command, shelf) {
        Ok(()) => 0,
        Err(stop) => tell(alloc, &command, stop, out),
    }
}
