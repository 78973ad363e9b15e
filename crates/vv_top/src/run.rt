//! One translation, from the shelf to the shelf.

ghost use Rattle.std.specs.Prelude.{◌≡◌, ◌≤◌, ◌<◌, [], None, Some, OnOk, OnErr, IfOk, IfErr, length, map, get_or};
ghost use Rattle.vv_base.specs.Outside.{KeepsAll, NoneFell};
ghost use Rattle.vv_trans.specs.Translation.{bytes_of, told, ForRefused, IsTranslated, IsRefusal};
ghost use Rattle.vv_top.specs.Words.{wanted, IsLawful};
ghost use Rattle.vv_top.specs.Run.{KeepsBut, Translated, BothHold, Saved};
ghost use Rattle.vv_top.specs.Stops.{Means, IsInside};

use crate::loads::{LoadStop, load_all};
use crate::words::Command;
use std::alloc::{AllocError, Global};
use vv_base::fault::{Fault, Refusal};
use vv_base::shelf::{SaveFault, Shelf};
use vv_trans::out::Out;
use vv_trans::translate::translate;

/// Why a translation stopped.
#[derive(Drop)]
pub enum Stop {
    /// A load of the file of this number failed.
    ReadFault(usize),
    /// A save of the text failed. The map was not saved.
    OutputFault,
    /// A save of the map failed. The text is saved.
    MapFault,
    /// The files, of these bytes, break a rule.
    Refused(Vec<Vec<u8>>, Refusal),
    /// There is no memory left.
    Memory,
}

/// The bytes of files, borrowed.
pub fn slices(alloc: Global, files: &[Vec<u8>]) -> Result<Vec<&[u8]>, AllocError>
    ensures { IfOk result (λ slices.
        bytes_of slices.items ≡ map (λ file. file.items) files.now) }
{
    let mut slices = Vec::new(alloc);
    for file in files {
        slices.push(file.as_slice())?;
    }
    Ok(slices)
}

/// Text and map of files that are loaded, or the rule that they break first.
fn translate_loaded(alloc: Global, files: &[Vec<u8>], top: &str) -> Result<Out, Fault>
    requires { length files.now ≤ 255 }
    ensures translated { IfOk result (λ out.
        IsTranslated top.now (map (λ file. file.items) files.now) out.text out.map) }
    ensures refused { IfErr result (λ fault. ForRefused fault (λ r.
        IsRefusal top.now (map (λ file. file.items) files.now) (told r))) }
    ensures file { IfErr result (λ fault. ForRefused fault (λ r.
        0 < length files.now → r.span.file < length files.now)) }
    ensures inside { IfErr result (λ fault. ForRefused fault (λ r.
        r.span.at ≤ length (get_or (map (λ file. file.items) files.now) r.span.file []))) }
{
    let slices = slices(alloc, files)?;
    translate(alloc, slices.as_slice(), top)
}

/// Loads the files in order and translates them.
fn translate_files<D: Shelf>(
    alloc: Global,
    command: &Command<'_>,
    shelf: &mut D,
) -> Result<Out, Stop>
    requires { IsLawful (wanted command.now) }
    ensures loads { NoneFell (D.failed_loads shelf.old) (D.failed_loads shelf.new) }
    ensures saves { NoneFell (D.failed_saves shelf.old) (D.failed_saves shelf.new) }
    ensures held { KeepsAll (D.held shelf.old) (D.held shelf.new) }
    ensures translated { IfOk result (λ out.
        Translated (wanted command.now) (D.held shelf.old) out.text out.map) }
    ensures stopped { IfErr result
        (Means (wanted command.now) (D.held shelf.old) (D.held shelf.new)
        (D.failed_loads shelf.old) (D.failed_loads shelf.new)
        (D.failed_saves shelf.old) (D.failed_saves shelf.new)) }
    ensures inside { IfErr result (IsInside (length command.now.files.now)) }
{
    let files = match load_all(alloc, command.files, shelf) {
        Ok(files) => files,
        Err(LoadStop::Failed(number)) => return Err(Stop::ReadFault(number)),
        Err(LoadStop::Memory) => return Err(Stop::Memory),
    };
    match translate_loaded(alloc, files.as_slice(), command.top) {
        Ok(out) => Ok(out),
        Err(Fault::Refused(refusal)) => Err(Stop::Refused(files, refusal)),
        Err(Fault::Memory) => Err(Stop::Memory),
    }
}

/// Loads the files in order, translates them, and saves first the text and then the map.
pub fn run<D: Shelf>(alloc: Global, command: &Command<'_>, shelf: &mut D) -> Result<(), Stop>
    requires { IsLawful (wanted command.now) }
    ensures loads { NoneFell (D.failed_loads shelf.old) (D.failed_loads shelf.new) }
    ensures saves { NoneFell (D.failed_saves shelf.old) (D.failed_saves shelf.new) }
    ensures others { KeepsBut command.now.output.now command.now.map.now
        (D.held shelf.old) (D.held shelf.new) }
    ensures both { OnOk result (BothHold (wanted command.now) (D.held shelf.old) (D.held shelf.new)) }
    ensures stopped { IfErr result
        (Means (wanted command.now) (D.held shelf.old) (D.held shelf.new)
        (D.failed_loads shelf.old) (D.failed_loads shelf.new)
        (D.failed_saves shelf.old) (D.failed_saves shelf.new)) }
    ensures inside { IfErr result (IsInside (length command.now.files.now)) }
    ensures saved { OnErr result
        (Saved (wanted command.now) (D.held shelf.old) (D.held shelf.new)
        (D.failed_saves shelf.old) (D.failed_saves shelf.new)) }
{
    let out = translate_files(alloc, command, shelf)?;
    match shelf.save(command.output, out.text.as_slice()) {
        Ok(()) => {}
        Err(SaveFault::Failed) => return Err(Stop::OutputFault),
        Err(SaveFault::Memory) => return Err(Stop::Memory),
    }
    match shelf.save(command.map, out.map.as_slice()) {
        Ok(()) => Ok(()),
        Err(SaveFault::Failed) => Err(Stop::MapFault),
        Err(SaveFault::Memory) => Err(Stop::Memory),
    }
}
