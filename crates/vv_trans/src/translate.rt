//! From the bytes of files to text and map.

ghost use Rattle.std.specs.Prelude.{◌≡◌, ◌≤◌, ◌<◌, List, ℕ, [], ◌∷◌, None, Some, OnOk, IfOk, IfErr, length, get_or, map, slice_get};
ghost use Rattle.vv_base.specs.declared.rules.Rule.TheVariants.{Y1};
ghost use Rattle.vv_gate.specs.Conditions.{IsSound};
ghost use Rattle.vv_gate.specs.View.{file_of};
ghost use Rattle.vv_gate.specs.Whole.{IsPlaced};
ghost use Rattle.vv_gate_read.specs.Machine.{drive, start, Reads, Stops};
ghost use Rattle.vv_gate_read.specs.Reading.{IsReading};
ghost use Rattle.vv_gate_lex.specs.Lexical.{tokens_of};
ghost use Rattle.vv_gate_text.specs.Made.{module_of};
ghost use Rattle.vv_gate_text.specs.Map.{map_of};
ghost use Rattle.vv_gate_text.specs.Names.{mangled};
ghost use Rattle.vv_gate_text.specs.Text.{text_of};
ghost use Rattle.vv_trans.specs.Parsing.{judged, offset_of, parsed, syntax};
ghost use Rattle.vv_vlex.specs.Elements.{lexeme_of};
ghost use Rattle.vv_trans.specs.Translation.{bytes_of, folded, gate_report, lexing, parsing, reading_of, report, told, written_of, ForRefused, IsTranslation, IsTranslated, IsRefusal, Stands, Report, IsReport};
ghost use Rattle.vv_vast.specs.Flat.{Flat, FlatDesign};
ghost use Rattle.vv_vast.specs.Grammar.{VerilogText};

use crate::out::Out;
use crate::whole::written;
use std::alloc::Global;
use vv_base::fault::{Fault, Refusal, Rule, Span};
use vv_base::text::ByteList;
use vv_gate::tree::GateFile;
use vv_gate_check::first_broken;
use vv_gate_read::reader::{ReadFault, read};
use vv_gate_text::map::map;
use vv_gate_text::text::text;
use vv_grammar::edition::Edition;
use vv_grammar::starts::FILE;
use vv_grammar::terminal::{Terminal, terminals_of_elements};
use vv_machine::machine::{Stop, run};
use vv_vlex::element::Lexeme;
use vv_vlex::lexer::elements;

/// A refusal at a place of a file.
fn refused(rule: Rule, file: u32, at: usize) -> Fault
    requires { at ≤ 16777216 }
    ensures told { ForRefused result (λ r. told r ≡ record { rule = rule; file = file; at = at }) }
    ensures file { ForRefused result (λ r. r.span.file ≡ file) }
    ensures inside { (n : ℕ) → at ≤ n → ForRefused result (λ r. r.span.at ≤ n) }
{
    let span = Span {
        file,
        at: at as u32,
        len: 0,
    };
    Fault::Refused(Refusal { rule, span })
}

/// The limit and the lexical elements of each file, in order. No later phase uses the elements, so they are not kept.
fn lex_files(alloc: Global, files: &[&[u8]]) -> Result<(), Fault>
    requires { length files.now ≤ 255 }
    ensures lexed { OnOk result (lexing 0 (bytes_of files.now) ≡ None) }
    ensures refused { IfErr result (λ fault. ForRefused fault (λ r. lexing 0 (bytes_of files.now) ≡ Some (told r))) }
{
    for (number, file) in files.iter().enumerate() {
        if let Err(fault) = elements(alloc, number as u32, file) {
            return Err(fault);
        }
    }
    Ok(())
}

/// A refusal at an element.
fn at_element(rule: Rule, number: u32, elements: &[Lexeme<'_>], element: usize) -> Fault
    ensures rule { ForRefused result (λ r. r.rule ≡ rule) }
    ensures at { ForRefused result (λ r. r.span.at ≡ offset_of (slice_get (map lexeme_of elements.now) element)) }
    ensures file { ForRefused result (λ r. r.span.file ≡ number) }
{
    let span = match elements.get(element) {
        Some(lexeme) => Span {
            file: number,
            at: lexeme.at,
            len: lexeme.len,
        },
        None => Span {
            file: number,
            at: 0,
            len: 0,
        },
    };
    Fault::Refused(Refusal { rule, span })
}

/// The syntax of the elements of a file.
fn judge(
    alloc: Global,
    number: u32,
    elements: &[Lexeme<'_>],
    terminals: &[Terminal],
) -> Result<(), Fault>
    ensures passed { OnOk result (judged (map lexeme_of elements.now) (parsed terminals.now) ≡ None) }
    ensures refused { IfErr result (λ fault. ForRefused fault (λ r. judged (map lexeme_of elements.now) (parsed terminals.now) ≡ Some (record { rule = r.rule; at = r.span.at }))) }
    ensures file { IfErr result (λ fault. ForRefused fault (λ r. r.span.file ≡ number)) }
{
    match run(alloc, Edition::Vhdl93, &FILE, terminals, 0) {
        Ok(_) => Ok(()),
        Err(Stop::Memory) => Err(Fault::Memory),
        Err(Stop::Misplaced(element)) => Err(at_element(Rule::Y1, number, elements, element)),
        Err(Stop::Deep(element)) => Err(at_element(Rule::Y2, number, elements, element)),
    }
}

/// The syntax of a file whose elements are sound.
#[tactic(auto, unfolding(crate::specs::Parsing::syntax))]
fn parse_file(alloc: Global, number: u32, file: &[u8]) -> Result<(), Fault>
    ensures passed { OnOk result (syntax file.now ≡ None) }
    ensures refused { IfErr result (λ fault. ForRefused fault (λ r. syntax file.now ≡ Some (record { rule = r.rule; at = r.span.at }))) }
    ensures file { IfErr result (λ fault. ForRefused fault (λ r. r.span.file ≡ number)) }
{
    match elements(alloc, number, file) {
        Ok(found) => match terminals_of_elements(alloc, found.as_slice()) {
            Ok(terminals) => judge(alloc, number, found.as_slice(), terminals.as_slice()),
            Err(_) => Err(Fault::Memory),
        },
        // The phase before this one has told it.
        Err(Fault::Refused(_)) => Ok(()),
        Err(Fault::Memory) => Err(Fault::Memory),
    }
}

/// The syntax of each file, in order. No later phase uses the reading, so it is not kept.
fn parse_files(alloc: Global, files: &[&[u8]]) -> Result<(), Fault>
    requires { length files.now ≤ 255 }
    ensures parsed { OnOk result (parsing 0 (bytes_of files.now) ≡ None) }
    ensures refused { IfErr result (λ fault. ForRefused fault (λ r. parsing 0 (bytes_of files.now) ≡ Some (told r))) }
{
    for (number, file) in files.iter().enumerate() {
        if let Err(fault) = parse_file(alloc, number as u32, file) {
            return Err(fault);
        }
    }
    Ok(())
}

/// The tree of a file whose letters are folded to lower case.
fn tree_of<'a>(alloc: Global, bytes: &'a [u8]) -> Result<GateFile<'a>, Fault>
    requires { length bytes.now ≤ 16777216 }
    ensures tree { IfOk result (λ f. IsReading (file_of f) (tokens_of bytes.now)) }
    ensures reads { IfOk result (λ f. drive start (tokens_of bytes.now) ≡ Reads (file_of f)) }
    ensures rule { IfErr result (λ fault. ForRefused fault (λ r. told r ≡ record { rule = Y1; file = 0; at = r.span.at })) }
    ensures file { IfErr result (λ fault. ForRefused fault (λ r. r.span.file ≡ 0)) }
    ensures stops { IfErr result (λ fault. ForRefused fault (λ r. drive start (tokens_of bytes.now) ≡ Stops r.span.at)) }
    ensures inside { IfErr result (λ fault. ForRefused fault (λ r. r.span.at ≤ length bytes.now)) }
{
    match read(alloc, bytes) {
        Ok(tree) => Ok(tree),
        Err(ReadFault::Misplaced(at)) => Err(refused(Rule::Y1, 0, at)),
        Err(ReadFault::Memory) => Err(Fault::Memory),
    }
}

/// Text and map of a sound tree.
fn out_of(alloc: Global, tree: &GateFile<'_>) -> Result<Out, Fault>
    requires { IsPlaced (file_of tree.now) }
    ensures text { IfOk result (λ out. out.text ≡ text_of (file_of tree.now)) }
    ensures verilog { IfOk result (λ out. VerilogText (module_of (file_of tree.now) ∷ []) out.text) }
    ensures flat { IfOk result (λ out. (top : List ℕ) → IsSound top (file_of tree.now) → (flat : Flat) × FlatDesign (module_of (file_of tree.now) ∷ []) (mangled (file_of tree.now).entity.text) flat) }
    ensures map { IfOk result (λ out. out.map ≡ map_of (file_of tree.now)) }
{
    let text = ByteList::from_vec(text(alloc, tree)?);
    let map = ByteList::from_vec(map(alloc, tree)?);
    Ok(Out { text, map })
}

/// The translation of one file of gates, or the rule that it breaks first and the place.
fn translate_gates(alloc: Global, file: &[u8], top: &str) -> Result<Out, Fault>
    requires { length file.now ≤ 16777216 }
    ensures accepted { IfOk result (λ out. gate_report (folded top.now) (reading_of file.now) ≡ None) }
    ensures text { IfOk result (λ out. out.text ≡ (written_of (reading_of file.now)).text) }
    ensures map { IfOk result (λ out. out.map ≡ (written_of (reading_of file.now)).map) }
    ensures stands { IfOk result (λ out. IsTranslation top.now file.now out.text out.map) }
    ensures refused { IfErr result (λ fault. ForRefused fault (λ r. gate_report (folded top.now) (reading_of file.now) ≡ Some (told r))) }
    ensures file { IfErr result (λ fault. ForRefused fault (λ r. r.span.file ≡ 0)) }
    ensures inside { IfErr result (λ fault. ForRefused fault (λ r. r.span.at ≤ length file.now)) }
{
    let folded = file.to_ascii_lowercase(alloc)?;
    let name = top.as_bytes().to_ascii_lowercase(alloc)?;
    let tree = match tree_of(alloc, folded.as_slice()) {
        Ok(tree) => tree,
        Err(fault) => return Err(fault),
    };
    match first_broken(alloc, &tree, name.as_slice()) {
        Ok(None) => match out_of(alloc, &tree) {
            Ok(out) => Ok(out),
            Err(_) => Err(Fault::Memory),
        },
        Ok(Some(at)) => Err(refused(Rule::N1, 0, at)),
        Err(_) => Err(Fault::Memory),
    }
}

/// The first path: one file of gates is read and checked. Where there are more files, the second one is `Y1` at its start, and no file at
/// all is `Y1` at the start of the first.
fn first_path(alloc: Global, files: &[&[u8]], top: &str) -> Result<Out, Fault>
    requires few { length files.now ≤ 255 }
    requires lexed { lexing 0 (bytes_of files.now) ≡ None }
    requires parsed { parsing 0 (bytes_of files.now) ≡ None }
    ensures stands { IfOk result (λ out. Stands top.now (bytes_of files.now) out.text out.map) }
    ensures refused { IfErr result (λ fault. ForRefused fault (λ r. report top.now (bytes_of files.now) ≡ Some (told r))) }
{
    match files {
        [] => Err(refused(Rule::Y1, 0, 0)),
        [file] => translate_gates(alloc, file, top),
        [_, _, ..] => Err(refused(Rule::Y1, 1, 0)),
    }
}

/// A refusal as it is, where its place lies in one of the files. Each phase tells places of the files alone, so there is no other.
fn within(files: &[&[u8]], refusal: Refusal) -> Fault
    ensures same { ForRefused result (λ r. r ≡ refusal) }
    ensures file { ForRefused result (λ r. r.span.file < length files.now) }
    ensures inside { ForRefused result (λ r. r.span.at ≤ length (get_or (bytes_of files.now) r.span.file [])) }
{
    match files.get(refusal.span.file as usize) {
        Some(file) if refusal.span.at as usize <= file.len() => Fault::Refused(refusal),
        _ => Fault::Memory,
    }
}

/// The way of all files that are no file of gates: the phases over their units, and the writer.
fn whole_path(alloc: Global, files: &[&[u8]], top: &str, first: Refusal) -> Result<Out, Fault>
    requires lexed { lexing 0 (bytes_of files.now) ≡ None }
    requires parsed { parsing 0 (bytes_of files.now) ≡ None }
    requires first { report top.now (bytes_of files.now) ≡ Some (told first) }
    ensures translated { IfOk result (λ out. IsTranslated top.now (bytes_of files.now) out.text out.map) }
    ensures refused { IfErr result (λ fault. ForRefused fault (λ r. IsRefusal top.now (bytes_of files.now) (told r))) }
    ensures file { IfErr result (λ fault. ForRefused fault (λ r. r.span.file < length files.now)) }
    ensures inside { IfErr result (λ fault. ForRefused fault (λ r. r.span.at ≤ length (get_or (bytes_of files.now) r.span.file []))) }
{
    match written(alloc, files, top, Edition::Vhdl93) {
        Ok(out) => Ok(out),
        Err(Fault::Refused(refusal)) => Err(within(files, refusal)),
        Err(Fault::Memory) => Err(Fault::Memory),
    }
}

/// The translation of the files, or the rule that they break first, with the file and the place. The letter case of `top`
/// is folded.
///
/// The phases, of which the first with a broken rule reports:
///
/// 1. The limit and the lexical elements of every file. The first file that breaks one of `L1` and `X1` to `X5` is told.
/// 2. The syntax of every file. The first file that breaks `Y1` or `Y2` is told.
/// 3. One file of gates that breaks none of its conditions is translated at once.
/// 4. All other files go through names and types, elaboration, templates and drivers.
pub fn translate(alloc: Global, files: &[&[u8]], top: &str) -> Result<Out, Fault>
    requires { length files.now ≤ 255 }
    ensures translated { IfOk result (λ out. IsTranslated top.now (bytes_of files.now) out.text out.map) }
    ensures refused { IfErr result (λ fault. ForRefused fault (λ r. IsRefusal top.now (bytes_of files.now) (told r))) }
    ensures file { IfErr result (λ fault. ForRefused fault (λ r. 0 < length files.now → r.span.file < length files.now)) }
    ensures inside { IfErr result (λ fault. ForRefused fault (λ r. r.span.at ≤ length (get_or (bytes_of files.now) r.span.file []))) }
{
    if let Err(fault) = lex_files(alloc, files) {
        return Err(fault);
    }
    if let Err(fault) = parse_files(alloc, files) {
        return Err(fault);
    }
    match first_path(alloc, files, top) {
        Ok(out) => Ok(out),
        Err(Fault::Memory) => Err(Fault::Memory),
        Err(Fault::Refused(first)) => whole_path(alloc, files, top, first),
    }
}
