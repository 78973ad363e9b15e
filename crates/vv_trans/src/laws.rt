//! What the report of files says, in the words of the rules.

ghost use Rattle.std.specs.Prelude.{◌≡◌, None, Some};
ghost use Rattle.vv_trans.specs.Translation.{bytes_of, reading, report, Report, IsReport, IsAccepted};

/// Files are reported exactly where a rule is broken, by that rule, in its file and at its place; else there is one file, a text of the grammar
/// that breaks none. What reading tells is told first.
pub fn report_is_exact(files: &[&[u8]], top: &[u8])
    ensures told { (r : Report) → report top.now (bytes_of files.now) ≡ Some r → IsReport top.now (bytes_of files.now) r }
    ensures only { (r : Report) → IsReport top.now (bytes_of files.now) r → report top.now (bytes_of files.now) ≡ Some r }
    ensures read { (r : Report) → reading (bytes_of files.now) ≡ Some r → report top.now (bytes_of files.now) ≡ Some r }
    ensures accepted { report top.now (bytes_of files.now) ≡ None → IsAccepted top.now (bytes_of files.now) }
{}
