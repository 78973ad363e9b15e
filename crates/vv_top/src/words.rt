//! The words of a command line.

ghost use Rattle.std.specs.Prelude.{◌≡◌, bytes_eq, IfSome, option_map};
ghost use Rattle.std.specs.List.{list_any};
ghost use Rattle.vv_trans.specs.Translation.{bytes_of};
ghost use Rattle.vv_top.specs.Words.{begins_with_dash, differ};

/// A command has at most this many files.
pub const MOST_FILES: usize = 255;

/// A translation that was asked for.
#[derive(Clone, Copy)]
pub struct Command<'a> {
    /// The name of the entity to translate.
    pub top: &'a str,
    /// The file that takes the text.
    pub output: &'a str,
    /// The file that takes the map.
    pub map: &'a str,
    /// The files that are translated, 1 to 255.
    pub files: &'a [&'a str],
}

impl<'a> Command<'a> {
    ghost use Rattle.vv_top.specs.Words.{wanted, asked, IsLawful};

    /// The command `translate TOP OUT MAP FILE`, with further FILEs or none, that the words are. TOP begins with no `-`,
    /// there are at most 255 FILEs, and all names of files differ from each other.
    pub fn from_words(words: &'a [&'a str]) -> Option<Command<'a>>
        ensures command { option_map wanted result ≡ asked words.now }
        ensures lawful { IfSome result (λ command. IsLawful (wanted command)) }
    {
        let [verb, top, names @ ..] = words else {
            return None;
        };
        let [output, map, files @ ..] = names else {
            return None;
        };
        if *verb != "translate" || begins_with_dash(top) {
            return None;
        }
        if files.is_empty() || files.len() > MOST_FILES || !differ(names) {
            return None;
        }
        Some(Command {
            top: *top,
            output: *output,
            map: *map,
            files,
        })
    }
}

/// Whether a word begins with `-`, so that it is no top.
pub fn begins_with_dash(word: &str) -> bool
    ensures { result ≡ begins_with_dash word.now }
{
    match word.as_bytes() {
        [b'-', ..] => true,
        _ => false,
    }
}

fn stands_in(name: &str, names: &[&str]) -> bool
    ensures { result ≡ list_any (bytes_eq name.now) (bytes_of names.now) }
{
    let mut rest = names;
    'names: while let [other, more @ ..] = rest {
        if name == *other {
            return true;
        }
        rest = more;
    }
    false
}

/// Whether each name differs from all others, byte for byte.
pub fn differ(names: &[&str]) -> bool
    ensures { result ≡ differ (bytes_of names.now) }
{
    let mut rest = names;
    'names: while let [name, more @ ..] = rest {
        if stands_in(name, more) {
            return false;
        }
        rest = more;
    }
    true
}
