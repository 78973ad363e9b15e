//! The words of the commands that are no translation.

ghost use Rattle.std.specs.Prelude.{◌≡◌, false, None};
ghost use Rattle.vv_top.specs.Words.{is_further};

use crate::words::{MOST_FILES, begins_with_dash, differ};

/// The most stages of a design that is made.
const MOST_STAGES: u32 = 1024;

/// The greatest number that a design is drawn from.
const MOST_SEED: u32 = 65535;

/// A command that is no translation.
#[derive(Clone, Copy)]
pub enum Order<'a> {
    ReplayDesign(DesignReplay<'a>),
    ReplayText(TextReplay<'a>),
    Compare(Comparison<'a>),
    Generate(Generation<'a>),
}

/// `replay vhdl TOP STIM FILE ..`
#[derive(Clone, Copy)]
pub struct DesignReplay<'a> {
    pub top: &'a str,
    pub stimulus: &'a str,
    /// 1 to 255 names.
    pub files: &'a [&'a str],
}

/// `replay verilog TOP STIM MAP TEXT`
#[derive(Clone, Copy)]
pub struct TextReplay<'a> {
    pub top: &'a str,
    pub stimulus: &'a str,
    pub map: &'a str,
    pub text: &'a str,
}

/// `compare TOP STIM MAP TEXT FILE ..`
#[derive(Clone, Copy)]
pub struct Comparison<'a> {
    pub top: &'a str,
    pub stimulus: &'a str,
    pub map: &'a str,
    pub text: &'a str,
    /// 1 to 255 names.
    pub files: &'a [&'a str],
}

/// `gen STAGES SEED FILE STIM OUT MAP`
#[derive(Clone, Copy)]
pub struct Generation<'a> {
    /// 1 to 1,024.
    pub stages: u32,
    /// 0 to 65,535.
    pub seed: u32,
    pub source: &'a str,
    pub stimulus: &'a str,
    pub output: &'a str,
    pub map: &'a str,
}

impl<'a> Order<'a> {
    /// The command that the words are, and none where they are no command or a translation.
    pub fn from_words(words: &'a [&'a str]) -> Option<Order<'a>>
        ensures { is_further words.now ≡ false → result ≡ None }
    {
        let [verb, rest @ ..] = words else {
            return None;
        };
        if *verb == "replay" {
            return replay_of(rest);
        }
        if *verb == "compare" {
            return comparison_of(rest);
        }
        if *verb == "gen" {
            return generation_of(rest);
        }
        None
    }
}

/// What stands behind `replay`.
fn replay_of<'a>(words: &'a [&'a str]) -> Option<Order<'a>> {
    let [side, rest @ ..] = words else {
        return None;
    };
    if *side == "vhdl" {
        return design_replay_of(rest);
    }
    if *side == "verilog" {
        return text_replay_of(rest);
    }
    None
}

/// What stands behind `replay vhdl`.
fn design_replay_of<'a>(words: &'a [&'a str]) -> Option<Order<'a>> {
    let [top, stimulus, files @ ..] = words else {
        return None;
    };
    if begins_with_dash(top) || !are_files(files) {
        return None;
    }
    Some(Order::ReplayDesign(DesignReplay {
        top: *top,
        stimulus: *stimulus,
        files,
    }))
}

/// What stands behind `replay verilog`.
fn text_replay_of<'a>(words: &'a [&'a str]) -> Option<Order<'a>> {
    let [top, stimulus, map, text] = words else {
        return None;
    };
    if begins_with_dash(top) {
        return None;
    }
    Some(Order::ReplayText(TextReplay {
        top: *top,
        stimulus: *stimulus,
        map: *map,
        text: *text,
    }))
}

/// What stands behind `compare`.
fn comparison_of<'a>(words: &'a [&'a str]) -> Option<Order<'a>> {
    let [top, stimulus, map, text, files @ ..] = words else {
        return None;
    };
    if begins_with_dash(top) || !are_files(files) {
        return None;
    }
    Some(Order::Compare(Comparison {
        top: *top,
        stimulus: *stimulus,
        map: *map,
        text: *text,
        files,
    }))
}

/// What stands behind `gen`. The names of the files differ from each other.
fn generation_of<'a>(words: &'a [&'a str]) -> Option<Order<'a>> {
    let [stages, seed, names @ ..] = words else {
        return None;
    };
    let [source, stimulus, output, map] = names else {
        return None;
    };
    let stages = number(stages)?;
    let seed = number(seed)?;
    if stages == 0 || stages > MOST_STAGES || seed > MOST_SEED || !differ(names) {
        return None;
    }
    Some(Order::Generate(Generation {
        stages,
        seed,
        source: *source,
        stimulus: *stimulus,
        output: *output,
        map: *map,
    }))
}

/// Whether a command may have so many files.
fn are_files(files: &[&str]) -> bool {
    !files.is_empty() && files.len() <= MOST_FILES
}

/// A number of at most five decimal digits, without leading zeros.
fn number(word: &str) -> Option<u32> {
    let digits = word.as_bytes();
    if digits.is_empty()
        || digits.len() > 5
        || (digits.len() > 1 && digits.first() == Some(&b'0'))
    {
        return None;
    }
    let mut value: u32 = 0;
    for byte in digits {
        if !byte.is_ascii_digit() {
            return None;
        }
        let digit = u32::from(byte.saturating_sub(b'0'));
        value = value.saturating_mul(10).saturating_add(digit);
    }
    Some(value)
}
