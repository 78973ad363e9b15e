use std::alloc::Global;
use std::test::Fail;
use vv_base::fault::{Fault, Name, Refusal, Rule, Span};
use vv_base::names::Names;
use vv_base::text::ByteList;
use vv_vlex::element::Element;
use vv_vlex::lexer::elements;
use vv_vlex::sign::Sign;
use vv_vlex::token::TokenKind;
use vv_vlex::tokens::lex;
use vv_vlex::word::{WORDS, Word};

/// Texts that are one element.
static ONE: [(&[u8], Element<'static>); 41] = [
    (b"a", Element::Id(b"a")),
    (b"Ab_3_c", Element::Id(b"Ab_3_c")),
    (b"b", Element::Id(b"b")),
    (b"ranges", Element::Id(b"ranges")),
    (b"RaNGe", Element::Word(Word::Range)),
    (b"configuration", Element::Word(Word::Configuration)),
    (b"0", Element::Int(0)),
    (b"1_000", Element::Int(1000)),
    (b"2147483647", Element::Int(2147483647)),
    (b"000000000000000000000007", Element::Int(7)),
    (b"1E9", Element::Int(1000000000)),
    (b"12e+2", Element::Int(1200)),
    (b"1E0_1", Element::Int(10)),
    (b"0E99999999999999999999", Element::Int(0)),
    (b"16#7FFF_FFFF#", Element::Int(2147483647)),
    (b"1_6#fE#", Element::Int(254)),
    (b"2#1#E30", Element::Int(1073741824)),
    (b"016#F#e1", Element::Int(240)),
    (b"'a'", Element::Char(b'a')),
    (b"'''", Element::Char(b'\'')),
    (b"' '", Element::Char(b' ')),
    (
        b"\"\"",
        Element::Str {
            written: b"\"\"",
            inner: b"",
        },
    ),
    (
        b"\"a b\"",
        Element::Str {
            written: b"\"a b\"",
            inner: b"a b",
        },
    ),
    (
        b"\"a\"\"b\"",
        Element::Str {
            written: b"\"a\"\"b\"",
            inner: b"a\"\"b",
        },
    ),
    (
        b"\"\"\"\"",
        Element::Str {
            written: b"\"\"\"\"",
            inner: b"\"\"",
        },
    ),
    (
        b"\"--\"",
        Element::Str {
            written: b"\"--\"",
            inner: b"--",
        },
    ),
    (b"B\"01_1\"", Element::BitStr(b"B\"01_1\"")),
    (b"o\"17\"", Element::BitStr(b"o\"17\"")),
    (b"X\"1_F\"", Element::BitStr(b"X\"1_F\"")),
    (b"'", Element::Sign(Sign::Tick)),
    (b":=", Element::Sign(Sign::Becomes)),
    (b"<>", Element::Sign(Sign::Unconstrained)),
    (b"<=", Element::Sign(Sign::LessEqual)),
    (b"=>", Element::Sign(Sign::Arrow)),
    (b"/=", Element::Sign(Sign::NotEqual)),
    (b">=", Element::Sign(Sign::GreaterEqual)),
    (b"**", Element::Sign(Sign::StarStar)),
    (b"|", Element::Sign(Sign::Bar)),
    (b"-", Element::Sign(Sign::Minus)),
    (b"&", Element::Sign(Sign::Ampersand)),
    (b".", Element::Sign(Sign::Dot)),
];

fn single_elements() -> &'static [(&'static [u8], Element<'static>)] {
    &ONE
}

/// Texts with their elements' offsets and lengths, the end left out.
static PLACES: [(&[u8], &[(u32, u32)]); 16] = [
    (b"", &[]),
    (b" \t\r\n\x0b\x0c", &[]),
    (b"--", &[]),
    (b"a--b", &[(0, 1)]),
    (b"a --\xff\x00\n b", &[(0, 1), (8, 1)]),
    (b"a--\rb\nc", &[(0, 1), (6, 1)]),
    (b"a'b'c", &[(0, 1), (1, 1), (2, 1), (3, 1), (4, 1)]),
    (b"a ('b'", &[(0, 1), (2, 1), (3, 3)]),
    (b")'b'", &[(0, 1), (1, 1), (2, 1), (3, 1)]),
    (b"all'b'", &[(0, 3), (3, 1), (4, 1), (5, 1)]),
    (b"is'b'", &[(0, 2), (2, 3)]),
    (b"range -- c\n 'b'", &[(0, 5), (12, 1), (13, 1), (14, 1)]),
    (b"''''", &[(0, 3), (3, 1)]),
    (b"a:=-1;", &[(0, 1), (1, 2), (3, 1), (4, 1), (5, 1)]),
    (b"ab\"01\"", &[(0, 2), (2, 4)]),
    (b"<=>=*****", &[(0, 2), (2, 2), (4, 2), (6, 2), (8, 1)]),
];

fn placed_elements() -> &'static [(&'static [u8], &'static [(u32, u32)])] {
    &PLACES
}

/// Texts that break a rule, and where.
static BROKEN: [(&[u8], Rule, u32); 41] = [
    (b" \x80", Rule::X1, 1),
    (b"a\xe9", Rule::X1, 1),
    (b"a !", Rule::X1, 2),
    (b"_a", Rule::X1, 0),
    (b"; a_", Rule::X1, 2),
    (b"a__b", Rule::X1, 0),
    (b"is_", Rule::X1, 0),
    (b"1__2", Rule::X1, 1),
    (b"1_", Rule::X1, 1),
    (b"1_a", Rule::X1, 1),
    (b"17#0#", Rule::X1, 2),
    (b"1#0#", Rule::X1, 1),
    (b"2##", Rule::X1, 1),
    (b"2#1", Rule::X1, 1),
    (b"\"a\x80\n", Rule::X1, 0),
    (b"\"a\t\"", Rule::X1, 0),
    (b"\"", Rule::X2, 0),
    (b"y <= \"01", Rule::X2, 5),
    (b"\"a\n\"", Rule::X2, 0),
    (b"\"a\r\"", Rule::X2, 0),
    (b"\"a\"\"", Rule::X2, 3),
    (b"x\"01", Rule::X2, 1),
    (b"2147483648", Rule::X3, 0),
    (b"a 99999999999999999999999999999999", Rule::X3, 2),
    (b"1E10", Rule::X3, 0),
    (b"1E99999999999999999999", Rule::X3, 0),
    (b"2#1#E31", Rule::X3, 0),
    (b"16#8000_0000#", Rule::X3, 0),
    (b"2#12#", Rule::X3, 0),
    (b"16#1G#", Rule::X3, 0),
    (b"16#F.F#", Rule::X3, 0),
    (b"1.5", Rule::X3, 0),
    (b"1a", Rule::X3, 0),
    (b"1E", Rule::X3, 0),
    (b"1E-1", Rule::X3, 0),
    (b"1E+", Rule::X3, 0),
    (b"16#F#h", Rule::X3, 0),
    (b"a\\b\\", Rule::X4, 1),
    (b"B\"\"", Rule::X5, 0),
    (b"x\"G\"", Rule::X5, 0),
    (b"B\"0__1\"", Rule::X5, 0),
];

fn broken_texts() -> &'static [(&'static [u8], Rule, u32)] {
    &BROKEN
}

fn reserved_words() -> &'static [(&'static [u8], Word)] {
    &WORDS
}

fn refusal(rule: Rule, at: u32, len: u32) -> Fault {
    let span = Span { file: 7, at, len };
    Fault::Refused(Refusal { rule, span })
}

/// The element of a text that is one element.
fn single<'a>(alloc: Global, text: &'a [u8]) -> Option<Element<'a>> {
    let found = elements(alloc, 7, text).ok()?;
    match found.as_slice() {
        [lexeme, end]
            if lexeme.at == 0 && lexeme.len as usize == text.len() && end.element == Element::End =>
            { Some(lexeme.element) }
        _ => None,
    }
}

#[test]
fn one_element(rt: HostRuntime) -> Result<(), Fail> {
    let alloc = rt.alloc();
    for &(text, element) in single_elements() {
        assert_eq!(rt; single(alloc, text), Some(element), "{text:?}");
    }
    for &(text, word) in reserved_words() {
        assert_eq!(rt; single(alloc, text), Some(Element::Word(word)));
    }
    Ok(())
}

#[test]
fn places(rt: HostRuntime) -> Result<(), Fail> {
    let alloc = rt.alloc();
    for &(text, wanted) in placed_elements() {
        let found = elements(alloc, 7, text);
        let Ok(found) = found else {
            assert!(rt; false, "{text:?}");
            return Ok(());
        };
        let mut places = Vec::new(alloc);
        for lexeme in &found {
            places.push((lexeme.at, lexeme.len))?;
        }
        let end = places.pop();
        assert_eq!(rt; places.as_slice(), wanted, "{text:?}");
        assert_eq!(rt; end, Some((text.len() as u32, 0)));
    }
    Ok(())
}

#[test]
fn broken(rt: HostRuntime) -> Result<(), Fail> {
    let alloc = rt.alloc();
    for &(text, rule, at) in broken_texts() {
        assert_eq!(rt;
            elements(alloc, 7, text).err(),
            Some(refusal(rule, at, 1)),
            "{text:?}"
        );
    }
    let mut most = vec![in alloc; b' '; 16_777_216]?;
    assert!(rt; elements(alloc, 7, most.as_slice()).is_ok());
    most.push(b' ')?;
    assert_eq!(rt;
        elements(alloc, 7, most.as_slice()).err(),
        Some(refusal(Rule::L1, 0, 0))
    );
    Ok(())
}

#[test]
fn names_of_tokens(rt: HostRuntime) -> Result<(), Fail> {
    let alloc = rt.alloc();
    let mut names = Names::new(alloc);
    let text = b"Ab;'K' \"O\"\"r\" aB x\"F\" 7 IS 'k';";
    let tokens = lex(alloc, 7, text, &mut names);
    let Ok(tokens) = tokens else {
        assert!(rt; false);
        return Ok(());
    };
    let wanted = [
        (TokenKind::Id(Name(0)), 0, 2),
        (TokenKind::Sign(Sign::Semicolon), 2, 1),
        (
            TokenKind::Char {
                byte: b'K',
                name: Name(1),
            },
            3,
            3,
        ),
        (
            TokenKind::Str {
                bytes: ByteList::from_slice(alloc, b"O\"r")?,
                name: Name(2),
            },
            7,
            6,
        ),
        (TokenKind::Id(Name(0)), 14, 2),
        (
            TokenKind::BitStr(ByteList::from_slice(alloc, b"x\"F\"")?),
            17,
            4,
        ),
        (TokenKind::Int(7), 22, 1),
        (TokenKind::Word(Word::Is), 24, 2),
        (
            TokenKind::Char {
                byte: b'k',
                name: Name(3),
            },
            27,
            3,
        ),
        (TokenKind::Sign(Sign::Semicolon), 30, 1),
        (TokenKind::End, 31, 0),
    ];
    assert_eq!(rt; tokens.as_slice().len(), wanted.len());
    let mut left = tokens.as_slice();
    for (kind, at, len) in &wanted {
        let [token, more @ ..] = left else {
            return Ok(());
        };
        assert_eq!(rt; &token.kind, kind);
        assert_eq!(rt;
            token.span,
            Span {
                file: 7,
                at: *at,
                len: *len
            }
        );
        left = more;
    }
    assert_eq!(rt; names.text(Name(1)), Some(&b"'4b"[..]));
    assert_eq!(rt; names.text(Name(2)), Some(&b"\"o\"\"r\""[..]));
    assert_eq!(rt; names.text(Name(3)), Some(&b"'6b"[..]));
    assert_eq!(rt;
        lex(alloc, 7, b"a b _", &mut names).err(),
        Some(refusal(Rule::X1, 4, 1))
    );
    Ok(())
}
