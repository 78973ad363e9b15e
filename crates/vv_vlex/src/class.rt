//! Classes of bytes, and runs of them.

ghost use Rattle.std.specs.Prelude.{◌≡◌, ◌≤◌, ◌==◌, length};
ghost use Rattle.vv_vlex.specs.Bytes as spec;

/// Bytes that stand together in a word or a number, with single underscores between them.
#[derive(Clone, Copy, Debug, PartialEq, Eq)]
pub enum Class {
    /// Letters and digits.
    Alphanumeric,
    Decimal,
    /// The digits of a based literal, those that its base doesn't have among them: letters, digits and the point.
    Extended,
    Binary,
    Octal,
    Hexadecimal,
}

pub fn is_letter(byte: u8) -> bool
    ensures { result ≡ spec.is_letter byte }
{
    (byte >= b'a' && byte <= b'z') || (byte >= b'A' && byte <= b'Z')
}

pub fn is_digit(byte: u8) -> bool
    ensures { result ≡ spec.is_digit byte }
{
    byte >= b'0' && byte <= b'9'
}

pub fn is_blank(byte: u8) -> bool
    ensures { result ≡ spec.is_blank byte }
{
    byte == b' ' || (byte >= b'\t' && byte <= b'\r')
}

/// Printable ASCII.
pub fn is_printable(byte: u8) -> bool
    ensures { result ≡ spec.is_printable byte }
{
    byte >= b' ' && byte <= b'~'
}

/// The value of a digit, a letter or the point as a digit.
pub fn digit(byte: u8) -> u32
    ensures value { result ≡ spec.digit byte }
    ensures below { result ≤ 255 }
{
    if is_digit(byte) {
        return u32::from(byte - b'0');
    }
    if byte >= b'a' && byte <= b'z' {
        return u32::from(byte - b'a') + 10;
    }
    if byte >= b'A' && byte <= b'Z' {
        return u32::from(byte - b'A') + 10;
    }
    36
}

impl Class {
    pub fn has(self, byte: u8) -> bool
        ensures { result ≡ spec.has self byte }
    {
        match self {
            Class::Alphanumeric => is_letter(byte) || is_digit(byte),
            Class::Decimal => is_digit(byte),
            Class::Extended => is_letter(byte) || is_digit(byte) || byte == b'.',
            Class::Binary => digit(byte) < 2,
            Class::Octal => digit(byte) < 8,
            Class::Hexadecimal => digit(byte) < 16,
        }
    }
}

pub fn begins_with(bytes: &[u8], byte: u8) -> bool
    ensures { result ≡ spec.begins (λ c. c == byte) bytes.now }
{
    match bytes {
        [first, ..] => *first == byte,
        [] => false,
    }
}

pub fn begins_in(class: Class, bytes: &[u8]) -> bool
    ensures { result ≡ spec.begins (spec.has class) bytes.now }
{
    match bytes {
        [first, ..] => class.has(*first),
        [] => false,
    }
}

/// How many bytes go on with a word or a number of this class.
pub fn tail(class: Class, bytes: &[u8]) -> usize
    ensures value { result ≡ spec.tail (spec.has class) bytes.now }
    ensures within { result ≤ length bytes.now }
{
    let mut rest = bytes;
    let mut count = 0;
    'tail: while let [first, more @ ..] = rest {
        if !class.has(*first) && !(*first == b'_' && begins_in(class, more)) {
            break;
        }
        rest = more;
        count += 1;
    }
    count
}

/// How many bytes of this class stand in front, with single underscores between them.
pub fn grouped(class: Class, bytes: &[u8]) -> usize
    ensures value { result ≡ spec.grouped (spec.has class) bytes.now }
    ensures within { result ≤ length bytes.now }
{
    match bytes {
        [first, more @ ..] => {
            if class.has(*first) {
                tail(class, more) + 1
            } else {
                0
            }
        }
        [] => 0,
    }
}
