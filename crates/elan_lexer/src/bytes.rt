//! What a byte may be.

ghost use Rattle.std.specs.Prelude.{◌≡◌, ◌<◌, ℕ, length, true};
ghost use Rattle.elan_lexer.specs.Bytes as spec;

/// A class of bytes that a piece may go on with.
#[derive(Clone, Copy, Debug)]
pub enum Class {
    /// A letter, a digit or `_`, in a word.
    Word,
    /// A digit, in a number.
    Digit,
    /// Any byte but a line feed, in a comment of one line.
    Line,
}

/// Whether it is a letter from `A` to `Z` or from `a` to `z`.
pub fn is_letter(b: u8) -> bool
    ensures { result ≡ spec.is_letter b }
{
    (65 <= b && b <= 90) || (97 <= b && b <= 122)
}

/// Whether it is a digit.
pub fn is_digit(b: u8) -> bool
    ensures { result ≡ spec.is_digit b }
{
    48 <= b && b <= 57
}

/// Whether it is a tab, a line feed, a carriage return or a space.
pub fn is_white(b: u8) -> bool
    ensures { result ≡ spec.is_white b }
{
    b == 9 || b == 10 || b == 13 || b == 32
}

/// Whether it may stand in a token.
pub fn is_visible(b: u8) -> bool
    ensures { result ≡ spec.is_visible b }
{
    33 <= b && b <= 126
}

/// Whether it is of the class.
#[tactic(auto, unfolding(crate::specs::Bytes::is_in))]
pub fn is_in(class: Class, b: u8) -> bool
    ensures { result ≡ spec.is_in class b }
{
    match class {
        Class::Word => is_letter(b) || is_digit(b) || b == 95,
        Class::Digit => is_digit(b),
        Class::Line => b != 10,
    }
}

/// Whether a text begins with this byte.
pub fn begins(c: u8, bytes: &[u8]) -> bool
    ensures value { result ≡ spec.begins c bytes.now }
    ensures some { result ≡ true → 0 < length bytes.now }
{
    match bytes {
        [b, ..] => *b == c,
        [] => false,
    }
}

/// Whether two bytes are one sign.
fn is_pair(b: u8, c: u8) -> bool
    ensures { result ≡ spec.is_pair b c }
{
    (b == 61 && (c == 62 || c == 61)) || ((b == 58 || b == 33 || b == 60 || b == 62) && c == 61)
}

/// Whether a byte and the one at the front of what follows are one sign.
pub fn begins_pair(b: u8, bytes: &[u8]) -> bool
    ensures value { result ≡ spec.begins_pair b bytes.now }
    ensures some { result ≡ true → 0 < length bytes.now }
{
    match bytes {
        [c, ..] => is_pair(b, *c),
        [] => false,
    }
}
