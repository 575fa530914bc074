//! Which words an operator's spelling may have.

ghost use Rattle.std.specs.Prelude.{◌≡◌};
ghost use Rattle.std.specs.List.{list_all, list_any};
ghost use Rattle.std.specs.Str.{bytes_eq};
ghost use Rattle.elan_program.specs.Spelling as spec;

fn is_letter(byte: u8) -> bool
    ensures { result ≡ spec.is_letter byte }
{
    (65 <= byte && byte <= 90) || (97 <= byte && byte <= 122)
}

fn is_digit(byte: u8) -> bool
    ensures { result ≡ spec.is_digit byte }
{
    48 <= byte && byte <= 57
}

fn are_in_word(bytes: &[u8]) -> bool
    ensures { result ≡ list_all spec.is_in_word bytes.now }
{
    match bytes {
        [] => true,
        [first, rest @ ..] => {
            (is_letter(*first) || (is_digit(*first) || *first == 95)) && are_in_word(rest)
        }
    }
}

fn is_word(text: &[u8]) -> bool
    ensures { result ≡ spec.is_word text.now }
{
    match text {
        [] => false,
        [first, rest @ ..] => is_letter(*first) && are_in_word(rest),
    }
}

/// Whether no spelling has this word.
#[tactic(auto, unfolding(crate::specs::Spelling::reserved))]
fn is_reserved(text: &[u8]) -> bool
    ensures { result ≡ list_any (bytes_eq text.now) spec.reserved }
{
    if text == b"module".as_slice() {
        true
    } else if text == b"import".as_slice() {
        true
    } else if text == b"sort".as_slice() {
        true
    } else if text == b"operators".as_slice() {
        true
    } else if text == b"rules".as_slice() {
        true
    } else if text == b"strategies".as_slice() {
        true
    } else if text == b"for".as_slice() {
        true
    } else if text == b"global".as_slice() {
        true
    } else if text == b"local".as_slice() {
        true
    } else if text == b"end".as_slice() {
        true
    } else if text == b"where".as_slice() {
        true
    } else if text == b"if".as_slice() {
        true
    } else if text == b"LPL".as_slice() {
        true
    } else {
        false
    }
}

/// Whether it is a sign of two bytes that a spelling may have.
#[tactic(auto, unfolding(crate::specs::Spelling::long_signs))]
fn is_long_sign(text: &[u8]) -> bool
    ensures { result ≡ list_any (bytes_eq text.now) spec.long_signs }
{
    if text == b"==".as_slice() {
        true
    } else if text == b"!=".as_slice() {
        true
    } else if text == b"<=".as_slice() {
        true
    } else if text == b">=".as_slice() {
        true
    } else {
        false
    }
}

fn is_sign_byte(byte: u8) -> bool
    ensures { result ≡ spec.is_sign_byte byte }
{
    (33 <= byte && byte <= 126)
        && (!(is_letter(byte) || is_digit(byte)) && !(byte == 64 || (byte == 58 || byte == 59)))
}

fn is_short_sign(text: &[u8]) -> bool
    ensures { result ≡ spec.is_short_sign text.now }
{
    match text {
        [byte] => is_sign_byte(*byte),
        _ => false,
    }
}

/// Whether the bytes are a word that is not reserved: a letter, followed by letters, digits and `_`.
#[tactic(auto, unfolding(crate::specs::Spelling::is_name))]
pub fn is_name(text: &[u8]) -> bool
    ensures { result ≡ spec.is_name text.now }
{
    is_word(text) && !is_reserved(text)
}

/// Whether a spelling may have this word: it is a word that is not reserved, or a sign.
#[tactic(auto, unfolding(crate::specs::Spelling::is_spelled))]
pub fn is_spelled(text: &[u8]) -> bool
    ensures { result ≡ spec.is_spelled text.now }
{
    is_name(text) || (is_long_sign(text) || is_short_sign(text))
}
