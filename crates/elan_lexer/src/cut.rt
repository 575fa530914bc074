//! The piece at the front of a text: white space, a comment or a token.

ghost use Rattle.std.specs.Prelude.{◌≡◌, ◌<◌, ◌≤◌, ◌+◌, ℕ, length, drop, take, slice_index, nat_le, IfSome, IfOk};
ghost use Rattle.elan_lexer.specs.Bytes as byte;
ghost use Rattle.elan_lexer.specs.Cut as spec;

use crate::bytes::{Class, begins, begins_pair, is_digit, is_in, is_letter, is_visible, is_white};
use crate::fault::Fault;
use crate::token::Kind;

/// The kind and the length in bytes of the piece at the front of a text that is not empty. White space and comments
/// have no kind.
#[tactic(auto, unfolding(crate::specs::Cut::piece))]
pub fn piece(bytes: &[u8]) -> Result<(Option<Kind>, usize), Fault>
    requires some { 0 < length bytes.now }
    requires short { length bytes.now < 4294967296 }
    ensures value { result ≡ spec.piece (slice_index bytes.now 0) (drop 1 bytes.now) }
    ensures within { IfOk result (λ found. (0 < found.1) × (found.1 ≤ length bytes.now)) }
{
    let b = bytes[0];
    let rest = &bytes[1..];
    if is_white(b) {
        Ok((None, 1))
    } else if is_letter(b) {
        Ok((Some(Kind::Word), run(Class::Word, rest) + 1))
    } else if is_digit(b) {
        number(run(Class::Digit, rest) + 1, bytes)
    } else if b == 47 {
        slash(rest)
    } else if is_visible(b) {
        Ok((Some(Kind::Sign), if begins_pair(b, rest) { 2 } else { 1 }))
    } else {
        Err(Fault::BadByte)
    }
}

/// How many bytes of a class stand at the front.
fn run(class: Class, bytes: &[u8]) -> usize
    ensures value { result ≡ spec.run (byte.is_in class) bytes.now }
    ensures within { result ≤ length bytes.now }
{
    let mut count = 0;
    let mut left = bytes;
    'bytes: while let [b, rest @ ..] = left {
        if !is_in(class, *b) {
            return count;
        }
        count += 1;
        left = rest;
    }
    count
}

/// A number of so many digits, or its fault.
#[tactic(auto, unfolding(crate::specs::Cut::number))]
fn number(count: usize, bytes: &[u8]) -> Result<(Option<Kind>, usize), Fault>
    requires { count ≤ length bytes.now }
    ensures value { result ≡ spec.number count bytes.now }
    ensures within { IfOk result (λ found. found.1 ≡ count) }
{
    if fits(&bytes[..count]) {
        Ok((Some(Kind::Number), count))
    } else {
        Err(Fault::TooLarge)
    }
}

/// Whether a number's digits are within its range.
#[tactic(auto, using(crate::proofs::Counts::value_ge))]
fn fits(digits: &[u8]) -> bool
    ensures { result ≡ nat_le (byte.value digits.now) byte.max_number }
{
    let mut value = 0u64;
    let mut left = digits;
    'digits: while let [b, rest @ ..] = left {
        let more = value
            .saturating_mul(10)
            .saturating_add(b.saturating_sub(48) as u64);
        if more > 9_223_372_036_854_775_807 {
            return false;
        }
        value = more;
        left = rest;
    }
    true
}

/// The piece that begins with a slash, before what is given: a comment or the sign.
#[tactic(auto, unfolding(crate::specs::Cut::slash))]
fn slash(bytes: &[u8]) -> Result<(Option<Kind>, usize), Fault>
    requires { length bytes.now < 4294967296 }
    ensures value { result ≡ spec.slash bytes.now }
    ensures within { IfOk result (λ found. (0 < found.1) × (found.1 ≤ length bytes.now + 1)) }
{
    if begins(47, bytes) {
        return Ok((None, run(Class::Line, bytes) + 1));
    }
    if begins(42, bytes) {
        return match close(&bytes[1..]) {
            Some(count) => Ok((None, count + 2)),
            None => Err(Fault::Unclosed),
        };
    }
    Ok((Some(Kind::Sign), 1))
}

/// How many bytes there are up to the end of a comment, that end included.
#[tactic(auto, using(crate::proofs::Counts::close_end, crate::proofs::Counts::close_step), unfolding(crate::specs::Cut::close))]
fn close(bytes: &[u8]) -> Option<usize>
    ensures value { result ≡ spec.close bytes.now }
    ensures within { IfSome result (λ n. n ≤ length bytes.now) }
{
    let mut count = 0;
    let mut left = bytes;
    'bytes: while let [b, rest @ ..] = left {
        if *b == 42 && begins(47, rest) {
            return Some(count + 2);
        }
        count += 1;
        left = rest;
    }
    None
}
