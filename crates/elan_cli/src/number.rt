//! Numbers in words.

ghost use Rattle.std.specs.Prelude.{◌≡◌, true};
ghost use Rattle.std.specs.Str.{all_ascii_digits};
ghost use Rattle.elan_cli.specs.Words as spec;

/// How many digits a number may have.
const MOST_DIGITS: usize = 19;

/// Whether each byte of the text is a digit.
fn has_digits_alone(text: &str) -> bool
    ensures { result ≡ all_ascii_digits text.now }
{
    text.as_bytes().iter().all(|byte| byte.is_ascii_digit())
}

/// Whether the text is 1 to 19 digits.
fn is_numeral(text: &str) -> bool
    ensures { result ≡ spec.is_numeral text.now }
{
    0 < text.len() && text.len() <= MOST_DIGITS && has_digits_alone(text)
}

/// The number that the text writes in 1 to 19 digits, where it is at least 1 and at most `most`.
pub(crate) fn number(text: &str, most: u32) -> Option<u32>
    ensures { result ≡ spec.number most text.now }
{
    if is_numeral(text) {
        in_range(text, most)
    } else {
        None
    }
}

/// The number that the digits write, where it is at least 1 and at most `most`.
fn in_range(digits: &str, most: u32) -> Option<u32>
    requires { spec.is_numeral digits.now ≡ true }
    ensures { result ≡ spec.in_range most digits.now }
{
    match digits.parse::<u32>() {
        Ok(number) if 0 < number && number <= most => Some(number),
        _ => None,
    }
}
