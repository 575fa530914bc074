//! A text that is written token by token.

ghost use Rattle.std.specs.Prelude.{◌≡◌, ◌∷◌, ◌++◌, ◌||◌, [], decimal, OnOk};
ghost use Rattle.elan_print.specs.Tokens as spec;
ghost use Rattle.elan_print.specs.Pages.{sheet, Puts};

use elan_text::NoMemory;
use itoa::Buffer;

/// The text so far.
#[derive(Debug, Drop)]
pub(crate) struct Page {
    pub text: Vec<u8>,
    /// Whether no space may stand before the next token.
    pub tight: bool,
}

/// Whether no space stands behind a token of a spelling.
fn opens(bytes: &[u8]) -> bool
    ensures { result ≡ spec.opens bytes.now }
{
    match bytes {
        [byte] => *byte == b'(' || (*byte == b'[' || *byte == b','),
        _ => false,
    }
}

/// Whether no space stands before a token of a spelling.
fn closes(bytes: &[u8]) -> bool
    ensures { result ≡ spec.closes bytes.now }
{
    match bytes {
        [byte] => {
            *byte == b')' || (*byte == b']' || (*byte == b'[' || (*byte == b',' || *byte == b'(')))
        }
        _ => false,
    }
}

/// A token behind the text: whether no space may stand before it, its bytes, and whether none may
/// stand behind it.
fn token_onto(page: &mut Page, before: bool, bytes: &[u8], after: bool) -> Result<(), NoMemory>
    ensures { OnOk result (sheet page.new ≡ record {
      text = page.old.text.items
          ++ (spec.space_unless (page.old.tight || before) ++ bytes.now);
      tight = after;
    }) }
{
    if !(page.tight || before) {
        page.text.push(b' ')?;
    }
    page.text.extend_from_slice(bytes)?;
    page.tight = after;
    Ok(())
}

/// A token of a spelling.
pub(crate) fn spelled_onto(page: &mut Page, bytes: &[u8]) -> Result<(), NoMemory>
    ensures { Puts result page.old page.new (spec.spelled bytes.now ∷ []) }
{
    token_onto(page, closes(bytes), bytes, opens(bytes))
}

/// A grouping parenthesis.
pub(crate) fn opening_onto(page: &mut Page) -> Result<(), NoMemory>
    ensures { Puts result page.old page.new (spec.opening ∷ []) }
{
    token_onto(page, false, b"(", true)
}

/// The parenthesis that closes a group.
pub(crate) fn closing_onto(page: &mut Page) -> Result<(), NoMemory>
    ensures { Puts result page.old page.new (spec.closing ∷ []) }
{
    token_onto(page, true, b")", false)
}

fn minus_onto(page: &mut Page) -> Result<(), NoMemory>
    ensures { Puts result page.old page.new (spec.minus ∷ []) }
{
    token_onto(page, false, b"-", true)
}

fn digits_onto(page: &mut Page, value: u64) -> Result<(), NoMemory>
    ensures { Puts result page.old page.new (spec.digits (decimal value) ∷ []) }
{
    let mut buffer = Buffer::new();
    token_onto(page, false, buffer.format(value).as_bytes(), false)
}

/// An integer.
pub(crate) fn integer_onto(page: &mut Page, value: i64) -> Result<(), NoMemory>
    ensures { Puts result page.old page.new (spec.integer value) }
{
    if value < 0 {
        minus_onto(page)?;
    }
    digits_onto(page, value.unsigned_abs())
}
