//! What the bytes of a token are worth.

ghost use Rattle.std.specs.Prelude.{◌≡◌};
ghost use Rattle.elan_phrases.specs.Symbols as spec;

use elan_text::Name;

/// The value of digits, where it is no greater than the greatest priority, which is 255.
#[tactic(auto, using(elan_lexer::proofs::Counts::value_ge), unfolding(crate::specs::Symbols::small_value))]
pub fn small_value(digits: &[u8]) -> Option<u8>
    ensures { result ≡ spec.small_value digits.now }
{
    let mut worth = 0u32;
    let mut left = digits;
    'digits: while let [b, rest @ ..] = left {
        let more = 10 * worth + b.saturating_sub(48) as u32;
        if more > 255 {
            return None;
        }
        worth = more;
        left = rest;
    }
    Some(worth as u8)
}

/// Whether the word is the bytes of a name.
pub fn is_named(word: &[u8], name: &Name) -> bool
    ensures { result ≡ spec.is_named word.now name.now }
{
    name.as_bytes() == word
}
