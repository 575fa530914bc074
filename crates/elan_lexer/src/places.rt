//! Lines and columns.

ghost use Rattle.std.specs.Prelude.{◌≡◌, ◌<◌, ◌≤◌, ◌+◌, ◌^◌, ℕ, length};
ghost use Rattle.elan_lexer.specs.Places as spec;

use elan_text::Place;

/// How far a text was read.
#[derive(Clone, Copy, Debug)]
pub struct Spot {
    /// How many bytes stand before it.
    pub offset: u32,
    pub at: Place,
}

/// The place after the last byte of a text, which takes no memory.
pub fn end_place(bytes: &[u8]) -> Place
    requires { length bytes.now ≤ 4194304 }
    ensures { result ≡ spec.end_place bytes.now }
{
    place_after(Place { line: 1, column: 1 }, bytes)
}

/// The spot after these bytes.
pub fn moved(spot: Spot, text: &[u8]) -> Spot
    requires offset { spot.offset + length text.now < 2 ^ 32 }
    requires line { spot.at.line + length text.now < 2 ^ 32 }
    requires column { spot.at.column + length text.now < 2 ^ 32 }
    ensures value { result ≡ spec.moved spot text.now }
    ensures line { result.at.line ≤ spot.at.line + length text.now }
    ensures column { result.at.column ≤ spot.at.column + length text.now }
{
    Spot {
        offset: spot.offset + text.len() as u32,
        at: place_after(spot.at, text),
    }
}

/// The place after these bytes, the first of which stands at the given place.
fn place_after(from: Place, text: &[u8]) -> Place
    requires line { from.line + length text.now < 2 ^ 32 }
    requires column { from.column + length text.now < 2 ^ 32 }
    ensures value { result ≡ spec.place_after from text.now }
    ensures line { result.line ≤ from.line + length text.now }
    ensures column { result.column ≤ from.column + length text.now }
{
    let mut at = from;
    let mut left = text;
    'bytes: while let [b, rest @ ..] = left {
        at = if *b == 10 {
            Place {
                line: at.line + 1,
                column: 1,
            }
        } else {
            Place {
                line: at.line,
                column: at.column + 1,
            }
        };
        left = rest;
    }
    at
}
