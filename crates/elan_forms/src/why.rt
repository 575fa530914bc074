//! Why a text is refused at a token.

/// Why no text goes on with a token.
#[derive(Clone, Copy, Debug, PartialEq, Eq)]
pub enum Why {
    /// No text of the grammar goes on so.
    Unexpected,
    /// A part of the text goes past its limit with this token.
    TooMany,
}
