//! Parts of a text, as numbers of its tokens.

/// The tokens from one number up to but not including another. Numbers count from 0.
#[derive(Clone, Copy, Debug, PartialEq, Eq)]
pub struct Span {
    pub first: u32,
    pub past: u32,
}
