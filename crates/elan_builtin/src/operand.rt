//! What a built-in operation sees of its arguments, and what it gives.

/// What an argument is to a built-in operation.
#[derive(Clone, Copy, Debug, PartialEq, Eq)]
pub enum Operand {
    Int(i64),
    /// One of the constants `true` and `false`.
    Truth(bool),
    /// Any other term.
    Other,
}

/// The value of an operation.
#[derive(Clone, Copy, Debug, PartialEq, Eq)]
pub enum Reduced {
    Int(i64),
    Truth(bool),
}
