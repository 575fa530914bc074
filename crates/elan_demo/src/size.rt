//! The size of a report.

/// The size of a report.
#[derive(Clone, Copy, Debug, PartialEq, Eq)]
pub struct Summary {
    /// Results and marks together.
    pub items: u32,
    /// Marks alone.
    pub marks: u32,
    /// The length of the report, in bytes.
    pub bytes: u64,
}
