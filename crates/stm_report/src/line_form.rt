//! The forms of a report's lines.

/// The form of a report's lines.
#[derive(Clone, Copy, Debug, PartialEq, Eq)]
pub(crate) enum LineForm {
    /// Arrays, in the report's own format.
    Array,
    /// Objects with named fields.
    Object,
}
