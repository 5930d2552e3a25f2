/// A key that a notebook has.
#[derive(Clone, Copy, Debug, PartialEq, Eq)]
pub enum NotebookKey {
    /// `nbformat`
    Format,
    /// `nbformat_minor`
    Minor,
    /// `metadata`
    Metadata,
    /// `cells`
    Cells,
}

/// Why bytes are no notebook. Where several causes hold, it is the first in this order.
#[derive(Clone, Copy, Debug, PartialEq, Eq)]
pub enum NotebookRefusal {
    /// They aren't JSON in UTF-8 that nests at most 127 deep.
    NotJson,
    /// They are no object, or this is the first key that is missing or has another kind of value.
    NotNotebook { key: NotebookKey },
    /// The minor version isn't 5.
    Version { minor: u64 },
    /// The first cell that breaks a rule. Cells are counted from 0.
    BadCell { index: u32 },
    /// The first cell whose id stood in an earlier cell.
    RepeatedId { index: u32 },
    /// A number is none of -2^63 to 2^64-1, or isn't written as a whole number.
    NotWhole,
}

/// Why a notebook wasn't read.
#[derive(Clone, Copy, Debug, PartialEq, Eq)]
pub enum NotebookFault {
    Refused(NotebookRefusal),
    NoMemory,
}
