// How long a text is at most.

/// The longest text of a cell, and so the longest code of a function, in bytes: `longest_text` of the
/// definitions.
pub const LONGEST_TEXT: usize = 1_048_576;
