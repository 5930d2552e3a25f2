/// Why a graph isn't changed. It is as before then.
#[derive(Clone, Copy, Debug, PartialEq, Eq)]
pub enum GraphFault {
    /// A reference, or a number, names no commit and no branch.
    NoSuchRef,
    /// It isn't 1 to 64 ASCII letters, digits, `-` and `_` that begin with a letter or `_`.
    BadName,
    /// There is a branch of that name.
    NameTaken,
    /// There are 1,000,000 records.
    StoreFull,
    /// There was no memory.
    NoMemory,
}
