use kishu_language::Profile;
use std::rc::RcStr;

/// Where a move leads the head.
#[derive(Drop)]
pub enum MoveTo {
    /// To the commit of this number, and to no branch.
    Commit(u32),
    /// To the branch of this name.
    Branch(RcStr),
}

/// What a record says.
#[derive(Drop)]
pub enum Entry {
    /// One more commit: its parent's number, the rules under which its cells run, the texts of its
    /// cells in the order in which they ran, the groups of names that it drops, and those that it
    /// stores, each with the length of its picture in bytes.
    Commit {
        parent: u32,
        profile: Profile,
        cells: Vec<RcStr>,
        dropped: Vec<Vec<RcStr>>,
        stored: Vec<(Vec<RcStr>, u64)>,
    },
    /// The head goes somewhere else.
    Move {
        to: MoveTo,
    },
    /// One more branch: its name, and the number of the commit at which it begins.
    Name {
        name: RcStr,
        commit: u32,
    },
}

/// Why a head isn't decoded.
#[derive(Clone, Copy, Debug, PartialEq, Eq, Drop)]
pub enum EntryFault {
    /// No entry within the rules has that head and pictures of that length.
    NoEntry,
    /// There was no memory.
    NoMemory,
}
