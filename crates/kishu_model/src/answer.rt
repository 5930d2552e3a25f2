use kishu_meaning::{CellResult, Outcome};
use std::rc::RcStr;

/// A cell that was run among others.
#[derive(Drop)]
pub struct Counted {
    /// The number of the cell on its commit's path, from 1.
    pub count: u64,
    /// What the run shows.
    pub result: CellResult,
}

/// A commit in the log.
#[derive(Drop)]
pub struct PathRow {
    /// How many cells it has.
    pub cells: u32,
    pub commit: u32,
    /// The line by which it is told: the first one of its first cell.
    pub line: RcStr,
    pub parent: u32,
}

/// The answer to a request.
#[derive(Drop)]
pub enum Answer {
    /// A cell was run and committed: the commit's number, the number of the cell on the commit's
    /// path, from 1, and what the run shows.
    Cell {
        commit: u32,
        count: u64,
        result: CellResult,
    },
    /// Cells were run and committed: the commit's number, and those that were run, in order.
    Cells {
        commit: u32,
        results: Vec<Counted>,
    },
    /// The head stands on this commit and, where it does, on this branch.
    Checkout {
        commit: u32,
        head: Option<RcStr>,
    },
    /// The branch of this name begins at this commit.
    Branch {
        commit: u32,
        name: RcStr,
    },
    /// The branches in byte order of their names, each with its commit, and the path from the head's
    /// commit back to the first one.
    Log {
        branches: Vec<(RcStr, u32)>,
        path: Vec<PathRow>,
    },
    /// Where the head stands, how many commits there are, the root among them, the names that are
    /// bound, in byte order, and how many records the store has.
    Status {
        branch: Option<RcStr>,
        commit: u32,
        commits: u32,
        names: Vec<RcStr>,
        records: u32,
    },
    /// The names that are bound at the head's commit, in byte order, each with the text of its value, and a
    /// row of texts for each node that they reach, in the order of first meeting. The text of a value that
    /// is a node is `#` and the number of its row, from 0; of another one it is the repr. A row begins with
    /// the kind of its node.
    Inspect {
        commit: u32,
        names: Vec<(RcStr, RcStr)>,
        nodes: Vec<Vec<RcStr>>,
    },
    /// The groups that a commit's record drops, and those that it stores, by their first names, each as its
    /// names, in byte order.
    Stored {
        commit: u32,
        dropped: Vec<Vec<RcStr>>,
        stored: Vec<Vec<RcStr>>,
    },
    /// The commit to which a checkout would go, the groups of the head's commit that it would drop, and of the
    /// other's those that it would keep and those that it would load, by their first names, each as its names,
    /// in byte order.
    Plan {
        commit: u32,
        drop: Vec<Vec<RcStr>>,
        keep: Vec<Vec<RcStr>>,
        load: Vec<Vec<RcStr>>,
    },
    /// The request was refused: the number of the refusal, and where the state is too large its bytes.
    Refused {
        number: u8,
        bytes: Option<u64>,
    },
}

impl Answer {
    ghost use Rattle.std.specs.Prelude.{◌≡◌, IfSome};
    ghost use Rattle.kishu_model.specs.Values.{answer_of};
    ghost use Rattle.kishu_model.specs.notebooks.Run.{goes_on};

    /// Whether the run of a notebook's cells goes on after this answer: a cell was run and ended well.
    pub fn goes_on(&self) -> bool
        ensures { IfSome (answer_of self.now) (λ a. result ≡ goes_on a) }
    {
        match self {
            Answer::Cell { result: ran, .. } => matches!(ran.outcome, Outcome::Done),
            Answer::Cells { .. } => false,
            Answer::Checkout { .. } => false,
            Answer::Branch { .. } => false,
            Answer::Log { .. } => false,
            Answer::Status { .. } => false,
            Answer::Inspect { .. } => false,
            Answer::Stored { .. } => false,
            Answer::Plan { .. } => false,
            Answer::Refused { .. } => false,
        }
    }
}
