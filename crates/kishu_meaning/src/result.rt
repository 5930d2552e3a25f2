use std::rc::RcStr;

/// How a cell's run ended.
#[derive(Clone, Copy, Debug, PartialEq, Eq)]
pub enum Outcome {
    /// All statements ran.
    Done,
    /// An exception was not caught.
    Raised,
    /// The budget of steps was spent.
    Stopped,
}

/// One output of a cell (nbformat 4.5, "Code cell outputs").
#[derive(Drop)]
pub enum Output {
    /// All that the cell printed.
    Stream { text: RcStr },
    /// The text of the value that the last statement shows.
    Shown { text: RcStr },
    /// The exception that ended the cell: its class and its text.
    Fault { ename: RcStr, evalue: RcStr },
}

/// What a cell's run gives besides the state that it leaves.
#[derive(Drop)]
pub struct CellResult {
    pub outcome: Outcome,
    /// In the order in which a notebook shows them.
    pub outputs: Vec<Output>,
}
