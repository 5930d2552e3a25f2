use std::rc::RcStr;

/// What the words of a command line ask for.
#[derive(Drop)]
pub enum Command {
    /// To answer the requests that the lines of the input are.
    Session,
    /// To run the whole input as one cell.
    Cell,
    /// To run the code cells of the notebook that the input is, each as a commit of its own or
    /// together as one.
    Run { together: bool },
    /// To tell the branches and the commits up to the head.
    Log,
    /// To tell where the head stands.
    Status,
    /// To tell the names that are bound at the head's commit, and the nodes that they reach.
    Inspect,
    /// To put the head on what the reference names.
    Checkout { to: RcStr },
    /// To make a branch of this name at what the reference names, or without one at the head's
    /// commit.
    Branch { name: RcStr, at: Option<RcStr> },
    /// To make `n` requests from the number `start`, and to sum up their answers.
    Gen { start: u32, n: u32 },
}
