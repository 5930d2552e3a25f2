use std::rc::RcStr;

/// What a session is asked.
#[derive(Drop)]
pub enum Request {
    /// To run this cell and to commit it.
    Cell { text: RcStr },
    /// To run these cells, one after another up to the first that doesn't end well, and to commit those
    /// that were run in one commit. Without a text it is refused.
    Cells { texts: Vec<RcStr> },
    /// To put the head on the commit or the branch that this reference names.
    Checkout { to: RcStr },
    /// To make a branch of this name at what the reference names, or without one at the head's
    /// commit.
    Branch { name: RcStr, at: Option<RcStr> },
    /// To tell the branches, and the commits from the head's back to the first.
    Log,
    /// To tell where the head stands, which names are bound there, and how large the store is.
    Status,
    /// To tell the names that are bound at the head's commit, and the nodes that they reach.
    Inspect,
    /// To tell which groups of names the record of the commit drops and stores that this reference names.
    Stored { of: RcStr },
    /// To tell which groups of names a checkout to the commit would drop, keep and load that this reference
    /// names.
    Plan { to: RcStr },
}
