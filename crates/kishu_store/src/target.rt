use std::rc::RcStr;

/// Where the head of a graph stands, or what a reference names: a commit, and the branch by whose name
/// it is meant, where there is one.
#[derive(Debug, Drop)]
pub struct Target {
    pub commit: u32,
    pub branch: Option<RcStr>,
}
