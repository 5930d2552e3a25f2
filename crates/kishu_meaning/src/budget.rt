/// What a run may still use up.
#[derive(Clone, Copy, Debug, PartialEq, Eq)]
pub struct Budget {
    /// The steps that may still be taken.
    pub left: u64,
    /// How deep the points under evaluation, the calls and the nodes in progress lie. At most 1,000
    /// is allowed.
    pub depth: u32,
}
