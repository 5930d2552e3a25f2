// The groups that change.
use std::rc::RcStr;

/// A group with the bytes of its picture. Its names stand in byte order.
#[derive(Drop)]
pub struct StoredGroup {
    pub names: Vec<RcStr>,
    pub bytes: Vec<u8>,
}

/// What changes of a table: the groups that leave it, and those that come in with their pictures.
#[derive(Drop)]
pub struct Delta {
    pub dropped: Vec<Vec<RcStr>>,
    pub stored: Vec<StoredGroup>,
}
