// The names of a function in progress.

use kishu_meaning::Value;
use std::collections::BTreeMap;
use std::rc::RcStr;

/// The names that are local to a function's body, and the values of those that have one.
#[derive(Drop)]
pub struct Frame {
    pub own: Vec<RcStr>,
    pub values: BTreeMap<RcStr, Value>,
}
