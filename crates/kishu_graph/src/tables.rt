// Tables of commits, and what is kept of them.
ghost use Rattle.std.specs.Prelude.{◌≡◌, []};
ghost use Rattle.kishu_store.specs.Tables.{no_change};
ghost use Rattle.kishu_graph.specs.Kept.{noted_of, note, dropped_in, stored_in};

use std::alloc::Global;
use std::rc::RcStr;

/// Names that stand together, in byte order.
#[derive(Debug, Drop)]
pub struct Group {
    pub names: Vec<RcStr>,
}

/// A group of a table: the commit that stored it, and where its picture lies in the store's file, in
/// bytes.
#[derive(Debug, Drop)]
pub struct TableRow {
    pub group: Group,
    pub version: u32,
    pub place: u64,
    pub len: u64,
}

/// The groups of a commit, in the order of their first names.
#[derive(Debug, Drop)]
pub struct Table {
    pub rows: Vec<TableRow>,
}

/// What a commit changed of its parent's table: the groups that it dropped, and those that it stored, each
/// by its names.
#[derive(Debug, Drop)]
pub struct Changed {
    pub dropped: Vec<Vec<RcStr>>,
    pub stored: Vec<Vec<RcStr>>,
}

impl Changed {
    /// Of a commit that changed nothing.
    pub(crate) fn nothing(alloc: Global) -> Changed
        ensures dropped { result.dropped.items ≡ [] }
        ensures stored { result.stored.items ≡ [] }
    {
        Changed {
            dropped: Vec::new(alloc),
            stored: Vec::new(alloc),
        }
    }
}

/// What is kept of what a commit changes of its parent's table.
#[derive(Drop)]
pub(crate) struct Noted {
    /// There is none where nothing changes: most commits take no more memory than this then.
    pub(crate) change: Option<Box<NotedChange>>,
    /// How many rows its table has, where 32 bits count them.
    pub(crate) rows: Option<u32>,
}

/// What a commit drops and stores.
#[derive(Drop)]
pub(crate) struct NotedChange {
    /// The first names of the groups that it drops.
    pub(crate) dropped: Vec<RcStr>,
    pub(crate) stored: Vec<TableRow>,
}

impl Noted {
    /// Of a commit that changes nothing, whose table has so many rows.
    pub(crate) fn bare(rows: Option<u32>) -> Noted
        ensures note { note result ≡ noted_of no_change }
        ensures rows { result.rows ≡ rows }
    {
        Noted { change: None, rows }
    }

    /// The first names of the groups that the commit drops.
    pub(crate) fn dropped(&self) -> &[RcStr]
        ensures { result.now ≡ dropped_in self.now }
    {
        match &self.change {
            Some(change) => &change.dropped,
            None => &[],
        }
    }

    /// The rows that the commit stores.
    pub(crate) fn stored(&self) -> &[TableRow]
        ensures { result.now ≡ stored_in self.now }
    {
        match &self.change {
            Some(change) => &change.stored,
            None => &[],
        }
    }
}
