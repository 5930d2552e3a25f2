// What changes of a table as far as digests tell it.
use crate::delta::StoredGroup;
use kishu_graph::TableRow;
use std::rc::RcStr;

/// A row of a table whose group has a picture with the digest that is kept of it, and that picture.
#[derive(Drop)]
pub struct Asked {
    pub row: TableRow,
    pub bytes: Vec<u8>,
}

/// What changes of a table for certain, and the rows whose stored pictures have to be asked for. `dropped`
/// stands in the table's order, `stored` and `asked` in the order of first names.
#[derive(Drop)]
pub struct Draft {
    pub dropped: Vec<Vec<RcStr>>,
    pub stored: Vec<StoredGroup>,
    pub asked: Vec<Asked>,
}
