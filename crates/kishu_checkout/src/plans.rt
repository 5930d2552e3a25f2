// What a checkout does.
use kishu_graph::{Group, TableRow};

/// What a checkout does to come from one table to another.
#[derive(Debug, Drop)]
pub struct Plan {
    /// The groups that both tables have with one version, in the target's order: they stay as they are.
    pub keep: Vec<Group>,
    /// The other rows of the target, in its order: their pictures are loaded.
    pub load: Vec<TableRow>,
    /// The other groups of the current table, in its order: their names are unbound.
    pub drop: Vec<Group>,
}
