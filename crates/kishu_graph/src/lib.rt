//! The graph of commits, its branches and its head, as a session keeps it: of each commit its parent,
//! its profile, the number of its cells, its line, and what it changes of its parent's table. The texts
//! of cells and the pictures of groups stay in the store's file.
//!
//! What the calls promise is said of each graph of the definition whose shape a `Graph` has
//! (`HasShapeOf`: all but the cells of its commits): they answer what it says, and have the shape of
//! the changed one then. There always is one. Of cells a `Graph` tells what it was given.
#![tactic(auto)]

mod branches;
mod buffer;
mod changes;
mod commits;
mod fault;
mod fitting;
mod graph;
mod heads;
mod leaving;
mod lines;
mod noting;
mod order;
mod references;
mod tables;
mod telling;
mod walking;

pub use fault::GraphFault;
pub use graph::Graph;
pub use kishu_store::Target;
pub use lines::line_of;
pub use tables::{Changed, Group, Table, TableRow};
