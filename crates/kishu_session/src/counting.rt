// How many cells lead to a commit.
ghost use Rattle.std.specs.Prelude.{◌<◌, length};
ghost use Rattle.kishu_session.specs.Head.{CountsTo};

use kishu_graph::Graph;

/// How many cells are on the path to a commit, which is there.
pub(crate) fn count_to(graph: &Graph, commit: u32) -> u64
    requires { commit < length graph.now.commits }
    ensures { CountsTo graph.now commit result }
{
    let mut count = 0;
    let mut at = commit;
    while at != 0 {
        count += u64::from(graph.cells(at));
        at = graph.parent(at);
    }
    count
}
