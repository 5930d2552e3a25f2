// Graphs after some calls, and what they refuse.
use kishu_graph::{Graph, GraphFault, line_of};
use kishu_language::Profile;
use std::alloc::{AllocError, Global};
use std::fmt::Write;
use std::test::Fail;

/// A call that changes a graph.
enum Change {
    /// A commit of so many cells with this line.
    Commit(u32, &'static str),
    /// A branch of this name, at a reference or at the head.
    Branch(&'static str, Option<&'static str>),
    /// A branch of this name at a commit.
    BranchAt(&'static str, u32),
    /// The head to a reference.
    Head(&'static str),
    /// The head to a commit, and to no branch.
    ToCommit(u32),
    /// The head to a branch.
    ToBranch(&'static str),
}

/// A change, and what it answers.
type Step = (Change, Result<u32, GraphFault>);

/// What a change answers.
fn answer_to(graph: &mut Graph, change: &Change) -> Result<u32, GraphFault> {
    match change {
        Change::Commit(cells, line) => graph.add_commit(Profile::One, *cells, line),
        Change::Branch(name, at) => graph.add_branch(name, *at),
        Change::BranchAt(name, commit) => graph.add_branch_at(name, *commit),
        Change::Head(to) => graph.move_head(to),
        Change::ToCommit(commit) => graph.move_to_commit(*commit),
        Change::ToBranch(name) => graph.move_to_branch(name),
    }
}

/// The number of the first step, from 1, that answers something else, or 0.
fn first_other(graph: &mut Graph, steps: &[Step]) -> u32 {
    let mut number = 0u32;
    for (made, want) in steps {
        number = number.wrapping_add(1);
        if answer_to(graph, made) != *want {
            return number;
        }
    }
    0
}

/// How many commits and records there are, where the head stands, and where the branches do.
fn told(alloc: Global, graph: &Graph) -> Result<String, AllocError> {
    let mut words = String::new(alloc);
    let (commits, records, head) = (graph.commits(), graph.records(), graph.head());
    write!(words, "{commits} {records} at {}", head.commit)?;
    if let Some(name) = &head.branch {
        write!(words, " on {}", name.as_str())?;
    }
    for (name, commit) in &graph.branches()? {
        write!(words, ", {} {commit}", name.as_str())?;
    }
    Ok(words)
}

/// Whether this is told of a graph.
fn is_told(alloc: Global, graph: &Graph, want: &str) -> Result<bool, AllocError> {
    Ok(told(alloc, graph)?.as_str() == want)
}

/// Steps that succeed, and what is told of the graph after each.
const STEPS: [(Step, &str); 8] = [
    (
        (Change::Commit(1, "a = [1]; b = a"), Ok(1)),
        "2 1 at 1 on main, main 1",
    ),
    (
        (Change::Commit(2, "b.append(2)"), Ok(2)),
        "3 2 at 2 on main, main 2",
    ),
    (
        (Change::Branch("try", Some("1")), Ok(1)),
        "3 3 at 2 on main, main 2, try 1",
    ),
    ((Change::Head("1"), Ok(1)), "3 4 at 1, main 2, try 1"),
    (
        (Change::Commit(7, "print(a, a is b)"), Ok(3)),
        "4 5 at 3, main 2, try 1",
    ),
    (
        (Change::Head("main"), Ok(2)),
        "4 6 at 2 on main, main 2, try 1",
    ),
    (
        (Change::Head("try"), Ok(1)),
        "4 7 at 1 on try, main 2, try 1",
    ),
    (
        (Change::Commit(1, "b"), Ok(4)),
        "5 8 at 4 on try, main 2, try 4",
    ),
];

#[test]
fn commits_and_branches(rt: HostRuntime) -> Result<(), Fail> {
    let alloc = rt.alloc();
    let mut graph = Graph::new(alloc)?;
    assert!(rt; is_told(alloc, &graph, "1 0 at 0 on main, main 0")?);
    for (step, want) in &STEPS {
        let (made, answer) = step;
        assert!(rt; answer_to(&mut graph, made) == *answer, "before {want}");
        assert!(rt; is_told(alloc, &graph, want)?, "{want}");
    }
    Ok(())
}

/// A commit in words: its parent, how many cells it has, its line, and the path from the root.
fn commit_told(alloc: Global, graph: &Graph, commit: u32) -> Result<String, AllocError> {
    let mut words = String::new(alloc);
    if commit == 0 || commit >= graph.commits() {
        return Ok(words);
    }
    let (parent, cells) = (graph.parent(commit), graph.cells(commit));
    let (profile, line) = (graph.profile(commit), graph.line(commit));
    write!(words, "{parent} {cells} {profile:?} {line}:")?;
    for on_path in &graph.path(commit)? {
        write!(words, " {on_path}")?;
    }
    Ok(words)
}

/// Whether this is told of a commit.
fn is_commit_told(
    alloc: Global,
    graph: &Graph,
    commit: u32,
    want: &str,
) -> Result<bool, AllocError> {
    Ok(commit_told(alloc, graph, commit)?.as_str() == want)
}

/// Whether the root has no cells and an empty line.
fn has_plain_root(graph: &Graph) -> bool {
    graph.commits() > 0
        && graph.cells(0) == 0
        && graph.line(0) == ""
        && graph.profile(0) == Profile::One
}

/// Commits, of which the third has the first as its parent.
const COMMITS: [Step; 6] = [
    (Change::Commit(1, "a = [1]; b = a"), Ok(1)),
    (Change::Commit(2, "b.append(2)"), Ok(2)),
    (Change::Head("1"), Ok(1)),
    (Change::Commit(7, "print(a, a is b)"), Ok(3)),
    (Change::Commit(1, ""), Ok(4)),
    (Change::Commit(1, "s = 'é🐢'"), Ok(5)),
];

/// Commits, and what is told of them.
const TOLD: [(u32, &str); 5] = [
    (1, "0 1 One a = [1]; b = a: 0 1"),
    (2, "1 2 One b.append(2): 0 1 2"),
    (3, "1 7 One print(a, a is b): 0 1 3"),
    (4, "3 1 One : 0 1 3 4"),
    (5, "4 1 One s = 'é🐢': 0 1 3 4 5"),
];

#[test]
fn tells_commits(rt: HostRuntime) -> Result<(), Fail> {
    let alloc = rt.alloc();
    let mut graph = Graph::new(alloc)?;
    assert!(rt; first_other(&mut graph, &COMMITS) == 0);
    for (commit, want) in &TOLD {
        assert!(rt; is_commit_told(alloc, &graph, *commit, want)?, "{commit}");
    }
    assert!(rt; has_plain_root(&graph));
    Ok(())
}

/// The commit that a text names, and the branch, where it names one.
fn named(alloc: Global, graph: &Graph, text: &str) -> Result<String, AllocError> {
    let mut words = String::new(alloc);
    if let Some(target) = graph.resolve(text)? {
        write!(words, "{}", target.commit)?;
        if let Some(name) = &target.branch {
            write!(words, " {}", name.as_str())?;
        }
    }
    Ok(words)
}

/// Whether a text names this.
fn names(alloc: Global, graph: &Graph, text: &str, want: &str) -> Result<bool, AllocError> {
    Ok(named(alloc, graph, text)?.as_str() == want)
}

/// A commit, and a branch at the root.
const REFERRED: [Step; 2] = [
    (Change::Commit(1, "a"), Ok(1)),
    (Change::Branch("try", Some("0")), Ok(0)),
];

/// Texts, and what they name in that graph: `main` is at commit 1 and `try` at 0.
const REFERENCES: [(&str, &str); 12] = [
    ("0", "0"),
    ("1", "1"),
    ("2", ""),
    ("999", ""),
    ("007", ""),
    ("01", ""),
    ("", ""),
    ("4294967296", ""),
    ("4294967297", ""),
    ("18446744073709551617", ""),
    ("main", "1 main"),
    ("try", "0 try"),
];

#[test]
fn resolves_references(rt: HostRuntime) -> Result<(), Fail> {
    let alloc = rt.alloc();
    let mut graph = Graph::new(alloc)?;
    assert!(rt; first_other(&mut graph, &REFERRED) == 0);
    for (text, want) in &REFERENCES {
        assert!(rt; names(alloc, &graph, text, want)?, "{text}");
    }
    Ok(())
}

/// Changes of a new graph in turn, most of which are refused.
const REFUSED: [Step; 19] = [
    (Change::Branch("main", None), Err(GraphFault::NameTaken)),
    (
        Change::Branch("main", Some("999")),
        Err(GraphFault::NameTaken),
    ),
    (Change::Branch("9", None), Err(GraphFault::BadName)),
    (Change::Branch("", None), Err(GraphFault::BadName)),
    (Change::Branch("-a", Some("999")), Err(GraphFault::BadName)),
    (Change::Branch("a b", None), Err(GraphFault::BadName)),
    (
        Change::Branch(
            "a1234567890123456789012345678901234567890123456789012345678901234",
            None,
        ),
        Err(GraphFault::BadName),
    ),
    (
        Change::Branch("try", Some("999")),
        Err(GraphFault::NoSuchRef),
    ),
    (
        Change::Branch("try", Some("007")),
        Err(GraphFault::NoSuchRef),
    ),
    (Change::Branch("_a-9", Some("main")), Ok(0)),
    (
        Change::Branch(
            "a123456789012345678901234567890123456789012345678901234567890123",
            None,
        ),
        Ok(0),
    ),
    (Change::BranchAt("b", 1), Err(GraphFault::NoSuchRef)),
    (Change::BranchAt("b", 0), Ok(0)),
    (Change::Head("999"), Err(GraphFault::NoSuchRef)),
    (Change::Head("007"), Err(GraphFault::NoSuchRef)),
    (Change::ToCommit(1), Err(GraphFault::NoSuchRef)),
    (Change::ToBranch("0"), Err(GraphFault::NoSuchRef)),
    (Change::ToBranch("b"), Ok(0)),
    (Change::ToCommit(0), Ok(0)),
];

#[test]
fn refuses(rt: HostRuntime) -> Result<(), Fail> {
    let alloc = rt.alloc();
    let mut graph = Graph::new(alloc)?;
    assert!(rt; first_other(&mut graph, &REFUSED) == 0);
    assert!(rt; graph.records() == 5);
    Ok(())
}

/// Changes of a graph with 1,000,000 records.
const FULL: [Step; 6] = [
    (Change::Head("0"), Err(GraphFault::StoreFull)),
    (Change::Head("main"), Err(GraphFault::StoreFull)),
    (Change::Head("9"), Err(GraphFault::NoSuchRef)),
    (Change::Branch("a", None), Err(GraphFault::StoreFull)),
    (Change::Branch("a", Some("9")), Err(GraphFault::NoSuchRef)),
    (Change::Commit(1, "a"), Err(GraphFault::StoreFull)),
];

#[test]
fn a_full_store_takes_no_record(rt: HostRuntime) -> Result<(), Fail> {
    let alloc = rt.alloc();
    let mut graph = Graph::new(alloc)?;
    for _ in 0..1_000_000 {
        assert!(rt; graph.move_head("0") == Ok(0));
    }
    assert!(rt; first_other(&mut graph, &FULL) == 0);
    assert!(rt; graph.records() == 1_000_000);
    assert!(rt; graph.commits() == 1);
    Ok(())
}

/// Cells, and the lines that are told of them.
const LINES: [(&str, &str); 7] = [
    ("", ""),
    ("a = [1]; b = a", "a = [1]; b = a"),
    ("n = 0\nwhile True: n += 1", "n = 0"),
    ("x\ry", "x"),
    ("\nx", ""),
    (
        "éééééééééééééééééééééééééééééééééééééééééééééééééééééééééééééééé",
        "éééééééééééééééééééééééééééééééééééééééééééééééééééééééééééé",
    ),
    (
        "0123456789012345678901234567890123456789012345678901234567890123456789",
        "012345678901234567890123456789012345678901234567890123456789",
    ),
];

#[test]
fn lines_of_cells(rt: HostRuntime) -> Result<(), Fail> {
    for (text, want) in &LINES {
        assert!(rt; line_of(text) == *want, "{text}");
    }
    Ok(())
}
