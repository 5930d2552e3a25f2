// Checkouts: what they keep, load and leave, and what they read for it.
ghost use Rattle.std.specs.Prelude.{◌≡◌, ◌<◌, true, IfOk};
ghost use Rattle.kishu_session.specs.Attached.{IsReady};

use super::host_over;
use super::pictures::PARTED;
use super::sessions::run_words;
use kishu_checkout::{carry_out, plan};
use kishu_graph::{Graph, Table};
use kishu_heap::{Heap, Node};
use kishu_host::{Host, MemHost};
use kishu_journal::Journal;
use kishu_model::{NodeId, Request, Steps, Value};
use kishu_names::Names;
use kishu_serve::Status;
use kishu_session::Session;
use std::alloc::Global;
use std::marker::Brand;
use std::rc::RcStr;
use std::sync::ledger::{Blank, Ledger};
use std::test::Fail;

/// The store of one commit with the cell `a = [1]`, whose picture of `a` is that of `a = [2]`.
const OTHER: [u8; 110] =
    *b"KISHU-JOURNAL-1\n\xa5\0\0\0\0\0\0\0T\0\0\0+\x01\0\0\0\0\x01\0\0\0\x01\0\0\0\x07a = [1]\0\0\0\0\0\0\0\x01\0\0\0\x01\x01a\0\0\0\0\0\0\0%\0\0\0\x01\x01a\x08\0\0\0\0\0\0\0\x01\x01\0\0\0\x01\x03\0\0\0\0\0\0\0\0\0\0\0\0\0\0\0\x02\0";

/// Stores, lines of a session on each, the lines of its answers, and how many bytes it reads besides those of its
/// opening.
const CARRIED: [(&[u8], &str, &str, u64); 5] = [
    // The group of `z` stays where it is, and that of `x` and `y` is loaded. A refused checkout reads nothing. The
    // cell reads the pictures of both, which it leaves as they are.
    (
        &PARTED,
        r#"{"op":"plan","to":"1"}
{"op":"checkout","to":"9"}
{"op":"checkout","to":"1"}
{"op":"cell","text":"print(y[0] is x, z)"}
{"op":"plan","to":"main"}
"#,
        r#"{"answer":"plan","commit":1,"drop":[["x"],["y"]],"keep":[["z"]],"load":[["x","y"]]}
{"answer":"refused","number":2,"reason":"NoSuchRef"}
{"answer":"checkout","commit":1,"head":null}
{"answer":"cell","commit":3,"count":2,"outcome":"ok","outputs":[{"name":"stdout","output_type":"stream","text":"True [2]\n"}]}
{"answer":"plan","commit":2,"drop":[["x","y"]],"keep":[["z"]],"load":[["x"],["y"]]}
"#,
        145,
    ),
    // To where the head stands nothing is loaded. The move is recorded.
    (
        &PARTED,
        r#"{"op":"plan","to":"main"}
{"op":"checkout","to":"main"}
{"op":"status"}
"#,
        r#"{"answer":"plan","commit":2,"drop":[],"keep":[["x"],["y"],["z"]],"load":[]}
{"answer":"checkout","commit":2,"head":"main"}
{"answer":"status","branch":"main","commit":2,"commits":3,"names":["x","y","z"],"records":3}
"#,
        0,
    ),
    // Where nothing is kept all is loaded: to the first commit from the root.
    (
        &PARTED,
        r#"{"op":"checkout","to":"0"}
{"op":"status"}
{"op":"checkout","to":"1"}
{"op":"cell","text":"print(y[0] is x, z)"}
"#,
        r#"{"answer":"checkout","commit":0,"head":null}
{"answer":"status","branch":null,"commit":0,"commits":3,"names":[],"records":3}
{"answer":"checkout","commit":1,"head":null}
{"answer":"cell","commit":3,"count":2,"outcome":"ok","outputs":[{"name":"stdout","output_type":"stream","text":"True [2]\n"}]}
"#,
        182,
    ),
    // The state is the one that the picture tells, and not the one that the cell would leave: as the store is
    // opened, and as it is come back to.
    (
        &OTHER,
        r#"{"op":"cell","text":"print(a)"}
"#,
        r#"{"answer":"cell","commit":2,"count":2,"outcome":"ok","outputs":[{"name":"stdout","output_type":"stream","text":"[2]\n"}]}
"#,
        37,
    ),
    (
        &OTHER,
        r#"{"op":"checkout","to":"0"}
{"op":"checkout","to":"main"}
{"op":"cell","text":"print(a)"}
"#,
        r#"{"answer":"checkout","commit":0,"head":null}
{"answer":"checkout","commit":1,"head":"main"}
{"answer":"cell","commit":2,"count":2,"outcome":"ok","outputs":[{"name":"stdout","output_type":"stream","text":"[2]\n"}]}
"#,
        74,
    ),
];

/// Whether a row's session is answered so, and reads so many bytes besides those of its opening.
fn is_carried(alloc: Global, row: &(&[u8], &str, &str, u64)) -> Result<bool, Fail> {
    let (file, input, want, bytes) = row;
    let mut idle = host_over(alloc, file, Vec::new(alloc), None)?.ok_or("room")?;
    let opened = run_words(alloc, &mut idle, &["S", "session"], b"".as_slice())?;
    let mut host = host_over(alloc, file, Vec::new(alloc), None)?.ok_or("room")?;
    let status = run_words(alloc, &mut host, &["S", "session"], input.as_bytes())?;
    let done = opened == Status::Done && status == Status::Done;
    let read = idle.bytes_read().saturating_add(*bytes);
    Ok(done && host.out() == want.as_bytes() && host.bytes_read() == read)
}

#[test]
fn checkouts_load_what_differs(rt: HostRuntime) -> Result<(), Fail> {
    let alloc = rt.alloc();
    for row in &CARRIED {
        assert!(rt; is_carried(alloc, row)?, "{}", row.1);
    }
    Ok(())
}

/// Whether a checkout from at most 8,000,000 nodes is answered. It takes no step then.
fn is_moved<H: Host, L: Ledger>(
    alloc: Global,
    session: &mut Session,
    host: &mut H,
    to: &str,
    steps: &mut Steps<L>,
) -> Result<bool, Fail>
    requires ready { IsReady session.old (H.state host.old) }
    ensures still { IfOk result (λ moved. moved ≡ true → steps.new ≡ steps.old) }
{
    if session.heap().len() > 8_000_000 {
        return Ok(false);
    }
    let request = Request::Checkout {
        to: RcStr::from_str(alloc, to)?,
    };
    Ok(session.apply(host, &request, steps).is_ok())
}

/// The node that a name leads to.
fn node_of(names: &Names, name: &str) -> Option<NodeId> {
    match names.peek(name) {
        Some(Value::Node(id)) => Some(*id),
        _ => None,
    }
}

/// Whether in a session on the store of two commits a checkout to the first leaves the list of `z` where it is, with
/// its number, and the two lists that it loads come behind the two that are there.
fn stays_in_place<L: Ledger>(alloc: Global, host: &mut MemHost, blank: Blank) -> Result<bool, Fail>
    requires name { blank.name ≡ L.name }
    requires parts { blank.parts ≡ L.parts }
    requires some { 0 < L.parts }
{
    let mut steps = Steps::<L>::new(blank);
    let Ok(mut session) = Session::attach(alloc, host, &mut steps) else {
        return Ok(false);
    };
    let before = session.heap().len() == 2 && node_of(session.names(), "z") == Some(NodeId(1));
    if !is_moved(alloc, &mut session, host, "1", &mut steps)? {
        return Ok(false);
    }
    let now = session.heap().len() == 4 && node_of(session.names(), "z") == Some(NodeId(1));
    Ok(before && now && node_of(session.names(), "x") == Some(NodeId(2)))
}

#[test]
fn kept_groups_stay_in_place(rt: HostRuntime) -> Result<(), Fail> {
    let alloc = rt.alloc();
    let mut host = host_over(alloc, &PARTED, Vec::new(alloc), None)?.ok_or("room")?;
    let stays = stays_in_place::<Brand>(alloc, &mut host, Blank::new(1))?;
    assert!(rt; stays);
    Ok(())
}

/// A list that holds itself, and is left.
const RING: &str = r#"{"op":"cell","text":"a = []"}
{"op":"cell","text":"a.append(a)"}
{"op":"cell","text":"print(a)"}
{"op":"checkout","to":"0"}
"#;

/// The table of the commit that a reference names.
fn table_at(graph: &Graph, to: &str) -> Result<Table, Fail> {
    let target = graph.resolve(to)?.ok_or("no such reference")?;
    Ok(graph.table(target.commit)?)
}

/// Whether `a` is a list of one item, which is that list.
fn is_ring_counted<L: Ledger>(heap: &Heap, names: &Names, blank: Blank) -> bool
    requires name { blank.name ≡ L.name }
    requires parts { blank.parts ≡ L.parts }
    requires some { 0 < L.parts }
{
    let Some(id) = node_of(names, "a") else {
        return false;
    };
    if id.0 >= heap.len() {
        return false;
    }
    let mut steps = Steps::<L>::new(blank);
    match heap.node(id, &mut steps) {
        Node::List(items) => match items.as_slice() {
            [Value::Node(item)] => *item == id,
            _ => false,
        },
        _ => false,
    }
}

/// The same, where nobody counts the steps.
fn is_ring(heap: &Heap, names: &Names) -> bool {
    is_ring_counted::<Brand>(heap, names, Blank::new(1))
}

/// Whether the plan from the root to `main`, carried out on an empty heap, reads the picture of that list, and leaves
/// it as it was.
fn is_carried_out(alloc: Global, host: &mut MemHost) -> Result<bool, Fail> {
    let Ok(store) = Journal::open_store(alloc, host) else {
        return Ok(false);
    };
    let planned = plan(
        alloc,
        &table_at(&store.graph, "0")?,
        &table_at(&store.graph, "main")?,
    )?;
    let [row] = planned.load.as_slice() else {
        return Ok(false);
    };
    if row.len != 25 {
        return Ok(false);
    }
    let before = host.bytes_read();
    let mut heap = Heap::new(alloc);
    let mut names = Names::new(alloc);
    if carry_out(alloc, host, &store.journal, &planned, &mut heap, &mut names).is_err() {
        return Ok(false);
    }
    let read = host.bytes_read() == before.saturating_add(25);
    let made = heap.len() == 1 && planned.keep.is_empty() && planned.drop.is_empty();
    Ok(read && made && is_ring(&heap, &names))
}

#[test]
fn carries_a_plan_out(rt: HostRuntime) -> Result<(), Fail> {
    let alloc = rt.alloc();
    let mut host = host_over(alloc, &[], Vec::new(alloc), None)?.ok_or("room")?;
    let status = run_words(alloc, &mut host, &["S", "session"], RING.as_bytes())?;
    assert!(rt; status == Status::Done);
    let file = host.file().to_vec(alloc)?;
    let mut host = host_over(alloc, &file, Vec::new(alloc), None)?.ok_or("room")?;
    assert!(rt; is_carried_out(alloc, &mut host)?);
    Ok(())
}
