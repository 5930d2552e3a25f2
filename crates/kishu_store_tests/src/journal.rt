// Worked files, and that each call that takes memory succeeds where there is enough.
ghost use Rattle.std.specs.Prelude.{◌≡◌, ◌^◌, ◌∷◌, [], IfOk, codes, map};
ghost use Rattle.std.specs.List.{AllByRecursion};
ghost use Rattle.std.specs.Rc.{rc_str_bytes};
ghost use Rattle.kishu_store.specs.Rules.{IsEntry};
ghost use Rattle.kishu_journal.specs.Found.{entries_of, AreBelow};

use kishu_graph::Graph;
use kishu_host::MemHost;
use kishu_journal::{Entry, Journal, JournalFault, MoveTo, graph_of};
use kishu_language::Profile;
use std::alloc::{AllocError, Global};
use std::process::Abort;
use std::rc::RcStr;
use std::test::Fail;

/// A store with one commit, whose parent is commit 0 and whose one cell is `print(1 + 2)`.
const STORE: [u8; 64] =
    *b"KISHU-JOURNAL-1\n\xa5\0\0\0\0\0\0\0\x26\0\0\0\x22\x01\0\0\0\0\x01\0\0\0\x01\0\0\0\x0cprint(1 + 2)\0\0\0\0\0\0\0\0\0";

/// That store with a closed gate in front of the commit.
const SHUT: [u8; 64] =
    *b"KISHU-JOURNAL-1\n<\0\0\0\0\0\0\0\x26\0\0\0\x22\x01\0\0\0\0\x01\0\0\0\x01\0\0\0\x0cprint(1 + 2)\0\0\0\0\0\0\0\0\0";

/// The body of a first commit with the cell `a`, which stores the name `a` with a picture of two bytes.
const PICTURED: [u8; 43] =
    *b"\0\0\0\x25\x01\0\0\0\0\x01\0\0\0\x01\0\0\0\x01a\0\0\0\0\0\0\0\x01\0\0\0\x01\x01a\0\0\0\0\0\0\0\x02\x07\x08";

const EMPTY: &[u8] = b"KISHU-JOURNAL-1\n\0";

/// A host whose file holds these bytes.
fn host_with(alloc: Global, file: &[u8]) -> Result<MemHost, AllocError> {
    let mut bytes = Vec::new(alloc);
    bytes.extend_from_slice(file)?;
    let room = bytes.len() as u64 + 200;
    MemHost::new(alloc, bytes, room, Vec::new(alloc), None)
}

/// A file, and how many records it holds or why it isn't opened.
struct Case {
    name: &'static str,
    file: &'static [u8],
    answer: Result<usize, JournalFault>,
}

const CASES: [Case; 12] = [
    Case {
        name: "nothing",
        file: b"",
        answer: Ok(0),
    },
    Case {
        name: "17 other bytes",
        file: b"xxxxxxxxxxxxxxxxx",
        answer: Ok(0),
    },
    Case {
        name: "18 other bytes",
        file: b"xxxxxxxxxxxxxxxxxx",
        answer: Err(JournalFault::NotAJournal),
    },
    Case {
        name: "one record",
        file: &STORE,
        answer: Ok(1),
    },
    Case {
        name: "a closed gate, and what isn't read",
        file: &SHUT,
        answer: Ok(0),
    },
    Case {
        name: "cut in a body",
        file: b"KISHU-JOURNAL-1\n\xa5\0\0\0\0\0\0\0\x26\0\0\0\x22\x01\0\0\0\0\x01\0\0\0\x01\0",
        answer: Err(JournalFault::Damaged { at: 16 }),
    },
    Case {
        name: "no gate behind the record",
        file: b"KISHU-JOURNAL-1\n\xa5\0\0\0\0\0\0\0\x26\0\0\0\x22\x01\0\0\0\0\x01\0\0\0\x01\0\0\0\x0cprint(1 + 2)\0\0\0\0\0\0\0\0",
        answer: Err(JournalFault::Damaged { at: 16 }),
    },
    Case {
        name: "a parent that isn't there",
        file: b"KISHU-JOURNAL-1\n\xa5\0\0\0\0\0\0\0\x26\0\0\0\x22\x01\0\0\0\x01\x01\0\0\0\x01\0\0\0\x0cprint(1 + 2)\0\0\0\0\0\0\0\0\0",
        answer: Err(JournalFault::Damaged { at: 16 }),
    },
    Case {
        name: "a cell with a display",
        file: b"KISHU-JOURNAL-1\n\xa5\0\0\0\0\0\0\0\x1c\0\0\0\x18\x01\0\0\0\0\x01\0\0\0\x01\0\0\0\x02[]\0\0\0\0\0\0\0\0\0",
        answer: Ok(1),
    },
    Case {
        name: "a cell without a tree",
        file: b"KISHU-JOURNAL-1\n\xa5\0\0\0\0\0\0\0\x1b\0\0\0\x17\x01\0\0\0\0\x01\0\0\0\x01\0\0\0\x01)\0\0\0\0\0\0\0\0\0",
        answer: Ok(1),
    },
    Case {
        name: "a cell that isn't UTF-8",
        file: b"KISHU-JOURNAL-1\n\xa5\0\0\0\0\0\0\0\x1b\0\0\0\x17\x01\0\0\0\0\x01\0\0\0\x01\0\0\0\x01\xff\0\0\0\0\0\0\0\0\0",
        answer: Err(JournalFault::Damaged { at: 16 }),
    },
    Case {
        name: "a second record that is broken",
        file: b"KISHU-JOURNAL-1\n\xa5\0\0\0\0\0\0\0\x26\0\0\0\x22\x01\0\0\0\0\x01\0\0\0\x01\0\0\0\x0cprint(1 + 2)\0\0\0\0\0\0\0\0\xa5\0\0",
        answer: Err(JournalFault::Damaged { at: 63 }),
    },
];

/// Whether the file is as an opening leaves it: a short one is begun anew, and a longer one stays.
fn is_left(case: &Case, host: &MemHost) -> bool {
    let left = if case.file.len() <= 17 {
        EMPTY
    } else {
        case.file
    };
    host.file() == left
}

/// Whether an opening answers what it should, and leaves the file so.
fn is_opened(alloc: Global, case: &Case) -> Result<bool, AllocError> {
    let mut host = host_with(alloc, case.file)?;
    let answer = match Journal::attach(alloc, &mut host) {
        Ok((_, found)) => Ok(found.len()),
        Err(fault) => Err(fault),
    };
    Ok(answer == case.answer && is_left(case, &host))
}

/// The same of an opening that makes the graph.
fn is_opened_with_graph(alloc: Global, case: &Case) -> Result<bool, AllocError> {
    let mut host = host_with(alloc, case.file)?;
    let answer = match Journal::open_store(alloc, &mut host) {
        Ok(store) => Ok(store.graph.records() as usize),
        Err(fault) => Err(fault),
    };
    Ok(answer == case.answer && is_left(case, &host))
}

#[test]
fn opens_stores(rt: HostRuntime) -> Result<(), Fail> {
    let alloc = rt.alloc();
    for case in &CASES {
        assert!(rt; is_opened(alloc, case)?, "{}", case.name);
    }
    Ok(())
}

#[test]
fn opens_stores_with_their_graphs(rt: HostRuntime) -> Result<(), Fail> {
    let alloc = rt.alloc();
    for case in &CASES {
        assert!(rt; is_opened_with_graph(alloc, case)?, "{}", case.name);
    }
    Ok(())
}

/// Bytes that are put over that store from a place on, and how many records it holds then or why it isn't opened.
type Change = (
    &'static str,
    usize,
    &'static [u8],
    Result<usize, JournalFault>,
);

const CHANGES: [Change; 7] = [
    (
        "a length past each file's",
        17,
        b"\xff\xff\xff\xff\xff\xff\xff\xff",
        Err(JournalFault::Damaged { at: 16 }),
    ),
    (
        "a head that is longer than the body",
        28,
        b"\x23",
        Err(JournalFault::Damaged { at: 16 }),
    ),
    (
        "a parent that isn't there",
        33,
        b"\x01",
        Err(JournalFault::Damaged { at: 16 }),
    ),
    (
        "profile 3",
        34,
        b"\x03",
        Err(JournalFault::Damaged { at: 16 }),
    ),
    ("no cells", 38, b"\0", Err(JournalFault::Damaged { at: 16 })),
    (
        "an open gate at the end",
        63,
        b"\xa5",
        Err(JournalFault::Damaged { at: 63 }),
    ),
    ("open gates behind a closed one", 64, &[0xa5; 100], Ok(1)),
];

/// Whether that store with a change is opened as it should, and stays.
fn is_opened_with(alloc: Global, change: &Change) -> Result<bool, AllocError> {
    let (_, place, bytes, wanted) = change;
    let mut file = STORE.to_vec(alloc)?;
    file.truncate(*place);
    file.extend_from_slice(bytes)?;
    if let Some(rest) = STORE.get(file.len()..) {
        file.extend_from_slice(rest)?;
    }
    let mut host = host_with(alloc, &file)?;
    let answer = match Journal::attach(alloc, &mut host) {
        Ok((_, found)) => Ok(found.len()),
        Err(fault) => Err(fault),
    };
    Ok(answer == *wanted && host.file() == file.as_slice())
}

#[test]
fn opens_a_store_with_other_bytes(rt: HostRuntime) -> Result<(), Fail> {
    let alloc = rt.alloc();
    for change in &CHANGES {
        assert!(rt; is_opened_with(alloc, change)?, "{}", change.0);
    }
    Ok(())
}

/// Whether a record says a commit of commit 0 with the one cell `print(1 + 2)`.
fn is_one_sum(entry: &Entry) -> bool {
    match entry {
        Entry::Commit {
            parent: 0,
            profile: Profile::One,
            cells,
            ..
        } => match cells.as_slice() {
            [cell] => cell.as_str() == "print(1 + 2)",
            _ => false,
        },
        _ => false,
    }
}

#[test]
fn answers_a_record_with_its_place(rt: HostRuntime) -> Result<(), Fail> {
    let alloc = rt.alloc();
    let mut host = host_with(alloc, &STORE)?;
    let (journal, found) = Journal::attach(alloc, &mut host).expect(&rt, "it opens");
    assert!(rt; !journal.is_closed());
    assert!(rt; found.len() == 1);
    assert!(rt; found[0].0 == 25);
    assert!(rt; is_one_sum(&found[0].1));
    Ok(())
}

/// A store of these records, by their bodies.
fn store_of(alloc: Global, bodies: &[&[u8]]) -> Result<Vec<u8>, AllocError> {
    let mut file = Vec::new(alloc);
    file.extend_from_slice(b"KISHU-JOURNAL-1\n")?;
    for body in bodies {
        file.push(0xa5)?;
        file.extend_from_slice(&(body.len() as u64).to_be_bytes())?;
        file.extend_from_slice(body)?;
    }
    file.push(0)?;
    Ok(file)
}

/// A commit on commit 0 and one on commit 1, each with the cell `a`.
const FIRST: &[u8] = b"\0\0\0\x17\x01\0\0\0\0\x01\0\0\0\x01\0\0\0\x01a\0\0\0\0\0\0\0\0";

const SECOND: &[u8] = b"\0\0\0\x17\x01\0\0\0\x01\x01\0\0\0\x01\0\0\0\x01a\0\0\0\0\0\0\0\0";

/// The head to commit 0, to commit 1, and to the branch `main`.
const TO_ROOT: &[u8] = b"\0\0\0\x06\x02\0\0\0\0\0";

const TO_FIRST: &[u8] = b"\0\0\0\x06\x02\0\0\0\0\x01";

const TO_MAIN: &[u8] = b"\0\0\0\x07\x02\x01\x04main";

/// The branch `try` at commit 0, and the head there.
const TRY: &[u8] = b"\0\0\0\x09\x03\x03try\0\0\0\0";

const TO_TRY: &[u8] = b"\0\0\0\x06\x02\x01\x03try";

/// A commit on commit 1 that stores that name too, and one that drops it before, with a picture of one byte.
const AGAIN: &[u8] =
    b"\0\0\0\x25\x01\0\0\0\x01\x01\0\0\0\x01\0\0\0\x01a\0\0\0\0\0\0\0\x01\0\0\0\x01\x01a\0\0\0\0\0\0\0\x01\x09";

const ANEW: &[u8] =
    b"\0\0\0\x2b\x01\0\0\0\x01\x01\0\0\0\x01\0\0\0\x01a\0\0\0\x01\0\0\0\x01\x01a\0\0\0\x01\0\0\0\x01\x01a\0\0\0\0\0\0\0\x01\x09";

/// Records, the last of which fits nothing, and the place of the gate in front of it.
const UNFIT: [(&str, &[&[u8]], u64); 19] = [
    ("a commit that isn't the head's child", &[SECOND], 16),
    ("a commit on the head of before", &[FIRST, FIRST], 52),
    (
        "a commit after the head has moved",
        &[FIRST, TO_ROOT, SECOND],
        71,
    ),
    (
        "a dropped group",
        &[b"\0\0\0\x1d\x01\0\0\0\0\x01\0\0\0\x01\0\0\0\x01a\0\0\0\x01\0\0\0\x01\x01a\0\0\0\0"],
        16,
    ),
    ("a group that stands there already", &[&PICTURED, AGAIN], 68),
    (
        "a move to a commit that isn't there",
        &[FIRST, b"\0\0\0\x06\x02\0\0\0\0\x02"],
        52,
    ),
    ("a move to a branch that isn't there", &[FIRST, TO_TRY], 52),
    (
        "a move to a branch that reads as a commit",
        &[b"\0\0\0\x04\x02\x01\x010"],
        16,
    ),
    (
        "a name that no branch may have",
        &[b"\0\0\0\x07\x03\x019\0\0\0\0"],
        16,
    ),
    (
        "the name of the first branch",
        &[b"\0\0\0\x0a\x03\x04main\0\0\0\0"],
        16,
    ),
    ("a name that is taken", &[TRY, FIRST, TRY], 74),
    (
        "a name at a commit that isn't there",
        &[b"\0\0\0\x09\x03\x03try\0\0\0\x01"],
        16,
    ),
    (
        "a commit without cells",
        &[b"\0\0\0\x12\x01\0\0\0\0\x01\0\0\0\0\0\0\0\0\0\0\0\0"],
        16,
    ),
    (
        "another profile",
        &[b"\0\0\0\x17\x01\0\0\0\0\x02\0\0\0\x01\0\0\0\x01a\0\0\0\0\0\0\0\0"],
        16,
    ),
    (
        "pictures of no group",
        &[b"\0\0\0\x06\x02\0\0\0\0\0\x07"],
        16,
    ),
    (
        "a head that is longer than the body",
        &[b"\0\0\0\x07\x02\0\0\0\0\0"],
        16,
    ),
    ("a body of three bytes", &[TO_ROOT, b"\0\0\0"], 35),
    ("an empty body", &[b""], 16),
    ("another kind", &[b"\0\0\0\x06\x04\0\0\0\0\0"], 16),
];

/// Whether the store of these records is damaged at a place.
fn is_damaged(alloc: Global, bodies: &[&[u8]], place: u64) -> Result<bool, AllocError> {
    let mut host = host_with(alloc, &store_of(alloc, bodies)?)?;
    match Journal::attach(alloc, &mut host) {
        Err(JournalFault::Damaged { at }) => Ok(at == place),
        _ => Ok(false),
    }
}

#[test]
fn opens_no_store_with_a_record_that_does_not_fit(rt: HostRuntime) -> Result<(), Fail> {
    let alloc = rt.alloc();
    for row in &UNFIT {
        assert!(rt; is_damaged(alloc, row.1, row.2)?, "{}", row.0);
    }
    Ok(())
}

/// Whether these are the branches.
fn are_branches(branches: &[(RcStr, u32)], wanted: &[(&str, u32)]) -> bool {
    branches.len() == wanted.len()
        && branches
            .iter()
            .zip(wanted)
            .all(|(a, b)| a.0.as_str() == b.0 && a.1 == b.1)
}

#[test]
fn makes_the_graph_of_records(rt: HostRuntime) -> Result<(), Fail> {
    let alloc = rt.alloc();
    let bodies = [
        FIRST, TO_ROOT, TRY, TO_TRY, FIRST, TO_FIRST, TO_MAIN, SECOND,
    ];
    let mut host = host_with(alloc, &store_of(alloc, &bodies)?)?;
    let (_, found) = Journal::attach(alloc, &mut host).expect(&rt, "it opens");
    assert!(rt; found.len() == 8);
    assert!(rt; found[2].0 == 80);
    let graph = graph_of(alloc, &found)?.expect(&rt, "they fit");
    assert!(rt; graph.records() == 8);
    assert!(rt; graph.commits() == 4);
    assert!(rt; graph.head().commit == 3);
    assert!(rt; are_branches(&graph.branches()?, &[("main", 3), ("try", 2)]));
    Ok(())
}

/// The head at a commit, as a record at place 25 says it.
fn one_move(alloc: Global, number: u32) -> Result<Vec<(u64, Entry)>, AllocError>
    ensures rules { IfOk result (λ v. AllByRecursion IsEntry (entries_of v.items)) }
    ensures places { IfOk result (λ v. AreBelow (2 ^ 63) v.items) }
{
    let mut found = Vec::new(alloc);
    found.push((
        25,
        Entry::Move {
            to: MoveTo::Commit(number),
        },
    ))?;
    Ok(found)
}

#[test]
fn makes_no_graph_of_records_that_do_not_fit(rt: HostRuntime) -> Result<(), Fail> {
    let alloc = rt.alloc();
    assert!(rt; graph_of(alloc, &one_move(alloc, 0)?)?.is_some());
    assert!(rt; graph_of(alloc, &one_move(alloc, 1)?)?.is_none());
    Ok(())
}

/// The text `a` alone.
fn one_text(alloc: Global) -> Result<Vec<RcStr>, AllocError>
    ensures { IfOk result (λ v. map rc_str_bytes v.items ≡ codes "a" ∷ []) }
{
    let mut texts = Vec::new(alloc);
    texts.push(RcStr::from_str(alloc, "a")?)?;
    Ok(texts)
}

/// A first commit that stores the name `a` with a picture of so many bytes, as a record at place 25 says
/// it.
fn one_picture(alloc: Global, len: u64) -> Result<Vec<(u64, Entry)>, AllocError>
    ensures rules { IfOk result (λ v. AllByRecursion IsEntry (entries_of v.items)) }
    ensures places { IfOk result (λ v. AreBelow (2 ^ 63) v.items) }
{
    let cells = one_text(alloc)?;
    let names = one_text(alloc)?;
    let mut stored = Vec::new(alloc);
    stored.push((names, len))?;
    let dropped = Vec::new(alloc);
    let mut found = Vec::new(alloc);
    found.push((
        25,
        Entry::Commit {
            parent: 0,
            profile: Profile::One,
            cells,
            dropped,
            stored,
        },
    ))?;
    Ok(found)
}

#[test]
fn makes_no_graph_of_a_picture_that_is_too_large(rt: HostRuntime) -> Result<(), Fail> {
    let alloc = rt.alloc();
    assert!(rt; graph_of(alloc, &one_picture(alloc, 268_435_456)?)?.is_some());
    assert!(rt; graph_of(alloc, &one_picture(alloc, 268_435_457)?)?.is_none());
    Ok(())
}

/// The commit of the one row of a commit's table, and where its picture stands, and how long that is; or
/// three times 0.
fn one_row(graph: &Graph, commit: u32) -> Result<(u32, u64, u64), AllocError> {
    if commit >= graph.commits() {
        return Ok((0, 0, 0));
    }
    match graph.table(commit)?.rows.as_slice() {
        [row] => Ok((row.version, row.place, row.len)),
        _ => Ok((0, 0, 0)),
    }
}

/// Appends that commit to a store, and answers its body's place; or 0, where the store has a commit.
fn append_one(rt: &impl Abort, alloc: Global, host: &mut MemHost) -> Result<u64, JournalFault> {
    let (mut journal, found) = Journal::attach(alloc, host)?;
    if !found.is_empty() {
        return Ok(0);
    }
    let place = journal.append(alloc, host, &PICTURED)?;
    assert!(rt; !journal.is_closed());
    Ok(place)
}

/// Appends that commit to a store without commits, and opens it again.
fn appends_to(rt: &impl Abort, alloc: Global, file: &[u8]) -> Result<(), AllocError> {
    let mut host = host_with(alloc, file)?;
    assert!(rt; append_one(rt, alloc, &mut host) == Ok(25));
    assert!(rt; host.file() == store_of(alloc, &[&PICTURED])?.as_slice());
    let store = Journal::open_store(alloc, &mut host).expect(rt, "it opens");
    assert!(rt; one_row(&store.graph, 1)? == (1, 66, 2));
    let part = store
        .journal
        .read_part(alloc, &mut host, 66, 2)
        .expect(rt, "a part");
    assert!(rt; part.as_slice() == b"\x07\x08".as_slice());
    Ok(())
}

#[test]
fn appends_a_record(rt: HostRuntime) -> Result<(), Fail> {
    appends_to(&rt, rt.alloc(), b"")?;
    Ok(())
}

#[test]
fn appends_over_what_is_behind_a_closed_gate(rt: HostRuntime) -> Result<(), Fail> {
    appends_to(&rt, rt.alloc(), &SHUT)?;
    Ok(())
}

#[test]
fn tells_the_tables_of_commits(rt: HostRuntime) -> Result<(), Fail> {
    let alloc = rt.alloc();
    let mut host = host_with(alloc, &store_of(alloc, &[&PICTURED, ANEW])?)?;
    let store = Journal::open_store(alloc, &mut host).expect(&rt, "it opens");
    assert!(rt; one_row(&store.graph, 1)? == (1, 66, 2));
    assert!(rt; one_row(&store.graph, 2)? == (2, 124, 1));
    Ok(())
}

/// Parts of that store by their places and lengths, and how long they are or why they aren't read.
const PARTS: [(u64, u64, Result<usize, JournalFault>); 5] = [
    (0, 64, Ok(64)),
    (64, 0, Ok(0)),
    (0, 65, Err(JournalFault::Damaged { at: 0 })),
    (63, 2, Err(JournalFault::Damaged { at: 63 })),
    (1000, 1, Err(JournalFault::Damaged { at: 1000 })),
];

/// Whether a part is read that long, or for that reason not.
fn is_read(
    alloc: Global,
    journal: &Journal,
    host: &mut MemHost,
    part: &(u64, u64, Result<usize, JournalFault>),
) -> bool {
    let read = match journal.read_part(alloc, host, part.0, part.1) {
        Ok(bytes) => Ok(bytes.len()),
        Err(fault) => Err(fault),
    };
    read == part.2
}

#[test]
fn reads_parts(rt: HostRuntime) -> Result<(), Fail> {
    let alloc = rt.alloc();
    let mut host = host_with(alloc, &STORE)?;
    let (journal, _) = Journal::attach(alloc, &mut host).expect(&rt, "it opens");
    let before = host.bytes_read();
    let part = journal
        .read_part(alloc, &mut host, 43, 12)
        .expect(&rt, "a part");
    assert!(rt; part.as_slice() == b"print(1 + 2)".as_slice());
    assert!(rt; host.bytes_read().wrapping_sub(before) == 12);
    for part in &PARTS {
        assert!(rt; is_read(alloc, &journal, &mut host, part), "{}", part.0);
    }
    Ok(())
}
