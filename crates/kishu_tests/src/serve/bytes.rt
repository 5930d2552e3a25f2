// Stores and request lines of other bytes, through a session and through the program. What other notebooks are
// refused for stands beside the tests of notebooks.
ghost use Rattle.std.specs.Prelude.{◌≡◌, ◌<◌};

use super::sessions::run_words;
use super::{FIRST, host_over};
use kishu_host::MemHost;
use kishu_model::Steps;
use kishu_serve::Status;
use kishu_session::{Halt, Session};
use std::alloc::{AllocError, Global};
use std::marker::Brand;
use std::sync::ledger::{Blank, Ledger};
use std::test::Fail;

/// Bytes that are put over the store of one commit from a place on, and at which gate it is damaged then.
type Change = (&'static str, usize, &'static [u8], Option<u64>);

const CHANGES: [Change; 7] = [
    (
        "a length past each file's",
        17,
        b"\xff\xff\xff\xff\xff\xff\xff\xff",
        Some(16),
    ),
    ("a head that is longer than the body", 28, b"\x23", Some(16)),
    ("a parent that isn't there", 33, b"\x01", Some(16)),
    ("profile 3", 34, b"\x03", Some(16)),
    ("no cells", 38, b"\0", Some(16)),
    ("an open gate at the end", 63, b"\xa5", Some(63)),
    ("open gates behind a closed one", 64, &[0xa5; 100], None),
];

/// What `status` tells of that store.
const ONE_COMMIT: &str =
    "{\"answer\":\"status\",\"branch\":\"main\",\"commit\":1,\"commits\":2,\"names\":[],\"records\":1}\n";

/// That store with a change.
fn with_change(alloc: Global, place: usize, bytes: &[u8]) -> Result<Vec<u8>, AllocError> {
    let mut file = FIRST.to_vec(alloc)?;
    file.truncate(place);
    file.extend_from_slice(bytes)?;
    if let Some(rest) = FIRST.get(file.len()..) {
        file.extend_from_slice(rest)?;
    }
    Ok(file)
}

/// Why a session isn't opened over this host. None: it is.
fn attach_fault<L: Ledger>(alloc: Global, host: &mut MemHost, blank: Blank) -> Option<Halt>
    requires name { blank.name ≡ L.name }
    requires parts { blank.parts ≡ L.parts }
    requires some { 0 < L.parts }
{
    let mut steps = Steps::<L>::new(blank);
    match Session::attach(alloc, host, &mut steps) {
        Ok(_) => None,
        Err(halt) => Some(halt),
    }
}

/// How a session's opening, the program and its output end where the store is damaged there.
fn ends(damaged: Option<u64>) -> (Option<Halt>, Status, &'static str) {
    match damaged {
        Some(at) => (Some(Halt::Damaged { at }), Status::Damaged { at }, ""),
        None => (None, Status::Done, ONE_COMMIT),
    }
}

/// Whether that store with a change is opened as it should, by a session and by the program, and stays.
fn is_opened_with(alloc: Global, change: &Change) -> Result<bool, Fail> {
    let (_, place, bytes, damaged) = change;
    let file = with_change(alloc, *place, bytes)?;
    let mut host = host_over(alloc, &file, Vec::new(alloc), None)?.ok_or("room")?;
    let halt = attach_fault::<Brand>(alloc, &mut host, Blank::new(1));
    let status = run_words(alloc, &mut host, &["S", "status"], b"".as_slice())?;
    let (want, ended, out) = ends(*damaged);
    let stays = host.file() == file.as_slice();
    Ok(halt == want && status == ended && host.out() == out.as_bytes() && stays)
}

#[test]
fn opens_a_store_with_other_bytes(rt: HostRuntime) -> Result<(), Fail> {
    let alloc = rt.alloc();
    for change in &CHANGES {
        assert!(rt; is_opened_with(alloc, change)?, "{}", change.0);
    }
    Ok(())
}

/// Lines behind one of 200 brackets, and the answers to them all.
const LINES: &[u8] = b"\n{\"op\":\"log\",\"x\":1}\n{\"op\":\"status\"}\n";

const ANSWERS: &str = r#"{"answer":"refused","number":1,"reason":"BadRequest"}
{"answer":"refused","number":1,"reason":"BadRequest"}
{"answer":"status","branch":"main","commit":1,"commits":2,"names":[],"records":1}
"#;

#[test]
fn lines_that_are_no_requests(rt: HostRuntime) -> Result<(), Fail> {
    let alloc = rt.alloc();
    let mut input = vec![in alloc; b'['; 200]?;
    input.extend_from_slice(LINES)?;
    let mut host = host_over(alloc, &FIRST, Vec::new(alloc), None)?.ok_or("room")?;
    let status = run_words(alloc, &mut host, &["S", "session"], &input)?;
    assert!(rt; status == Status::Done && host.out() == ANSWERS.as_bytes());
    assert!(rt; host.file() == FIRST.as_slice());
    Ok(())
}
