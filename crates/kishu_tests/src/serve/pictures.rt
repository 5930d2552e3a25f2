// Pictures in stores: what a commit stores, and what opening and a checkout load.
use super::sessions::{is_answered, run_words};
use super::{FIRST, host_over, run_cell_of};
use kishu_serve::Status;
use std::alloc::Global;
use std::test::Fail;

/// The store of one commit with the cell `a = [1]; b = a`. Its picture begins at byte 81.
const SHARED: [u8; 126] =
    *b"KISHU-JOURNAL-1\n\xa5\0\0\0\0\0\0\0d\0\0\04\x01\0\0\0\0\x01\0\0\0\x01\0\0\0\x0ea = [1]; b = a\0\0\0\0\0\0\0\x01\0\0\0\x02\x01a\x01b\0\0\0\0\0\0\0,\0\0\0\x02\x01a\x08\0\0\0\0\x01b\x08\0\0\0\0\0\0\0\x01\x01\0\0\0\x01\x03\0\0\0\0\0\0\0\0\0\0\0\0\0\0\0\x01\0";

/// The store of two commits. The first stores the group of `x` and `y` and that of `z`. The second drops the group of
/// `x` and `y`, and stores one of each.
pub(super) const PARTED: [u8; 338] =
    *b"KISHU-JOURNAL-1\n\xa5\0\0\0\0\0\0\0\xac\0\0\0M\x01\0\0\0\0\x01\0\0\0\x01\0\0\0\x19x = [1]; y = [x]; z = [2]\0\0\0\0\0\0\0\x02\0\0\0\x02\x01x\x01y\0\0\0\0\0\0\06\0\0\0\x01\x01z\0\0\0\0\0\0\0%\0\0\0\x02\x01x\x08\0\0\0\0\x01y\x08\0\0\0\x01\0\0\0\x02\x01\0\0\0\x01\x03\0\0\0\0\0\0\0\0\0\0\0\0\0\0\0\x01\x01\0\0\0\x01\x08\0\0\0\0\0\0\0\x01\x01z\x08\0\0\0\0\0\0\0\x01\x01\0\0\0\x01\x03\0\0\0\0\0\0\0\0\0\0\0\0\0\0\0\x02\xa5\0\0\0\0\0\0\0\x83\0\0\0?\x01\0\0\0\x01\x01\0\0\0\x01\0\0\0\x05y = 0\0\0\0\x01\0\0\0\x02\x01x\x01y\0\0\0\x02\0\0\0\x01\x01x\0\0\0\0\0\0\0%\0\0\0\x01\x01y\0\0\0\0\0\0\0\x1b\0\0\0\x01\x01x\x08\0\0\0\0\0\0\0\x01\x01\0\0\0\x01\x03\0\0\0\0\0\0\0\0\0\0\0\0\0\0\0\x01\0\0\0\x01\x01y\x03\0\0\0\0\0\0\0\0\0\0\0\0\0\0\0\0\0\0\0\0\0";

/// The store of one commit with the cell `a = [1]; b = 2`, which has one group of all names, as commits once had.
const WHOLE: [u8; 138] =
    *b"KISHU-JOURNAL-1\n\xa5\0\0\0\0\0\0\0p\0\0\04\x01\0\0\0\0\x01\0\0\0\x01\0\0\0\x0ea = [1]; b = 2\0\0\0\0\0\0\0\x01\0\0\0\x02\x01a\x01b\0\0\0\0\0\0\08\0\0\0\x02\x01a\x08\0\0\0\0\x01b\x03\0\0\0\0\0\0\0\0\0\0\0\0\0\0\0\x02\0\0\0\x01\x01\0\0\0\x01\x03\0\0\0\0\0\0\0\0\0\0\0\0\0\0\0\x01\0";

/// That store once the cell `b = 3` is run: the group is dropped, and one of each name is stored.
const SINGLE: [u8; 278] =
    *b"KISHU-JOURNAL-1\n\xa5\0\0\0\0\0\0\0p\0\0\04\x01\0\0\0\0\x01\0\0\0\x01\0\0\0\x0ea = [1]; b = 2\0\0\0\0\0\0\0\x01\0\0\0\x02\x01a\x01b\0\0\0\0\0\0\08\0\0\0\x02\x01a\x08\0\0\0\0\x01b\x03\0\0\0\0\0\0\0\0\0\0\0\0\0\0\0\x02\0\0\0\x01\x01\0\0\0\x01\x03\0\0\0\0\0\0\0\0\0\0\0\0\0\0\0\x01\xa5\0\0\0\0\0\0\0\x83\0\0\0?\x01\0\0\0\x01\x01\0\0\0\x01\0\0\0\x05b = 3\0\0\0\x01\0\0\0\x02\x01a\x01b\0\0\0\x02\0\0\0\x01\x01a\0\0\0\0\0\0\0%\0\0\0\x01\x01b\0\0\0\0\0\0\0\x1b\0\0\0\x01\x01a\x08\0\0\0\0\0\0\0\x01\x01\0\0\0\x01\x03\0\0\0\0\0\0\0\0\0\0\0\0\0\0\0\x01\0\0\0\x01\x01b\x03\0\0\0\0\0\0\0\0\0\0\0\0\0\0\0\x03\0\0\0\0\0";

/// Files, cells that are run on them, and the files then.
const COMMITS: [(&[u8], &[&str], &[u8]); 3] = [
    (b"", &["a = [1]; b = a"], &SHARED),
    (b"", &["x = [1]; y = [x]; z = [2]", "y = 0"], &PARTED),
    (&WHOLE, &["b = 3"], &SINGLE),
];

/// Whether a row's cells are done, and leave its file.
fn are_stored(alloc: Global, row: &(&[u8], &[&str], &[u8])) -> Result<bool, Fail> {
    let (before, cells, file) = row;
    let mut host = host_over(alloc, before, Vec::new(alloc), None)?.ok_or("room")?;
    for cell in *cells {
        if run_cell_of(alloc, &mut host, cell.as_bytes())? != Status::Done {
            return Ok(false);
        }
    }
    Ok(host.file() == *file)
}

#[test]
fn commits_store_what_changed(rt: HostRuntime) -> Result<(), Fail> {
    let alloc = rt.alloc();
    for row in &COMMITS {
        assert!(rt; are_stored(alloc, row)?, "{} bytes", row.2.len());
    }
    Ok(())
}

/// Files with one group of all names, lines of a session on each, and the lines of its answers.
const WHOLES: [(&[u8], &str, &str); 2] = [
    (
        &WHOLE,
        r#"{"op":"stored","of":"1"}
{"op":"cell","text":"b = 3"}
{"op":"stored","of":"2"}
{"op":"checkout","to":"1"}
{"op":"cell","text":"print(a, b)"}
"#,
        r#"{"answer":"stored","commit":1,"dropped":[],"stored":[["a","b"]]}
{"answer":"cell","commit":2,"count":2,"outcome":"ok","outputs":[]}
{"answer":"stored","commit":2,"dropped":[["a","b"]],"stored":[["a"],["b"]]}
{"answer":"checkout","commit":1,"head":null}
{"answer":"cell","commit":3,"count":2,"outcome":"ok","outputs":[{"name":"stdout","output_type":"stream","text":"[1] 2\n"}]}
"#,
    ),
    (
        &SINGLE,
        r#"{"op":"cell","text":"print(a, b)"}
{"op":"status"}
"#,
        r#"{"answer":"cell","commit":3,"count":3,"outcome":"ok","outputs":[{"name":"stdout","output_type":"stream","text":"[1] 3\n"}]}
{"answer":"status","branch":"main","commit":3,"commits":4,"names":["a","b"],"records":3}
"#,
    ),
];

#[test]
fn a_group_of_all_names_is_dropped(rt: HostRuntime) -> Result<(), Fail> {
    let alloc = rt.alloc();
    for (file, input, want) in &WHOLES {
        assert!(rt; is_answered(alloc, file, input, want)?, "{want}");
    }
    Ok(())
}

/// The answer to `print(a, a is b)` where the list's item is 2.
const SECOND_LINE: &str =
    "{\"answer\":\"cell\",\"commit\":2,\"count\":2,\"outcome\":\"ok\",\"outputs\":[{\"name\":\"stdout\",\"output_type\":\"stream\",\"text\":\"[2] True\\n\"}]}\n";

#[test]
fn opening_takes_another_picture(rt: HostRuntime) -> Result<(), Fail> {
    let alloc = rt.alloc();
    let mut file = SHARED;
    file[124] = 2;
    let mut host = host_over(alloc, &file, Vec::new(alloc), None)?.ok_or("room")?;
    let status = run_cell_of(alloc, &mut host, b"print(a, a is b)".as_slice())?;
    assert!(rt; status == Status::Done);
    assert!(rt; host.out() == SECOND_LINE.as_bytes());
    Ok(())
}

/// Whether that store with this byte at that place has no picture at byte 81, and nothing is done with it.
fn lacks_its_picture(alloc: Global, place: usize, byte: u8) -> Result<bool, Fail> {
    let mut file = SHARED.to_vec(alloc)?;
    let Some(changed) = file.get_mut(place) else {
        return Ok(false);
    };
    *changed = byte;
    let mut host = host_over(alloc, &file, Vec::new(alloc), None)?.ok_or("room")?;
    let status = run_cell_of(alloc, &mut host, b"print(a, a is b)".as_slice())?;
    let stays = host.out().is_empty() && host.file() == file.as_slice();
    Ok(stays && status == Status::Damaged { at: 81 })
}

#[test]
fn opening_finds_no_picture(rt: HostRuntime) -> Result<(), Fail> {
    let alloc = rt.alloc();
    // The picture has three names, a node that isn't there, the name `c`, and a kind of node that there isn't.
    assert!(rt; lacks_its_picture(alloc, 84, 3)?);
    assert!(rt; lacks_its_picture(alloc, 98, 1)?);
    assert!(rt; lacks_its_picture(alloc, 93, b'c')?);
    assert!(rt; lacks_its_picture(alloc, 103, 7)?);
    Ok(())
}

#[test]
fn a_checkout_finds_no_picture(rt: HostRuntime) -> Result<(), Fail> {
    let alloc = rt.alloc();
    let mut host = host_over(alloc, &SHARED, Vec::new(alloc), None)?.ok_or("room")?;
    let left = run_words(alloc, &mut host, &["S", "checkout", "0"], b"".as_slice())?;
    assert!(rt; left == Status::Done);
    // The picture has three names. The head's commit is the root, so it isn't looked at in opening.
    let mut file = host.file().to_vec(alloc)?;
    assert!(rt; file.len() > 84);
    file[84] = 3;
    let mut host = host_over(alloc, &file, Vec::new(alloc), None)?.ok_or("room")?;
    let stays = run_words(alloc, &mut host, &["S", "status"], b"".as_slice())?;
    assert!(rt; stays == Status::Done);
    let back = run_words(alloc, &mut host, &["S", "checkout", "main"], b"".as_slice())?;
    assert!(rt; back == Status::Damaged { at: 81 });
    assert!(rt; host.file() == file.as_slice());
    Ok(())
}

/// The names that are told of a store whose one commit has no groups: the cell isn't run.
const NO_NAMES: &str =
    "{\"answer\":\"status\",\"branch\":\"main\",\"commit\":1,\"commits\":2,\"names\":[],\"records\":1}\n";

#[test]
fn a_commit_without_groups_has_no_names(rt: HostRuntime) -> Result<(), Fail> {
    let alloc = rt.alloc();
    let mut file = FIRST;
    // The cell's text is `p = [1 + 2] ` in place of `print(1 + 2)`.
    file[43..55].copy_from_slice(b"p = [1 + 2] ");
    let mut host = host_over(alloc, &file, Vec::new(alloc), None)?.ok_or("room")?;
    let status = run_words(alloc, &mut host, &["S", "status"], b"".as_slice())?;
    assert!(rt; status == Status::Done);
    assert!(rt; host.out() == NO_NAMES.as_bytes());
    Ok(())
}

/// Stores, lines of a session on each, and how many bytes it reads besides those of its opening: a commit the pictures
/// of the groups that its cells accessed and left as they were, and a checkout those of the groups that differ.
const READS: [(&[u8], &str, u64); 4] = [
    // The list has the picture that is stored.
    (
        b"",
        r#"{"op":"cell","text":"a = [1]"}
{"op":"cell","text":"a[0] = 1"}
"#,
        37,
    ),
    // It has another one, which is told without the stored one.
    (
        b"",
        r#"{"op":"cell","text":"a = [1]"}
{"op":"cell","text":"a[0] = 2"}
"#,
        0,
    ),
    // The first cell leaves the number of `y`. The others make one group of all names but that, which they don't
    // access.
    (
        &PARTED,
        r#"{"op":"cell","text":"x.append(y)"}
{"op":"cells","texts":["z = x","w = [z]"]}
{"op":"stored","of":"1"}
"#,
        27,
    ),
    (
        &PARTED,
        r#"{"op":"cell","text":"x.append(y)"}
{"op":"checkout","to":"1"}
"#,
        81,
    ),
];

/// How many bytes a session with these lines reads, where it is done.
fn read_by(alloc: Global, file: &[u8], input: &str) -> Result<Option<u64>, Fail> {
    let mut host = host_over(alloc, file, Vec::new(alloc), None)?.ok_or("room")?;
    let status = run_words(alloc, &mut host, &["S", "session"], input.as_bytes())?;
    if status != Status::Done {
        return Ok(None);
    }
    Ok(Some(host.bytes_read()))
}

/// Whether it reads so many bytes besides those of its opening.
fn reads_besides(alloc: Global, row: &(&[u8], &str, u64)) -> Result<bool, Fail> {
    let (file, input, bytes) = row;
    let Some(opening) = read_by(alloc, file, "")? else {
        return Ok(false);
    };
    let all = read_by(alloc, file, input)?;
    Ok(all == Some(opening.saturating_add(*bytes)))
}

#[test]
fn commits_read_what_stays(rt: HostRuntime) -> Result<(), Fail> {
    let alloc = rt.alloc();
    for row in &READS {
        assert!(rt; reads_besides(alloc, row)?, "{}", row.1);
    }
    Ok(())
}
