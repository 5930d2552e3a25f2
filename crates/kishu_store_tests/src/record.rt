// Bodies of each kind of entry, both ways, and heads that are no entry.
use kishu_language::Profile;
use kishu_record::{Entry, EntryFault, MoveTo, commit_in, decode, encode, head_len};
use std::alloc::{AllocError, Global};
use std::fmt::Write;
use std::rc::RcStr;
use std::test::Fail;

/// An entry in words, its head with its pictures, and the body of both.
struct Case {
    words: &'static str,
    head: &'static [u8],
    pictures: &'static [&'static [u8]],
    body: &'static [u8],
}

const CASES: [Case; 6] = [
    Case {
        words: "commit on 0 |print(1 + 2) drops stores",
        head: b"\x01\0\0\0\0\x01\0\0\0\x01\0\0\0\x0cprint(1 + 2)\0\0\0\0\0\0\0\0",
        pictures: &[],
        body: b"\0\0\0\x22\x01\0\0\0\0\x01\0\0\0\x01\0\0\0\x0cprint(1 + 2)\0\0\0\0\0\0\0\0",
    },
    Case {
        words: "commit on 1 | |a drops stores",
        head: b"\x01\0\0\0\x01\x01\0\0\0\x02\0\0\0\0\0\0\0\x01a\0\0\0\0\0\0\0\0",
        pictures: &[],
        body: b"\0\0\0\x1b\x01\0\0\0\x01\x01\0\0\0\x02\0\0\0\0\0\0\0\x01a\0\0\0\0\0\0\0\0",
    },
    Case {
        words: "commit on 1 |y = 0 drops (x y) stores (x) 3 (y) 1",
        head: b"\x01\0\0\0\x01\x01\0\0\0\x01\0\0\0\x05y = 0\0\0\0\x01\0\0\0\x02\x01x\x01y\0\0\0\x02\0\0\0\x01\x01x\0\0\0\0\0\0\0\x03\0\0\0\x01\x01y\0\0\0\0\0\0\0\x01",
        pictures: &[b"\x07\x08\x09", b"\x05"],
        body: b"\0\0\0\x3f\x01\0\0\0\x01\x01\0\0\0\x01\0\0\0\x05y = 0\0\0\0\x01\0\0\0\x02\x01x\x01y\0\0\0\x02\0\0\0\x01\x01x\0\0\0\0\0\0\0\x03\0\0\0\x01\x01y\0\0\0\0\0\0\0\x01\x07\x08\x09\x05",
    },
    Case {
        words: "to commit 1",
        head: b"\x02\0\0\0\0\x01",
        pictures: &[],
        body: b"\0\0\0\x06\x02\0\0\0\0\x01",
    },
    Case {
        words: "to branch main",
        head: b"\x02\x01\x04main",
        pictures: &[],
        body: b"\0\0\0\x07\x02\x01\x04main",
    },
    Case {
        words: "name try at 0",
        head: b"\x03\x03try\0\0\0\0",
        pictures: &[],
        body: b"\0\0\0\x09\x03\x03try\0\0\0\0",
    },
];

/// Cells, each behind a bar.
fn push_cells(words: &mut String, cells: &[RcStr]) -> Result<(), AllocError> {
    for cell in cells {
        words.push_str(" |")?;
        words.push_str(cell.as_str())?;
    }
    Ok(())
}

/// The names of a group, in brackets.
fn push_group(words: &mut String, group: &[RcStr]) -> Result<(), AllocError> {
    let mut mark = " (";
    for name in group {
        words.push_str(mark)?;
        words.push_str(name.as_str())?;
        mark = " ";
    }
    words.push(')')
}

/// The groups that a commit drops.
fn push_dropped(words: &mut String, groups: &[Vec<RcStr>]) -> Result<(), AllocError> {
    words.push_str(" drops")?;
    for group in groups {
        push_group(words, group.as_slice())?;
    }
    Ok(())
}

/// The groups that a commit stores, each with the length of its picture.
fn push_stored(words: &mut String, groups: &[(Vec<RcStr>, u64)]) -> Result<(), AllocError> {
    words.push_str(" stores")?;
    for (group, len) in groups {
        push_group(words, group.as_slice())?;
        write!(words, " {len}")?;
    }
    Ok(())
}

/// An entry in words.
fn told(alloc: Global, entry: &Entry) -> Result<String, AllocError> {
    let mut words = String::new(alloc);
    match entry {
        Entry::Commit {
            parent,
            profile: Profile::One,
            cells,
            dropped,
            stored,
        } => {
            write!(words, "commit on {parent}")?;
            push_cells(&mut words, cells.as_slice())?;
            push_dropped(&mut words, dropped.as_slice())?;
            push_stored(&mut words, stored.as_slice())?;
        }
        Entry::Commit { .. } => words.push_str("commit under other rules")?,
        Entry::Move {
            to: MoveTo::Commit(number),
        } => write!(words, "to commit {number}")?,
        Entry::Move {
            to: MoveTo::Branch(title),
        } => write!(words, "to branch {}", title.as_str())?,
        Entry::Name { name, commit } => write!(words, "name {} at {commit}", name.as_str())?,
    }
    Ok(words)
}

/// Pictures, as `encode` takes them.
fn copied(alloc: Global, pictures: &[&[u8]]) -> Result<Vec<Vec<u8>>, AllocError> {
    let mut all = Vec::new(alloc);
    for picture in pictures {
        all.push(picture.to_vec(alloc)?)?;
    }
    Ok(all)
}

/// How many bytes pictures have in all.
fn size_of(pictures: &[&[u8]]) -> u64 {
    let mut size = 0u64;
    for picture in pictures {
        size = size.wrapping_add(picture.len() as u64);
    }
    size
}

/// Whether a head is read as its entry, which gives the body and the head's length again.
fn holds(alloc: Global, case: &Case) -> Result<bool, AllocError> {
    let Ok(entry) = decode(alloc, case.head, size_of(case.pictures)) else {
        return Ok(false);
    };
    let pictures = copied(alloc, case.pictures)?;
    let body = encode(alloc, &entry, &pictures)?;
    Ok(
        body.as_slice() == case.body
            && head_len(&entry) == case.head.len() as u64
            && told(alloc, &entry)?.as_str() == case.words,
    )
}

#[test]
fn reads_and_writes_each_kind(rt: HostRuntime) -> Result<(), Fail> {
    let alloc = rt.alloc();
    for case in &CASES {
        assert!(rt; holds(alloc, case)?, "{}", case.words);
    }
    Ok(())
}

/// Heads, and the length of their pictures, that are no entry.
const NO_ENTRIES: [(&str, &[u8], u64); 36] = [
    ("nothing", b"", 0),
    ("no kind", b"\0\0\0\0\0", 0),
    ("another kind", b"\x04\x03try\0\0\0\0", 0),
    ("cut in the parent", b"\x01\0\0\0", 0),
    (
        "profile 0",
        b"\x01\0\0\0\0\0\0\0\0\x01\0\0\0\x01a\0\0\0\0\0\0\0\0",
        0,
    ),
    (
        "profile 2",
        b"\x01\0\0\0\0\x02\0\0\0\x01\0\0\0\x01a\0\0\0\0\0\0\0\0",
        0,
    ),
    ("no cells", b"\x01\0\0\0\0\x01\0\0\0\0\0\0\0\0\0\0\0\0", 0),
    ("cut in a text", b"\x01\0\0\0\0\x01\0\0\0\x01\0\0\0\x02a", 0),
    (
        "a text that isn't UTF-8",
        b"\x01\0\0\0\0\x01\0\0\0\x01\0\0\0\x01\xff\0\0\0\0\0\0\0\0",
        0,
    ),
    (
        "cut before the stored groups",
        b"\x01\0\0\0\0\x01\0\0\0\x01\0\0\0\x01a\0\0\0\0",
        0,
    ),
    (
        "one byte more",
        b"\x01\0\0\0\0\x01\0\0\0\x01\0\0\0\x01a\0\0\0\0\0\0\0\0\0",
        0,
    ),
    (
        "pictures without groups",
        b"\x01\0\0\0\0\x01\0\0\0\x01\0\0\0\x01a\0\0\0\0\0\0\0\0",
        1,
    ),
    (
        "a group without names",
        b"\x01\0\0\0\0\x01\0\0\0\x01\0\0\0\x01a\0\0\0\x01\0\0\0\0\0\0\0\0",
        0,
    ),
    (
        "an empty name",
        b"\x01\0\0\0\0\x01\0\0\0\x01\0\0\0\x01a\0\0\0\x01\0\0\0\x01\0\0\0\0\0",
        0,
    ),
    (
        "a name that begins with a digit",
        b"\x01\0\0\0\0\x01\0\0\0\x01\0\0\0\x01a\0\0\0\x01\0\0\0\x01\x021a\0\0\0\0",
        0,
    ),
    (
        "a reserved name",
        b"\x01\0\0\0\0\x01\0\0\0\x01\0\0\0\x01a\0\0\0\x01\0\0\0\x01\x02if\0\0\0\0",
        0,
    ),
    (
        "names that fall",
        b"\x01\0\0\0\0\x01\0\0\0\x01\0\0\0\x01a\0\0\0\x01\0\0\0\x02\x01b\x01a\0\0\0\0",
        0,
    ),
    (
        "a name twice",
        b"\x01\0\0\0\0\x01\0\0\0\x01\0\0\0\x01a\0\0\0\x01\0\0\0\x02\x01a\x01a\0\0\0\0",
        0,
    ),
    (
        "dropped groups that fall",
        b"\x01\0\0\0\0\x01\0\0\0\x01\0\0\0\x01a\0\0\0\x02\0\0\0\x01\x01b\0\0\0\x01\x01a\0\0\0\0",
        0,
    ),
    (
        "a dropped group twice",
        b"\x01\0\0\0\0\x01\0\0\0\x01\0\0\0\x01a\0\0\0\x02\0\0\0\x01\x01a\0\0\0\x01\x01a\0\0\0\0",
        0,
    ),
    (
        "stored groups that fall",
        b"\x01\0\0\0\0\x01\0\0\0\x01\0\0\0\x01a\0\0\0\0\0\0\0\x02\0\0\0\x01\x01b\0\0\0\0\0\0\0\0\0\0\0\x01\x01a\0\0\0\0\0\0\0\0",
        0,
    ),
    (
        "stored groups of the same first name",
        b"\x01\0\0\0\0\x01\0\0\0\x01\0\0\0\x01a\0\0\0\0\0\0\0\x02\0\0\0\x01\x01a\0\0\0\0\0\0\0\0\0\0\0\x02\x01a\x01b\0\0\0\0\0\0\0\0",
        0,
    ),
    (
        "cut in a picture's length",
        b"\x01\0\0\0\0\x01\0\0\0\x01\0\0\0\x01a\0\0\0\0\0\0\0\x01\0\0\0\x01\x01a\0\0\0\0\0\0\0",
        0,
    ),
    (
        "other pictures",
        b"\x01\0\0\0\0\x01\0\0\0\x01\0\0\0\x01a\0\0\0\0\0\0\0\x01\0\0\0\x01\x01a\0\0\0\0\0\0\0\x02",
        1,
    ),
    ("a move without a goal", b"\x02", 0),
    ("a move to another kind of goal", b"\x02\x02\0\0\0\x01", 0),
    ("a move to half a number", b"\x02\0\0\0\x01", 0),
    ("a move and a byte more", b"\x02\0\0\0\0\x01\0", 0),
    ("a move with a picture", b"\x02\0\0\0\0\x01", 1),
    ("a move to a name that isn't UTF-8", b"\x02\x01\x01\xff", 0),
    ("a move to a name and a byte more", b"\x02\x01\x04main\0", 0),
    ("a name that is cut", b"\x03\x03try\0\0\0", 0),
    ("a name that isn't UTF-8", b"\x03\x01\xff\0\0\0\0", 0),
    ("a name and a byte more", b"\x03\x03try\0\0\0\0\0", 0),
    ("a name with a picture", b"\x03\x03try\0\0\0\0", 1),
    ("a name without a commit", b"\x03\x03try", 0),
];

/// Whether no entry has this head and pictures of this length.
fn is_no_entry(alloc: Global, head: &[u8], pictures: u64) -> bool {
    match decode(alloc, head, pictures) {
        Err(EntryFault::NoEntry) => true,
        Ok(_) | Err(EntryFault::NoMemory) => false,
    }
}

#[test]
fn finds_no_entry(rt: HostRuntime) -> Result<(), Fail> {
    let alloc = rt.alloc();
    for (name, head, pictures) in &NO_ENTRIES {
        assert!(rt; is_no_entry(alloc, head, *pictures), "{name}");
    }
    Ok(())
}

/// Whether a head is read in place as the commit on 1 of so many cells, this text the first, that drops and
/// stores so many groups.
fn is_commit(alloc: Global, case: &Case, cells: u32, first: &str, groups: (usize, usize)) -> bool {
    let Ok(Some(commit)) = commit_in(alloc, case.head, size_of(case.pictures)) else {
        return false;
    };
    commit.parent == 1
        && commit.cells == cells
        && commit.first == first
        && (commit.dropped.len(), commit.stored.len()) == groups
}

/// Whether no commit has this head and pictures of this length.
fn is_no_commit(alloc: Global, head: &[u8], pictures: u64) -> bool {
    match commit_in(alloc, head, pictures) {
        Ok(None) => true,
        Ok(Some(_)) | Err(_) => false,
    }
}

#[test]
fn reads_a_commit_in_place(rt: HostRuntime) -> Result<(), Fail> {
    let alloc = rt.alloc();
    assert!(rt; is_commit(alloc, &CASES[1], 2, "", (0, 0)));
    assert!(rt; is_commit(alloc, &CASES[2], 1, "y = 0", (1, 2)));
    for case in &CASES[3..] {
        assert!(rt; is_no_commit(alloc, case.head, 0), "{}", case.words);
    }
    for (name, head, pictures) in &NO_ENTRIES {
        assert!(rt; is_no_commit(alloc, head, *pictures), "{name}");
    }
    Ok(())
}

/// The head of a commit whose one cell has so many bytes.
fn long_head(alloc: Global, size: u32) -> Result<Vec<u8>, AllocError> {
    let mut head = Vec::new(alloc);
    head.extend_from_slice(b"\x01\0\0\0\0\x01\0\0\0\x01")?;
    head.extend_from_slice(&size.to_be_bytes())?;
    for _ in 0..size {
        head.push(b'a')?;
    }
    head.extend_from_slice(b"\0\0\0\0\0\0\0\0")?;
    Ok(head)
}

#[test]
fn finds_no_cell_that_is_too_long(rt: HostRuntime) -> Result<(), Fail> {
    let alloc = rt.alloc();
    let longest = long_head(alloc, 1_048_576)?;
    assert!(rt; decode(alloc, &longest, 0).is_ok());
    let longer = long_head(alloc, 1_048_577)?;
    assert!(rt; is_no_entry(alloc, &longer, 0));
    assert!(rt; is_no_commit(alloc, &longer, 0));
    Ok(())
}
