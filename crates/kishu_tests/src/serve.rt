ghost use Rattle.std.specs.Prelude.{◌≡◌, ◌<◌};

mod bytes;
mod cells;
mod checkouts;
mod cut_short;
mod generated;
mod heaps;
mod language;
mod notebooks;
mod pictures;
mod sessions;
mod stops;
mod user;
mod values;

use kishu_host::{Host, MemHost, MemSource, Source};
use kishu_model::Steps;
use kishu_serve::{Status, kishu};
use std::alloc::{AllocError, Global};
use std::marker::Brand;
use std::sync::ledger::{Blank, Ledger};
use std::test::Fail;

/// The store file of one commit with the cell `print(1 + 2)`.
const FIRST: [u8; 64] =
    *b"KISHU-JOURNAL-1\n\xa5\0\0\0\0\0\0\0\x26\0\0\0\x22\x01\0\0\0\0\x01\0\0\0\x01\0\0\0\x0cprint(1 + 2)\0\0\0\0\0\0\0\0\0";

const FIRST_LINE: &str =
    "{\"answer\":\"cell\",\"commit\":1,\"count\":1,\"outcome\":\"ok\",\"outputs\":[{\"name\":\"stdout\",\"output_type\":\"stream\",\"text\":\"3\\n\"}]}\n";

fn counted<H: Host, S: Source, L: Ledger>(
    alloc: Global,
    words: &[String],
    source: &mut S,
    host: &mut H,
    blank: Blank,
) -> Status
    requires name { blank.name ≡ L.name }
    requires parts { blank.parts ≡ L.parts }
    requires some { 0 < L.parts }
{
    let mut steps = Steps::<L>::new(blank);
    kishu(alloc, words, source, host, &mut steps)
}

fn words_of(alloc: Global, texts: &[&str]) -> Result<Vec<String>, AllocError> {
    let mut words = Vec::new(alloc);
    for text in texts {
        words.push(String::from_str(alloc, text)?)?;
    }
    Ok(words)
}

/// Runs these words in memory, where nobody counts the steps.
fn run_in_memory(
    alloc: Global,
    words: &[String],
    source: &mut MemSource,
    host: &mut MemHost,
) -> Status {
    counted::<MemHost, MemSource, Brand>(alloc, words, source, host, Blank::new(1))
}

/// Runs `S cell` with this input.
fn run_cell_of(alloc: Global, host: &mut MemHost, input: &[u8]) -> Result<Status, AllocError> {
    let words = words_of(alloc, &["S", "cell"])?;
    let mut source = MemSource::new(alloc, input.to_vec(alloc)?, Vec::new(alloc))?;
    Ok(run_in_memory(alloc, &words, &mut source, host))
}

/// A host over these bytes, with much room.
fn host_over(
    alloc: Global,
    file: &[u8],
    fail: Vec<u64>,
    stop: Option<u64>,
) -> Result<Option<MemHost>, AllocError> {
    if file.len() > 8_000_000 {
        return Ok(None);
    }
    let host = MemHost::new(alloc, file.to_vec(alloc)?, 8_000_000, fail, stop)?;
    Ok(Some(host))
}

#[test]
fn the_first_cell(rt: HostRuntime) -> Result<(), Fail> {
    let alloc = rt.alloc();
    let mut host = host_over(alloc, &[], Vec::new(alloc), None)?.ok_or("room")?;
    let status = run_cell_of(alloc, &mut host, b"print(1 + 2)".as_slice())?;
    assert!(rt; status == Status::Done);
    assert!(rt; host.out() == FIRST_LINE.as_bytes());
    assert!(rt; host.file() == FIRST.as_slice());
    Ok(())
}

/// The same file with its record's gate closed.
const CLOSED: [u8; 64] =
    *b"KISHU-JOURNAL-1\n\x3c\0\0\0\0\0\0\0\x26\0\0\0\x22\x01\0\0\0\0\x01\0\0\0\x01\0\0\0\x0cprint(1 + 2)\0\0\0\0\0\0\0\0\0";

/// The first 40 bytes of that file.
const CUT: [u8; 40] =
    *b"KISHU-JOURNAL-1\n\xa5\0\0\0\0\0\0\0\x26\0\0\0\x22\x01\0\0\0\0\x01\0\0\0\x01\0";

/// Files, the status of a cell on each, and where the cell is committed its commit's number.
const STORES: [(&[u8], Status, Option<&str>); 5] = [
    (&FIRST, Status::Done, Some("\"commit\":2,\"count\":2,")),
    (&CLOSED, Status::Done, Some("\"commit\":1,\"count\":1,")),
    (&CUT, Status::Damaged { at: 16 }, None),
    (
        b"xxxxxxxxxxxxxxxxx",
        Status::Done,
        Some("\"commit\":1,\"count\":1,"),
    ),
    (b"xxxxxxxxxxxxxxxxxx", Status::NotAJournal, None),
];

/// Whether the answer has the number, or where none is wanted there is no answer and the file stays.
fn is_numbered(
    alloc: Global,
    host: &MemHost,
    file: &[u8],
    number: Option<&str>,
) -> Result<bool, Fail> {
    match number {
        Some(number) => {
            let out = String::from_utf8(host.out().to_vec(alloc)?)?;
            Ok(out.as_str().contains(number))
        }
        None => Ok(host.out().is_empty() && host.file() == file),
    }
}

/// Whether a cell on a row's file ends as the row says.
fn takes_a_cell(alloc: Global, row: &(&[u8], Status, Option<&str>)) -> Result<bool, Fail> {
    let (file, want, number) = row;
    let mut host = host_over(alloc, file, Vec::new(alloc), None)?.ok_or("room")?;
    let status = run_cell_of(alloc, &mut host, b"a = 1\n".as_slice())?;
    Ok(status == *want && is_numbered(alloc, &host, file, *number)?)
}

#[test]
fn stores_of_all_kinds(rt: HostRuntime) -> Result<(), Fail> {
    let alloc = rt.alloc();
    for row in &STORES {
        assert!(rt;
            takes_a_cell(alloc, row)?,
            "a file of {} bytes",
            row.0.len()
        );
    }
    Ok(())
}

/// Whether a row's cell spends its steps.
fn is_spent(row: &str) -> bool {
    row.starts_with("\"stopped\"")
}

/// Whether a row's cell, on an empty store, is answered as the row wants.
fn keeps(alloc: Global, row: &str) -> Result<bool, Fail> {
    let Some((want, text)) = row.split_once('\x1f') else {
        return Ok(false);
    };
    // A list that doubles until its steps are spent leaves a picture of 35,651,604 bytes.
    let mut host = MemHost::new(alloc, Vec::new(alloc), 40_000_000, Vec::new(alloc), None)?;
    let status = run_cell_of(alloc, &mut host, text.as_bytes())?;
    let (begin, end) = (cells::BEGIN, cells::END);
    let line = format!(in alloc; "{begin}{want}{end}")?;
    Ok(status == Status::Done && host.out() == line.as_bytes())
}

#[test]
fn cells_show_what_they_mean(rt: HostRuntime) -> Result<(), Fail> {
    let alloc = rt.alloc();
    let mut count: usize = 0;
    for row in cells::ROWS.split('\x1e') {
        if !row.is_empty() {
            assert!(rt; is_spent(row) || keeps(alloc, row)?, "at {row}");
            count = count.wrapping_add(1);
        }
    }
    assert!(rt; count == cells::COUNT);
    Ok(())
}

// These take 4,000,000 steps each: a few seconds in all as a test is built, and many minutes under `rt try`.
#[test]
fn cells_that_spend_their_steps(rt: HostRuntime) -> Result<(), Fail> {
    let alloc = rt.alloc();
    let mut count: usize = 0;
    for row in cells::ROWS.split('\x1e') {
        if is_spent(row) {
            assert!(rt; keeps(alloc, row)?, "at {row}");
            count = count.wrapping_add(1);
        }
    }
    assert!(rt; count == cells::SPENT);
    Ok(())
}

#[test]
fn examples_of_the_language(rt: HostRuntime) -> Result<(), Fail> {
    let alloc = rt.alloc();
    let mut count: usize = 0;
    for row in language::ROWS.split('\x1e') {
        if !row.is_empty() {
            assert!(rt; is_spent(row) || keeps(alloc, row)?, "at {row}");
            count = count.wrapping_add(1);
        }
    }
    assert!(rt; count == language::COUNT);
    Ok(())
}

// These take 4,000,000 steps each, as those of the cells above do.
#[test]
fn examples_that_spend_their_steps(rt: HostRuntime) -> Result<(), Fail> {
    let alloc = rt.alloc();
    let mut count: usize = 0;
    for row in language::ROWS.split('\x1e') {
        if is_spent(row) {
            assert!(rt; keeps(alloc, row)?, "at {row}");
            count = count.wrapping_add(1);
        }
    }
    assert!(rt; count == language::SPENT);
    Ok(())
}

/// Words that have no form.
const NO_FORMS: [&[&str]; 30] = [
    &[],
    &["S"],
    &["S", "fly"],
    &["", "cell"],
    &["-S", "cell"],
    &["S", "cell", "--together"],
    &["S", "log", "--together"],
    &["S", "--together"],
    &["--together"],
    &["--together", "run"],
    &["S", "--together", "--together", "run"],
    &["S", "run", "--togethe"],
    &["S", "run", "--together=true"],
    &["S", "run", "--"],
    &["S", "run", "x"],
    &["S", "gen"],
    &["S", "gen", "7"],
    &["S", "gen", "7", "1", "x"],
    &["S", "gen", "07", "1"],
    &["S", "gen", "2147483648", "1"],
    &["S", "gen", "7", "100001"],
    &["S", "gen", "7", "1", "--together"],
    &["S", "-"],
    &["S", "session", "x"],
    &["S", "log", "x"],
    &["S", "checkout"],
    &["S", "checkout", "1", "2"],
    &["S", "branch"],
    &["S", "branch", "-try"],
    &["S", "stored", "1"],
];

/// Whether these words have no form.
fn has_no_form(alloc: Global, form: &[&str]) -> Result<bool, Fail> {
    let words = words_of(alloc, form)?;
    let mut host = host_over(alloc, &[], Vec::new(alloc), None)?.ok_or("room")?;
    let mut source = MemSource::new(alloc, Vec::new(alloc), Vec::new(alloc))?;
    Ok(run_in_memory(alloc, &words, &mut source, &mut host) == Status::Usage)
}

#[test]
fn words_without_a_form(rt: HostRuntime) -> Result<(), Fail> {
    let alloc = rt.alloc();
    for form in &NO_FORMS {
        assert!(rt; has_no_form(alloc, form)?, "{} words", form.len());
    }
    Ok(())
}

/// Statuses, their codes and their texts.
const STATUSES: [(Status, u8, &str); 9] = [
    (Status::Done, 0, ""),
    (Status::Usage, 2, "usage: kishu STORE COMMAND"),
    (Status::NotAJournal, 3, "not a journal"),
    (Status::Damaged { at: 16 }, 3, "damaged at 16"),
    (Status::DiskFault, 5, "disk fault"),
    (Status::InputFault, 6, "input fault"),
    (Status::OutputFault, 7, "output fault"),
    (Status::NoMemory, 8, "no memory"),
    (Status::InputTooLong, 9, "input too long"),
];

/// Whether a status has its row's code and text.
fn is_told(alloc: Global, row: &(Status, u8, &str)) -> Result<bool, AllocError> {
    let (status, code, text) = row;
    Ok(status.code() == *code && status.text(alloc)?.as_str() == *text)
}

#[test]
fn statuses_have_their_texts(rt: HostRuntime) -> Result<(), Fail> {
    let alloc = rt.alloc();
    for row in &STATUSES {
        assert!(rt; is_told(alloc, row)?, "{}", row.2);
    }
    Ok(())
}

/// Whether an input of so many line feeds on an empty store has this status, and the file this length then.
fn is_long(alloc: Global, length: usize, want: Status, file: usize) -> Result<bool, Fail> {
    let mut host = MemHost::new(alloc, Vec::new(alloc), 1_100_000, Vec::new(alloc), None)?;
    let input = vec![in alloc; b'\n'; length]?;
    let status = run_cell_of(alloc, &mut host, &input)?;
    Ok(status == want && host.file().len() == file)
}

#[test]
fn inputs_past_the_limit(rt: HostRuntime) -> Result<(), Fail> {
    let alloc = rt.alloc();
    // The longest cell is run and stored. It has no statement.
    assert!(rt; is_long(alloc, 1_048_576, Status::Done, 1_048_628)?);
    assert!(rt; is_long(alloc, 1_048_577, Status::InputTooLong, 0)?);
    Ok(())
}

/// Files before an input that is no text and after it, and the input.
const NO_TEXTS: [(&[u8], &[u8], &[u8]); 4] = [
    (b"", b"KISHU-JOURNAL-1\n\0", b"\xff"),
    (b"", b"KISHU-JOURNAL-1\n\0", b"print(1)\n\xc3"),
    (&FIRST, &FIRST, b"\xff"),
    (&FIRST, &FIRST, b"print(1)\n\xc3"),
];

const BAD_REQUEST: &str = "{\"answer\":\"refused\",\"number\":1,\"reason\":\"BadRequest\"}\n";

/// Whether a row's input is refused.
fn is_no_text(alloc: Global, row: &(&[u8], &[u8], &[u8])) -> Result<bool, Fail> {
    let (before, after, input) = row;
    let mut host = host_over(alloc, before, Vec::new(alloc), None)?.ok_or("room")?;
    let status = run_cell_of(alloc, &mut host, input)?;
    Ok(status == Status::Done && host.out() == BAD_REQUEST.as_bytes() && host.file() == *after)
}

#[test]
fn refuses_what_is_no_text(rt: HostRuntime) -> Result<(), Fail> {
    let alloc = rt.alloc();
    for row in &NO_TEXTS {
        assert!(rt; is_no_text(alloc, row)?, "on {} bytes", row.0.len());
    }
    Ok(())
}
