// Stops and faults at each call of the host, and faults of the input.
ghost use Rattle.std.specs.Prelude.{◌≡◌, ◌<◌};

use super::generated::LINES;
use super::{FIRST, host_over, run_cell_of, run_in_memory, words_of};
use kishu_host::{MemHost, MemSource};
use kishu_lines::read_request;
use kishu_model::{Request, Steps};
use kishu_serve::Status;
use kishu_session::{Halt, Session};
use std::alloc::{AllocError, Global};
use std::marker::Brand;
use std::process::Abort;
use std::sync::ledger::{Blank, Ledger};
use std::test::Fail;

#[test]
fn faults_of_the_first_cell(rt: HostRuntime) -> Result<(), Fail> {
    let alloc = rt.alloc();
    // The ninth call is the one that puts the answer out.
    let mut host = host_over(alloc, &[], vec![in alloc; 9]?, None)?.ok_or("room")?;
    let status = run_cell_of(alloc, &mut host, b"print(1 + 2)".as_slice())?;
    assert!(rt; status == Status::OutputFault && status.code() == 7);
    assert!(rt; host.out().is_empty());
    assert!(rt; host.file() == FIRST.as_slice());

    // The seventh call is the second write of the append, which opens the gate.
    let mut host = host_over(alloc, &[], vec![in alloc; 7]?, None)?.ok_or("room")?;
    let status = run_cell_of(alloc, &mut host, b"print(1 + 2)".as_slice())?;
    assert!(rt; status == Status::DiskFault && status.code() == 5);
    assert!(rt; host.out().is_empty());

    let words = words_of(alloc, &["S", "cell"])?;
    let mut host = host_over(alloc, &[], Vec::new(alloc), None)?.ok_or("room")?;
    let mut source = MemSource::new(alloc, b"print(1 + 2)".to_vec(alloc)?, vec![in alloc; 1]?)?;
    let status = run_in_memory(alloc, &words, &mut source, &mut host);
    assert!(rt; status == Status::InputFault && status.code() == 6);
    assert!(rt; host.file().is_empty());
    Ok(())
}

/// What a script runs.
#[derive(Clone, Copy)]
enum Form {
    /// A session of these lines.
    Session(&'static [&'static str]),
    /// This text as one cell.
    Cell(&'static str),
    /// So many requests that are made from 7.
    Gen(usize),
}

/// A run that is stopped at each of its calls.
struct Script {
    /// The lines of the session that made the store. Where there is none, the file is empty.
    before: &'static [&'static str],
    form: Form,
    /// How many calls of the host it makes at least. An empty file is opened by four and any other by two, a record
    /// is made by four, and a line put out by one.
    calls: u64,
}

const SCRIPTS: [Script; 7] = [
    // Two ways from one state.
    Script {
        before: &[],
        form: Form::Session(&[
            r#"{"op":"cell","text":"a = [1]; b = a"}"#,
            r#"{"op":"cell","text":"b.append(2)"}"#,
            r#"{"op":"checkout","to":"1"}"#,
            r#"{"op":"cell","text":"print(a, a is b)"}"#,
            r#"{"op":"log"}"#,
        ]),
        calls: 25,
    },
    // A group that falls apart.
    Script {
        before: &[],
        form: Form::Session(&[
            r#"{"op":"cell","text":"x = [1]; y = [x]; z = [2]"}"#,
            r#"{"op":"stored","of":"1"}"#,
            r#"{"op":"cell","text":"y = 0"}"#,
            r#"{"op":"stored","of":"2"}"#,
        ]),
        calls: 16,
    },
    // A state that is too large, and the one before it loaded anew.
    Script {
        before: &[],
        form: Form::Session(&[
            r#"{"op":"cell","text":"s = 'x' * 1000000"}"#,
            r#"{"op":"cell","text":"a = [s] * 300"}"#,
            r#"{"op":"cell","text":"a"}"#,
        ]),
        calls: 15,
    },
    // Requests that are refused, and one that isn't.
    Script {
        before: &[],
        form: Form::Session(&[
            r#"{"op":"branch","name":"main"}"#,
            r#"{"op":"branch","name":"9"}"#,
            r#"{"op":"checkout","to":"999"}"#,
            r#"{"op":"checkout","to":"007"}"#,
            r#"{"op":"fly"}"#,
            r#"{"op":"branch","name":"try"}"#,
        ]),
        calls: 14,
    },
    // Pictures that are read as the store is opened, as one of them is found again, and at checkouts.
    Script {
        before: &[
            r#"{"op":"cell","text":"a = [1]; b = a; c = [a]"}"#,
            r#"{"op":"branch","name":"try"}"#,
            r#"{"op":"cell","text":"c = [2]; d = [3]"}"#,
        ],
        form: Form::Session(&[
            r#"{"op":"cell","text":"d[0] = 3"}"#,
            r#"{"op":"checkout","to":"try"}"#,
            r#"{"op":"cell","text":"c.append(b)"}"#,
            r#"{"op":"checkout","to":"main"}"#,
            r#"{"op":"status"}"#,
        ]),
        calls: 23,
    },
    Script {
        before: &[
            r#"{"op":"cell","text":"a = 7"}"#,
            r#"{"op":"cell","text":"b = [a]"}"#,
        ],
        form: Form::Cell("a = a + 1"),
        calls: 7,
    },
    Script {
        before: &[],
        form: Form::Gen(30),
        calls: 125,
    },
];

/// Lines of a session by which a store tells what it holds. The cell is stored behind it.
const LOOKS: [&str; 4] = [
    r#"{"op":"inspect"}"#,
    r#"{"op":"cell","text":"seen = 1"}"#,
    r#"{"op":"log"}"#,
    r#"{"op":"status"}"#,
];

/// The first lines, each with its line feed.
fn first_lines(alloc: Global, lines: &[&str], count: usize) -> Result<Vec<u8>, AllocError> {
    let mut input = Vec::new(alloc);
    for line in lines.iter().take(count) {
        input.extend_from_slice(line.as_bytes())?;
        input.push(b'\n')?;
    }
    Ok(input)
}

impl Form {
    /// How many requests it has.
    fn requests(self) -> usize {
        match self {
            Form::Session(lines) => lines.len(),
            Form::Cell(_) => 1,
            Form::Gen(count) => count,
        }
    }

    /// How many calls read its input at least: one that takes all of it, and one that finds its end.
    fn takes(self) -> u64 {
        match self {
            Form::Session(_) | Form::Cell(_) => 2,
            Form::Gen(_) => 0,
        }
    }

    /// Runs its first requests over this host, while these calls of the input fail.
    fn run_first(
        self,
        alloc: Global,
        count: usize,
        host: &mut MemHost,
        fail: Vec<u64>,
    ) -> Result<Status, AllocError> {
        let number = format!(in alloc; "{count}")?;
        let words = match self {
            Form::Cell(_) if count > 0 => words_of(alloc, &["S", "cell"])?,
            Form::Session(_) | Form::Cell(_) => words_of(alloc, &["S", "session"])?,
            Form::Gen(_) => words_of(alloc, &["S", "gen", "7", number.as_str()])?,
        };
        let input = match self {
            Form::Session(lines) => first_lines(alloc, lines, count)?,
            Form::Cell(text) if count > 0 => text.as_bytes().to_vec(alloc)?,
            Form::Cell(_) | Form::Gen(_) => Vec::new(alloc),
        };
        let mut source = MemSource::new(alloc, input, fail)?;
        Ok(run_in_memory(alloc, &words, &mut source, host))
    }
}

/// A store that so many requests of a script left, what they put out, and what a session on the store tells.
#[derive(Drop)]
struct Left {
    file: Vec<u8>,
    out: Vec<u8>,
    told: Vec<u8>,
}

/// The store on which a script begins, and those that its first requests leave, from none of them to all.
#[derive(Drop)]
struct Story {
    store: Vec<u8>,
    left: Vec<Left>,
}

/// What a session on this store tells, which has to open.
fn told_by(alloc: Global, file: &[u8]) -> Result<Vec<u8>, Fail> {
    let mut host = host_over(alloc, file, Vec::new(alloc), None)?.ok_or("room")?;
    let looks = Form::Session(&LOOKS);
    let status = looks.run_first(alloc, LOOKS.len(), &mut host, Vec::new(alloc))?;
    if status != Status::Done {
        return Err("a store that doesn't open".into());
    }
    Ok(host.out().to_vec(alloc)?)
}

/// What the first requests of a form leave of a store, where nothing fails.
fn left_by(alloc: Global, store: &[u8], form: Form, count: usize) -> Result<Left, Fail> {
    let mut host = host_over(alloc, store, Vec::new(alloc), None)?.ok_or("room")?;
    let status = form.run_first(alloc, count, &mut host, Vec::new(alloc))?;
    if status != Status::Done {
        return Err("a script that doesn't end".into());
    }
    Ok(Left {
        file: host.file().to_vec(alloc)?,
        out: host.out().to_vec(alloc)?,
        told: told_by(alloc, host.file())?,
    })
}

/// The runs of a script where nothing fails.
fn story_of(alloc: Global, script: &Script) -> Result<Story, Fail> {
    let store = if script.before.is_empty() {
        Vec::new(alloc)
    } else {
        let before = Form::Session(script.before);
        left_by(alloc, &[], before, script.before.len())?.file
    };
    let mut left = Vec::new(alloc);
    for count in 0..=script.form.requests() {
        left.push(left_by(alloc, &store, script.form, count)?)?;
    }
    Ok(Story { store, left })
}

impl Left {
    /// Whether a file holds just its records: they stand at the front, and the gate behind them is closed.
    fn is_held_by(&self, file: &[u8]) -> bool {
        if file.len() <= 17 {
            return self.file.len() == 17;
        }
        let Some((_, records)) = self.file.split_last() else {
            return false;
        };
        match file.strip_prefix(records) {
            Some([gate, ..]) => *gate != 0xa5,
            _ => false,
        }
    }
}

impl Story {
    /// How many requests a store holds at least, and how many at most, once a run of this form put this out: those
    /// that were answered, and one more. Requests that are made have no answers; there it is any number, until the
    /// line is out that sums them all up. `None`: that is no number of whole answers.
    fn range(&self, form: Form, out: &[u8]) -> Option<(usize, usize)> {
        let all = form.requests();
        match form {
            Form::Gen(_) if out.is_empty() => Some((0, all)),
            Form::Gen(_) => {
                let last = self.left.last()?;
                if last.out.as_slice() == out {
                    Some((all, all))
                } else {
                    None
                }
            }
            Form::Session(_) | Form::Cell(_) => {
                let answered = self
                    .left
                    .iter()
                    .position(|left| left.out.as_slice() == out)?;
                Some((answered, all.min(answered.saturating_add(1))))
            }
        }
    }

    /// Whether a file opens and holds a number of requests in this range.
    fn holds(&self, alloc: Global, file: &[u8], range: (usize, usize)) -> Result<bool, Fail> {
        let (least, most) = range;
        for (count, left) in self.left.iter().enumerate() {
            if least <= count && count <= most && left.is_held_by(file) {
                return Ok(told_by(alloc, file)?.as_slice() == left.told.as_slice());
            }
        }
        Ok(false)
    }

    /// Whether the file as it reads, and those that a stop may leave now, are as what is out says.
    fn is_kept(&self, alloc: Global, form: Form, host: &MemHost) -> Result<bool, Fail> {
        let range = self.range(form, host.out()).ok_or("no answers")?;
        for fill in [0u8, 0xa5, 0xff] {
            let torn = host.torn_file(fill)?;
            let is_other = torn.as_slice() != host.file();
            if is_other && !self.holds(alloc, &torn, range)? {
                return Ok(false);
            }
        }
        self.holds(alloc, host.file(), range)
    }
}

/// How a run ends, by the count that rose.
fn status_by(host: &MemHost) -> Status {
    if host.failed_disk() > 0 {
        Status::DiskFault
    } else if host.failed_out() > 0 {
        Status::OutputFault
    } else {
        Status::Done
    }
}

/// A script whose call of this number fails alone, or is where the process stops. How it ended.
fn interrupted(
    rt: &impl Abort,
    alloc: Global,
    script: &Script,
    story: &Story,
    fail: Vec<u64>,
    stop: Option<u64>,
) -> Result<Status, Fail> {
    let mut host = host_over(alloc, &story.store, fail, stop)?.ok_or("room")?;
    let all = script.form.requests();
    let status = script
        .form
        .run_first(alloc, all, &mut host, Vec::new(alloc))?;
    assert!(rt; status == status_by(&host));
    assert!(rt; story.is_kept(alloc, script.form, &host)?);
    let whole = story.left.last().ok_or("no run")?;
    assert!(rt; (status == Status::Done) == (host.out() == whole.out.as_slice()));
    Ok(status)
}

/// A script with each of its calls of the host as the stop, and with each of them failing.
fn try_calls(rt: &impl Abort, alloc: Global, script: &Script, story: &Story) -> Result<(), Fail> {
    for n in 1..1000u64 {
        let stopped = interrupted(rt, alloc, script, story, Vec::new(alloc), Some(n))?;
        let failed = interrupted(rt, alloc, script, story, vec![in alloc; n]?, None)?;
        assert!(rt; stopped == failed);
        if stopped == Status::Done {
            assert!(rt; n > script.calls);
            return Ok(());
        }
    }
    Err("a run without an end".into())
}

/// A script with each call of its input failing: what was answered is there, and no more.
fn try_takes(rt: &impl Abort, alloc: Global, script: &Script, story: &Story) -> Result<(), Fail> {
    let all = script.form.requests();
    for n in 1..1000u64 {
        let mut host = host_over(alloc, &story.store, Vec::new(alloc), None)?.ok_or("room")?;
        let fail = vec![in alloc; n]?;
        let status = script.form.run_first(alloc, all, &mut host, fail)?;
        if status == Status::Done {
            assert!(rt; n > script.form.takes());
            return Ok(());
        }
        assert!(rt; status == Status::InputFault);
        let (answered, _) = story.range(script.form, host.out()).ok_or("no answers")?;
        let untouched = host.file().is_empty();
        assert!(rt; untouched || story.holds(alloc, host.file(), (answered, answered))?);
    }
    Err("an input without an end".into())
}

#[test]
fn each_call_stopped_and_failed(rt: HostRuntime) -> Result<(), Fail> {
    let alloc = rt.alloc();
    for script in &SCRIPTS {
        let story = story_of(alloc, script)?;
        try_calls(&rt, alloc, script, &story)?;
        try_takes(&rt, alloc, script, &story)?;
    }
    Ok(())
}

/// How a request ends in a session on a host whose calls fail from one on.
#[derive(Clone, Copy, PartialEq)]
enum Ending {
    /// The session wasn't opened.
    Unopened,
    /// It is answered.
    Answered,
    /// The disk failed, and the next request finds the session closed, and makes no call.
    Closed,
    /// Anything else.
    Other,
}

/// How a request ends in a session on this host, all of whose calls from one on fail, so that each of these shows in its
/// counts.
fn ends_counted<L: Ledger>(
    alloc: Global,
    host: &mut MemHost,
    line: &[u8],
    blank: Blank,
) -> Result<Ending, Fail>
    requires name { blank.name ≡ L.name }
    requires parts { blank.parts ≡ L.parts }
    requires some { 0 < L.parts }
{
    let mut steps = Steps::<L>::new(blank);
    if line.len() >= 1 << 24 {
        return Ok(Ending::Other);
    }
    let Some(request) = read_request(alloc, line)? else {
        return Ok(Ending::Answered);
    };
    let Ok(mut session) = Session::attach(alloc, host, &mut steps) else {
        return Ok(Ending::Unopened);
    };
    match session.apply(host, &request, &mut steps) {
        Ok(_) => Ok(Ending::Answered),
        Err(Halt::DiskFault) => {
            let failed = host.failed_disk();
            let next = session.apply(host, &Request::Status, &mut steps);
            let closed = matches!(next, Err(Halt::Closed));
            let quiet = host.failed_disk() == failed && host.failed_out() == 0;
            Ok(if closed && quiet {
                Ending::Closed
            } else {
                Ending::Other
            })
        }
        Err(_) => Ok(Ending::Other),
    }
}

/// The same, where nobody counts the steps.
fn ends(alloc: Global, host: &mut MemHost, line: &[u8]) -> Result<Ending, Fail> {
    ends_counted::<Brand>(alloc, host, line, Blank::new(1))
}

/// At how many calls of a request a stop closes the session on this store.
fn closings(rt: &impl Abort, alloc: Global, file: &[u8], line: &[u8]) -> Result<u64, Fail> {
    let mut count = 0u64;
    for n in 1..1000u64 {
        let mut host = host_over(alloc, file, Vec::new(alloc), Some(n))?.ok_or("room")?;
        match ends(alloc, &mut host, line)? {
            Ending::Unopened => assert!(rt; count == 0),
            Ending::Answered => return Ok(count),
            Ending::Closed => count = count.wrapping_add(1),
            Ending::Other => return Err("a session that goes on".into()),
        }
    }
    Err("a request without an end".into())
}

/// Each request of a script, with each of its calls as the stop. A record is made by four calls at least.
fn try_requests(rt: &impl Abort, alloc: Global, lines: &[&str], story: &Story) -> Result<(), Fail> {
    for (i, line) in lines.iter().enumerate() {
        let before = story.left.get(i).ok_or("no store")?;
        let after = story.left.get(i.saturating_add(1)).ok_or("no store")?;
        let count = closings(rt, alloc, &before.file, line.as_bytes())?;
        assert!(rt; count >= 4 || before.file.len() == after.file.len());
    }
    Ok(())
}

#[test]
fn a_session_is_closed_by_a_fault_at_each_call(rt: HostRuntime) -> Result<(), Fail> {
    let alloc = rt.alloc();
    for script in &SCRIPTS {
        let story = story_of(alloc, script)?;
        match script.form {
            Form::Session(lines) => try_requests(&rt, alloc, lines, &story)?,
            Form::Cell(_) => {}
            Form::Gen(count) => {
                let mut lines = Vec::new(alloc);
                for line in LINES.split('\n').take(count) {
                    lines.push(line)?;
                }
                try_requests(&rt, alloc, &lines, &story)?;
            }
        }
    }
    Ok(())
}
