// Sessions: request lines and their answers.
use super::{CLOSED, FIRST, host_over, run_in_memory, words_of};
use kishu_host::{MemHost, MemSource};
use kishu_serve::Status;
use std::alloc::{AllocError, Global};
use std::test::Fail;

/// Runs these words over an input.
pub(super) fn run_words(
    alloc: Global,
    host: &mut MemHost,
    texts: &[&str],
    input: &[u8],
) -> Result<Status, AllocError> {
    let words = words_of(alloc, texts)?;
    let mut source = MemSource::new(alloc, input.to_vec(alloc)?, Vec::new(alloc))?;
    Ok(run_in_memory(alloc, &words, &mut source, host))
}

/// The lines of a session on an empty store, and the lines of its answers.
const SESSIONS: [(&str, &str); 20] = [
    ("", ""),
    (
        r#"{"op":"status"}"#,
        r#"{"answer":"status","branch":"main","commit":0,"commits":1,"names":[],"records":0}
"#,
    ),
    (
        "\n",
        r#"{"answer":"refused","number":1,"reason":"BadRequest"}
"#,
    ),
    // Two ways from one state: what the first way changed isn't seen on the second, and names still share.
    (
        r#"{"op":"cell","text":"a = [1]; b = a"}
{"op":"cell","text":"b.append(2)"}
{"op":"checkout","to":"1"}
{"op":"cell","text":"print(a, a is b)"}
{"op":"log"}
"#,
        r#"{"answer":"cell","commit":1,"count":1,"outcome":"ok","outputs":[]}
{"answer":"cell","commit":2,"count":2,"outcome":"ok","outputs":[]}
{"answer":"checkout","commit":1,"head":null}
{"answer":"cell","commit":3,"count":2,"outcome":"ok","outputs":[{"name":"stdout","output_type":"stream","text":"[1] True\n"}]}
{"answer":"log","branches":[{"commit":2,"name":"main"}],"path":[{"cells":1,"commit":3,"line":"print(a, a is b)","parent":1},{"cells":1,"commit":1,"line":"a = [1]; b = a","parent":0}]}
"#,
    ),
    // A list that holds itself, left and found again.
    (
        r#"{"op":"cell","text":"a = []"}
{"op":"cell","text":"a.append(a)"}
{"op":"cell","text":"print(a)"}
{"op":"checkout","to":"0"}
{"op":"cell","text":"a"}
{"op":"checkout","to":"main"}
{"op":"cell","text":"print(a, a[0] is a)"}
"#,
        r#"{"answer":"cell","commit":1,"count":1,"outcome":"ok","outputs":[]}
{"answer":"cell","commit":2,"count":2,"outcome":"ok","outputs":[]}
{"answer":"cell","commit":3,"count":3,"outcome":"ok","outputs":[{"name":"stdout","output_type":"stream","text":"[[...]]\n"}]}
{"answer":"checkout","commit":0,"head":null}
{"answer":"cell","commit":4,"count":1,"outcome":"error","outputs":[{"ename":"NameError","evalue":"name 'a' is not defined","output_type":"error","traceback":["NameError: name 'a' is not defined"]}]}
{"answer":"checkout","commit":3,"head":"main"}
{"answer":"cell","commit":5,"count":4,"outcome":"ok","outputs":[{"name":"stdout","output_type":"stream","text":"[[...]] True\n"}]}
"#,
    ),
    // A default that is shared with a name.
    (
        r#"{"op":"cell","text":"def g(x, acc=[]): acc.append(x); return acc"}
{"op":"cell","text":"p = g(1)"}
{"op":"stored","of":"2"}
{"op":"cell","text":"p = 0"}
{"op":"stored","of":"3"}
{"op":"checkout","to":"2"}
{"op":"cell","text":"print(g(2) is p)"}
"#,
        r#"{"answer":"cell","commit":1,"count":1,"outcome":"ok","outputs":[]}
{"answer":"cell","commit":2,"count":2,"outcome":"ok","outputs":[]}
{"answer":"stored","commit":2,"dropped":[["g"]],"stored":[["g","p"]]}
{"answer":"cell","commit":3,"count":3,"outcome":"ok","outputs":[]}
{"answer":"stored","commit":3,"dropped":[["g","p"]],"stored":[["g"],["p"]]}
{"answer":"checkout","commit":2,"head":null}
{"answer":"cell","commit":4,"count":3,"outcome":"ok","outputs":[{"name":"stdout","output_type":"stream","text":"True\n"}]}
"#,
    ),
    // Names that share a list are one group. A commit stores the groups that it changed, and drops those of before.
    (
        r#"{"op":"cell","text":"x = [1]; y = [x]; z = [2]"}
{"op":"stored","of":"1"}
{"op":"cell","text":"y = 0"}
{"op":"stored","of":"2"}
{"op":"stored","of":"main"}
{"op":"stored","of":"0"}
{"op":"stored","of":"3"}
{"op":"status"}
"#,
        r#"{"answer":"cell","commit":1,"count":1,"outcome":"ok","outputs":[]}
{"answer":"stored","commit":1,"dropped":[],"stored":[["x","y"],["z"]]}
{"answer":"cell","commit":2,"count":2,"outcome":"ok","outputs":[]}
{"answer":"stored","commit":2,"dropped":[["x","y"]],"stored":[["x"],["y"]]}
{"answer":"stored","commit":2,"dropped":[["x","y"]],"stored":[["x"],["y"]]}
{"answer":"stored","commit":0,"dropped":[],"stored":[]}
{"answer":"refused","number":2,"reason":"NoSuchRef"}
{"answer":"status","branch":"main","commit":2,"commits":3,"names":["x","y","z"],"records":2}
"#,
    ),
    // What a checkout would do: it keeps the groups that have stood with one picture since the same commit.
    (
        r#"{"op":"cell","text":"x = [1]; y = [x]; z = [2]"}
{"op":"cell","text":"y = 0"}
{"op":"plan","to":"1"}
{"op":"plan","to":"main"}
{"op":"plan","to":"0"}
{"op":"plan","to":"3"}
{"op":"checkout","to":"1"}
{"op":"plan","to":"main"}
{"op":"cell","text":"print(y[0] is x, z)"}
{"op":"plan","to":"1"}
"#,
        r#"{"answer":"cell","commit":1,"count":1,"outcome":"ok","outputs":[]}
{"answer":"cell","commit":2,"count":2,"outcome":"ok","outputs":[]}
{"answer":"plan","commit":1,"drop":[["x"],["y"]],"keep":[["z"]],"load":[["x","y"]]}
{"answer":"plan","commit":2,"drop":[],"keep":[["x"],["y"],["z"]],"load":[]}
{"answer":"plan","commit":0,"drop":[["x"],["y"],["z"]],"keep":[],"load":[]}
{"answer":"refused","number":2,"reason":"NoSuchRef"}
{"answer":"checkout","commit":1,"head":null}
{"answer":"plan","commit":2,"drop":[["x","y"]],"keep":[["z"]],"load":[["x"],["y"]]}
{"answer":"cell","commit":3,"count":2,"outcome":"ok","outputs":[{"name":"stdout","output_type":"stream","text":"True [2]\n"}]}
{"answer":"plan","commit":1,"drop":[],"keep":[["x","y"],["z"]],"load":[]}
"#,
    ),
    // A function changes a list that it finds by its name.
    (
        r#"{"op":"cell","text":"L = []"}
{"op":"cell","text":"def f(): L.append(1)"}
{"op":"cell","text":"f()"}
{"op":"stored","of":"3"}
"#,
        r#"{"answer":"cell","commit":1,"count":1,"outcome":"ok","outputs":[]}
{"answer":"cell","commit":2,"count":2,"outcome":"ok","outputs":[]}
{"answer":"cell","commit":3,"count":3,"outcome":"ok","outputs":[]}
{"answer":"stored","commit":3,"dropped":[["L"]],"stored":[["L"]]}
"#,
    ),
    // What is as it was isn't stored.
    (
        r#"{"op":"cell","text":"a = [1]"}
{"op":"cell","text":"a[0] = 1"}
{"op":"stored","of":"2"}
"#,
        r#"{"answer":"cell","commit":1,"count":1,"outcome":"ok","outputs":[]}
{"answer":"cell","commit":2,"count":2,"outcome":"ok","outputs":[]}
{"answer":"stored","commit":2,"dropped":[],"stored":[]}
"#,
    ),
    // It is stored where it is as on another way.
    (
        r#"{"op":"cell","text":"a = 1"}
{"op":"cell","text":"a = 2"}
{"op":"checkout","to":"1"}
{"op":"cell","text":"a = 2"}
{"op":"stored","of":"3"}
"#,
        r#"{"answer":"cell","commit":1,"count":1,"outcome":"ok","outputs":[]}
{"answer":"cell","commit":2,"count":2,"outcome":"ok","outputs":[]}
{"answer":"checkout","commit":1,"head":null}
{"answer":"cell","commit":3,"count":2,"outcome":"ok","outputs":[]}
{"answer":"stored","commit":3,"dropped":[["a"]],"stored":[["a"]]}
"#,
    ),
    (
        r#"{"op":"branch","name":"main"}
{"op":"branch","name":"9"}
{"op":"checkout","to":"999"}
{"op":"checkout","to":"007"}
{"op":"fly"}
{"op":"branch","name":"try"}
{"op":"branch","name":"old","at":"0"}
{"op":"branch","name":"new","at":"1"}
{"op":"status"}
"#,
        r#"{"answer":"refused","number":4,"reason":"NameTaken"}
{"answer":"refused","number":3,"reason":"BadName"}
{"answer":"refused","number":2,"reason":"NoSuchRef"}
{"answer":"refused","number":2,"reason":"NoSuchRef"}
{"answer":"refused","number":1,"reason":"BadRequest"}
{"answer":"branch","commit":0,"name":"try"}
{"answer":"branch","commit":0,"name":"old"}
{"answer":"refused","number":2,"reason":"NoSuchRef"}
{"answer":"status","branch":"main","commit":0,"commits":1,"names":[],"records":2}
"#,
    ),
    (
        r#"{"op":"cell","text":"try:\n    {}['k']\nexcept KeyError as e:\n    print(e, repr(e))\nfinally:\n    print('end')"}
{"op":"status"}
"#,
        r#"{"answer":"cell","commit":1,"count":1,"outcome":"ok","outputs":[{"name":"stdout","output_type":"stream","text":"'k' KeyError('k')\nend\n"}]}
{"answer":"status","branch":"main","commit":1,"commits":2,"names":[],"records":1}
"#,
    ),
    // A checkout of the branch on which the head stands is recorded, and moves nothing.
    (
        r#"{"op":"cell","text":"b = 1"}
{"op":"cell","text":"a = b"}
{"op":"checkout","to":"main"}
{"op":"status"}
"#,
        r#"{"answer":"cell","commit":1,"count":1,"outcome":"ok","outputs":[]}
{"answer":"cell","commit":2,"count":2,"outcome":"ok","outputs":[]}
{"answer":"checkout","commit":2,"head":"main"}
{"answer":"status","branch":"main","commit":2,"commits":3,"names":["a","b"],"records":3}
"#,
    ),
    // A branch moves with the head that stands on it, and stays where a checkout leaves it.
    (
        r#"{"op":"branch","name":"try"}
{"op":"checkout","to":"try"}
{"op":"cell","text":"x = 1"}
{"op":"checkout","to":"main"}
{"op":"cell","text":"y = 2"}
{"op":"checkout","to":"1"}
{"op":"cell","text":"x"}
{"op":"log"}
"#,
        r#"{"answer":"branch","commit":0,"name":"try"}
{"answer":"checkout","commit":0,"head":"try"}
{"answer":"cell","commit":1,"count":1,"outcome":"ok","outputs":[]}
{"answer":"checkout","commit":0,"head":"main"}
{"answer":"cell","commit":2,"count":1,"outcome":"ok","outputs":[]}
{"answer":"checkout","commit":1,"head":null}
{"answer":"cell","commit":3,"count":2,"outcome":"ok","outputs":[{"data":{"text/plain":"1"},"execution_count":2,"metadata":{},"output_type":"execute_result"}]}
{"answer":"log","branches":[{"commit":2,"name":"main"},{"commit":1,"name":"try"}],"path":[{"cells":1,"commit":3,"line":"x","parent":1},{"cells":1,"commit":1,"line":"x = 1","parent":0}]}
"#,
    ),
    // Several cells make one commit. They run up to the first that isn't ok, each with steps of its own.
    (
        r#"{"op":"cells","texts":["a = 1","a // 0","a = 2"]}
{"op":"cell","text":"a"}
{"op":"cells","texts":["a += 1","print(a)","a"]}
{"op":"log"}
{"op":"status"}
"#,
        r#"{"answer":"cells","commit":1,"results":[{"count":1,"outcome":"ok","outputs":[]},{"count":2,"outcome":"error","outputs":[{"ename":"ZeroDivisionError","evalue":"division by zero","output_type":"error","traceback":["ZeroDivisionError: division by zero"]}]}]}
{"answer":"cell","commit":2,"count":3,"outcome":"ok","outputs":[{"data":{"text/plain":"1"},"execution_count":3,"metadata":{},"output_type":"execute_result"}]}
{"answer":"cells","commit":3,"results":[{"count":4,"outcome":"ok","outputs":[]},{"count":5,"outcome":"ok","outputs":[{"name":"stdout","output_type":"stream","text":"2\n"}]},{"count":6,"outcome":"ok","outputs":[{"data":{"text/plain":"2"},"execution_count":6,"metadata":{},"output_type":"execute_result"}]}]}
{"answer":"log","branches":[{"commit":3,"name":"main"}],"path":[{"cells":3,"commit":3,"line":"a += 1","parent":2},{"cells":1,"commit":2,"line":"a","parent":1},{"cells":2,"commit":1,"line":"a = 1","parent":0}]}
{"answer":"status","branch":"main","commit":3,"commits":4,"names":["a"],"records":3}
"#,
    ),
    (
        r#"{"op":"cells","texts":[]}
{"op":"cells"}
{"op":"cells","texts":"a = 1"}
{"op":"cells","texts":["a = 1",1]}
{"op":"cells","text":["a = 1"]}
{"op":"cells","texts":["a = "],"at":"0"}
{"op":"cells","texts":["a = ","a"]}
{"op":"checkout","to":"0"}
{"op":"cells","texts":[""]}
{"op":"status"}
"#,
        r#"{"answer":"refused","number":1,"reason":"BadRequest"}
{"answer":"refused","number":1,"reason":"BadRequest"}
{"answer":"refused","number":1,"reason":"BadRequest"}
{"answer":"refused","number":1,"reason":"BadRequest"}
{"answer":"refused","number":1,"reason":"BadRequest"}
{"answer":"refused","number":1,"reason":"BadRequest"}
{"answer":"cells","commit":1,"results":[{"count":1,"outcome":"error","outputs":[{"ename":"SyntaxError","evalue":"invalid syntax, line 1","output_type":"error","traceback":["SyntaxError: invalid syntax, line 1"]}]}]}
{"answer":"checkout","commit":0,"head":null}
{"answer":"cells","commit":2,"results":[{"count":1,"outcome":"ok","outputs":[]}]}
{"answer":"status","branch":null,"commit":2,"commits":3,"names":[],"records":3}
"#,
    ),
    // One list under two names, and one that holds itself, seen before and after the way back.
    (
        r#"{"op":"inspect"}
{"op":"cell","text":"a = [1]; b = a"}
{"op":"inspect"}
{"op":"cell","text":"a.append(a); b = 0"}
{"op":"inspect"}
{"op":"checkout","to":"1"}
{"op":"inspect"}
"#,
        r##"{"answer":"inspect","commit":0,"names":{},"nodes":[]}
{"answer":"cell","commit":1,"count":1,"outcome":"ok","outputs":[]}
{"answer":"inspect","commit":1,"names":{"a":"#0","b":"#0"},"nodes":[["list","1"]]}
{"answer":"cell","commit":2,"count":2,"outcome":"ok","outputs":[]}
{"answer":"inspect","commit":2,"names":{"a":"#0","b":"0"},"nodes":[["list","1","#0"]]}
{"answer":"checkout","commit":1,"head":null}
{"answer":"inspect","commit":1,"names":{"a":"#0","b":"#0"},"nodes":[["list","1"]]}
"##,
    ),
    // A node of each kind, and values that are none. What no name reaches isn't told.
    (
        r#"{"op":"cell","text":"t = (1, 'x')\nlost = [t]\nd = {'k': t, (1, 2): None}\no = SimpleNamespace(left=d, low=-1)\ndef f(x=[], y=2): return x\ne = ValueError('no')\ndel lost"}
{"op":"cell","text":"b = len; c = list; r = range(0, 3); u = True"}
{"op":"inspect"}
"#,
        r##"{"answer":"cell","commit":1,"count":1,"outcome":"ok","outputs":[]}
{"answer":"cell","commit":2,"count":2,"outcome":"ok","outputs":[]}
{"answer":"inspect","commit":2,"names":{"b":"<built-in function len>","c":"<class 'list'>","d":"#0","e":"#1","f":"#2","o":"#3","r":"range(0, 3)","t":"#4","u":"True"},"nodes":[["dict","'k'","#4","(1, 2)","None"],["exception","ValueError","'no'"],["function","1","def f(x=[], y=2): return x","#5","2"],["object","left","#0","low","-1"],["tuple","1","'x'"],["list"]]}
"##,
    ),
    // A state of more than 2^28 bytes isn't kept, nor are cells of which one leaves it. Names that no cell touched
    // count too.
    (
        r#"{"op":"cell","text":"s = 'x' * 1000000"}
{"op":"cell","text":"a = [s] * 300"}
{"op":"cell","text":"a"}
{"op":"cell","text":"u = 'y' * 1000000; v = [u] * 267"}
{"op":"cells","texts":["b = 1","a = [s] * 300","c = 2"]}
{"op":"status"}
"#,
        r#"{"answer":"cell","commit":1,"count":1,"outcome":"ok","outputs":[]}
{"answer":"refused","bytes":301001535,"number":7,"reason":"StateTooLarge"}
{"answer":"cell","commit":2,"count":2,"outcome":"error","outputs":[{"ename":"NameError","evalue":"name 'a' is not defined","output_type":"error","traceback":["NameError: name 'a' is not defined"]}]}
{"answer":"refused","bytes":269001385,"number":7,"reason":"StateTooLarge"}
{"answer":"refused","bytes":301001562,"number":7,"reason":"StateTooLarge"}
{"answer":"status","branch":"main","commit":2,"commits":3,"names":["s"],"records":2}
"#,
    ),
];

/// Whether a session on this file comes to its end with these answers.
pub(super) fn is_answered(
    alloc: Global,
    file: &[u8],
    input: &str,
    want: &str,
) -> Result<bool, Fail> {
    let mut host = host_over(alloc, file, Vec::new(alloc), None)?.ok_or("room")?;
    let status = run_words(alloc, &mut host, &["S", "session"], input.as_bytes())?;
    Ok(status == Status::Done && host.out() == want.as_bytes())
}

#[test]
fn answers_sessions(rt: HostRuntime) -> Result<(), Fail> {
    let alloc = rt.alloc();
    for (input, want) in &SESSIONS {
        assert!(rt; is_answered(alloc, &[], input, want)?, "{input}");
    }
    Ok(())
}

/// One line of a session after another, each in a run of its own over what the runs before left.
fn answers_line_by_line(alloc: Global, input: &str) -> Result<Vec<u8>, Fail> {
    let mut file = Vec::new(alloc);
    let mut out = Vec::new(alloc);
    for line in input.split('\n') {
        if line.is_empty() {
            continue;
        }
        let mut host = host_over(alloc, &file, Vec::new(alloc), None)?.ok_or("room")?;
        let _ = run_words(alloc, &mut host, &["S", "session"], line.as_bytes())?;
        out.extend_from_slice(host.out())?;
        file = host.file().to_vec(alloc)?;
    }
    Ok(out)
}

#[test]
fn answers_the_same_in_many_runs(rt: HostRuntime) -> Result<(), Fail> {
    let alloc = rt.alloc();
    for (input, want) in &SESSIONS[3..] {
        let out = answers_line_by_line(alloc, input)?;
        assert!(rt; out.as_slice() == want.as_bytes(), "{input}");
    }
    Ok(())
}

/// Words over the store of two commits with `try` at the first, and what is put out.
const WORDS: [(&[&str], &str); 7] = [
    (
        &["S", "status"],
        r#"{"answer":"status","branch":"main","commit":1,"commits":2,"names":[],"records":1}
"#,
    ),
    (
        &["S", "inspect"],
        r#"{"answer":"inspect","commit":1,"names":{},"nodes":[]}
"#,
    ),
    (
        &["S", "branch", "try", "0"],
        r#"{"answer":"branch","commit":0,"name":"try"}
"#,
    ),
    (
        &["S", "checkout", "try"],
        r#"{"answer":"checkout","commit":0,"head":"try"}
"#,
    ),
    (
        &["S", "branch", "a"],
        r#"{"answer":"branch","commit":0,"name":"a"}
"#,
    ),
    (
        &["S", "checkout", "b"],
        r#"{"answer":"refused","number":2,"reason":"NoSuchRef"}
"#,
    ),
    (
        &["S", "log"],
        r#"{"answer":"log","branches":[{"commit":0,"name":"a"},{"commit":1,"name":"main"},{"commit":0,"name":"try"}],"path":[]}
"#,
    ),
];

#[test]
fn answers_words(rt: HostRuntime) -> Result<(), Fail> {
    let alloc = rt.alloc();
    let mut file = FIRST.to_vec(alloc)?;
    for (words, want) in &WORDS {
        let mut host = host_over(alloc, &file, Vec::new(alloc), None)?.ok_or("room")?;
        let status = run_words(alloc, &mut host, words, b"not read".as_slice())?;
        assert!(rt; status == Status::Done);
        assert!(rt; host.out() == want.as_bytes());
        file = host.file().to_vec(alloc)?;
    }
    Ok(())
}

/// Files, the first with its gate closed, and the answers of a session on each.
const GATES: [(&[u8], &str); 2] = [
    (
        &CLOSED,
        r#"{"answer":"status","branch":"main","commit":0,"commits":1,"names":[],"records":0}
{"answer":"cell","commit":1,"count":1,"outcome":"ok","outputs":[]}
"#,
    ),
    (
        &FIRST,
        r#"{"answer":"status","branch":"main","commit":1,"commits":2,"names":[],"records":1}
{"answer":"cell","commit":2,"count":2,"outcome":"ok","outputs":[]}
"#,
    ),
];

#[test]
fn a_gate_that_is_closed_ends_the_store(rt: HostRuntime) -> Result<(), Fail> {
    let alloc = rt.alloc();
    let input = r#"{"op":"status"}
{"op":"cell","text":"a = 1"}"#;
    for (file, want) in &GATES {
        assert!(rt; is_answered(alloc, file, input, want)?, "{want}");
    }
    Ok(())
}

/// How many records a store holds, told by its status.
pub(super) fn records(alloc: Global, file: &[u8]) -> Result<Option<usize>, Fail> {
    let mut host = host_over(alloc, file, Vec::new(alloc), None)?.ok_or("room")?;
    let status = run_words(alloc, &mut host, &["S", "status"], b"".as_slice())?;
    if status != Status::Done {
        return Ok(None);
    }
    let text = String::from_utf8(host.out().to_vec(alloc)?)?;
    for count in 0..4usize {
        let tail = format!(in alloc; "\"records\":{count}}}\n")?;
        if text.as_str().ends_with(tail.as_str()) {
            return Ok(Some(count));
        }
    }
    Ok(None)
}
