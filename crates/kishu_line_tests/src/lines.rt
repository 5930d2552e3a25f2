// Lines of requests and answers. Which answers a session writes is shown in `kishu_tests`.
use kishu_lines::{read_request, write_answer};
use kishu_model::{Answer, CellResult, Outcome, Output, Refusal, Request};
use std::alloc::{AllocError, Global};
use std::rc::RcStr;
use std::test::Fail;

/// Texts in words, each behind a bar.
fn barred(alloc: Global, texts: &[RcStr]) -> Result<String, AllocError> {
    let mut words = String::from_str(alloc, "cells")?;
    for text in texts {
        words.push_str(" |")?;
        words.push_str(text.as_str())?;
    }
    Ok(words)
}

/// A request in words.
fn told(alloc: Global, request: &Request) -> Result<String, AllocError> {
    match request {
        Request::Cell { text } => format!(in alloc; "cell {}", text.as_str()),
        Request::Cells { texts } => barred(alloc, texts),
        Request::Checkout { to } => format!(in alloc; "checkout {}", to.as_str()),
        Request::Branch { name, at: None } => format!(in alloc; "branch {}", name.as_str()),
        Request::Branch { name, at: Some(at) } => {
            format!(in alloc; "branch {} at {}", name.as_str(), at.as_str())
        }
        Request::Log => String::from_str(alloc, "log"),
        Request::Status => String::from_str(alloc, "status"),
        Request::Inspect => String::from_str(alloc, "inspect"),
        Request::Stored { of } => format!(in alloc; "stored {}", of.as_str()),
        Request::Plan { to } => format!(in alloc; "plan {}", to.as_str()),
    }
}

/// Whether a line is the request that these words tell.
fn reads(alloc: Global, line: &[u8], want: &str) -> Result<bool, AllocError> {
    match read_request(alloc, line)? {
        Some(request) => Ok(told(alloc, &request)?.as_str() == want),
        None => Ok(false),
    }
}

/// Whether bytes are no request.
fn reads_none(alloc: Global, line: &[u8]) -> Result<bool, AllocError> {
    Ok(read_request(alloc, line)?.is_none())
}

/// Lines that are requests. The first ten are the examples of docs/LINES.md.
const REQUESTS: [(&str, &str); 30] = [
    (
        "{\"op\":\"cell\",\"text\":\"a = [1]; b = a\"}",
        "cell a = [1]; b = a",
    ),
    (
        "{\"op\":\"cells\",\"texts\":[\"a = 1\",\"a // 0\",\"a = 2\"]}",
        "cells |a = 1 |a // 0 |a = 2",
    ),
    ("{\"op\":\"checkout\",\"to\":\"1\"}", "checkout 1"),
    ("{\"op\":\"branch\",\"name\":\"try\"}", "branch try"),
    (
        "{\"op\":\"branch\",\"name\":\"back\",\"at\":\"main\"}",
        "branch back at main",
    ),
    ("{\"op\":\"log\"}", "log"),
    ("{\"op\":\"status\"}", "status"),
    ("{\"op\":\"inspect\"}", "inspect"),
    ("{\"op\":\"stored\",\"of\":\"1\"}", "stored 1"),
    ("{\"op\":\"plan\",\"to\":\"1\"}", "plan 1"),
    // in another order, with white space around and between
    ("{\"text\":\"x\",\"op\":\"cell\"}", "cell x"),
    (" \t\r{ \"op\" :\t\"log\"\r} ", "log"),
    ("{ \"of\" : \"main\", \"op\" : \"stored\" }", "stored main"),
    ("{\"to\":\"main\" ,\"op\":\"plan\"}", "plan main"),
    // texts of any kind, which are looked at only when the request is done
    ("{\"op\":\"cell\",\"text\":\"\"}", "cell "),
    (
        "{\"op\":\"branch\",\"name\":\"\",\"at\":\"\"}",
        "branch  at ",
    ),
    (
        "{\"op\":\"checkout\",\"to\":\"no such\"}",
        "checkout no such",
    ),
    ("{\"op\":\"cells\",\"texts\":[\"\"]}", "cells |"),
    (
        " { \"texts\" : [ \"a\\nb\" , \"\u{e9}\" ] , \"op\" : \"cells\" } ",
        "cells |a\nb |\u{e9}",
    ),
    // escapes, in keys too, and characters of one to four bytes
    (
        "{\"op\":\"cell\",\"text\":\"\\u0061\\n\\t\\\"\\\\\\/\\u00e9\"}",
        "cell a\n\t\"\\/\u{e9}",
    ),
    (
        "{\"op\":\"cell\",\"text\":\"\\ud83d\\ude00\"}",
        "cell \u{1f600}",
    ),
    (
        "{\"op\":\"cell\",\"text\":\"a\u{e9}\u{20ac}\u{1f600}\"}",
        "cell a\u{e9}\u{20ac}\u{1f600}",
    ),
    ("{\"\\u006fp\":\"l\\u006fg\"}", "log"),
    ("{\"op\":\"cell\",\"text\":\"\\u0000\"}", "cell \u{0}"),
    // Of a repeated key the last value counts.
    ("{\"op\":\"log\",\"op\":\"status\"}", "status"),
    ("{\"op\":\"cell\",\"text\":\"a\",\"text\":\"b\"}", "cell b"),
    ("{\"op\":\"cell\",\"text\":1,\"text\":\"b\"}", "cell b"),
    (
        "{\"op\":\"cell\",\"text\":[{}, [1, -2.5e3], true, null],\"text\":\"b\"}",
        "cell b",
    ),
    ("{\"op\":\"log\",\"\\u006fp\":\"status\"}", "status"),
    (
        "{\"op\":\"cells\",\"texts\":[],\"texts\":[\"a\"]}",
        "cells |a",
    ),
];

#[test]
fn reads_requests(rt: HostRuntime) -> Result<(), Fail> {
    let alloc = rt.alloc();
    for (line, want) in &REQUESTS {
        assert!(rt; reads(alloc, line.as_bytes(), want)?, "at {line}");
    }
    Ok(())
}

/// Lines that are no request.
const NO_REQUESTS: [&str; 58] = [
    // no JSON, or none that is one value
    "",
    " \t\r",
    "log",
    "{\"op\":\"log\"",
    "{\"op\":\"log\"}}",
    "{\"op\":\"log\"} {\"op\":\"log\"}",
    "{\"op\":\"log\"},",
    "{\"op\":\"log\",}",
    "{'op':'log'}",
    "{op:\"log\"}",
    "\u{feff}{\"op\":\"log\"}",
    "{\"op\":\"cell\",\"text\":\"a\tb\"}",
    "{\"op\":\"cell\",\"text\":\"\\x41\"}",
    "{\"op\":\"cell\",\"text\":NaN,\"text\":\"a\"}",
    "{\"op\":\"cell\",\"text\":01,\"text\":\"a\"}",
    // a lone surrogate, and a number that is too large
    "{\"op\":\"cell\",\"text\":\"\\ud83d\"}",
    "{\"op\":\"cell\",\"text\":\"\\ude00\\ud83d\"}",
    "{\"op\":\"cell\",\"text\":1e999,\"text\":\"a\"}",
    // no object
    "null",
    "\"log\"",
    "7",
    "[]",
    "[\"op\",\"log\"]",
    "[{\"op\":\"log\"}]",
    // another request
    "{}",
    "{\"op\":\"fly\"}",
    "{\"op\":\"Log\"}",
    "{\"Op\":\"log\"}",
    "{\"op\":\"\"}",
    // a key that is missing, and one too many
    "{\"op\":\"cell\"}",
    "{\"text\":\"x\"}",
    "{\"op\":\"branch\",\"at\":\"main\"}",
    "{\"op\":\"log\",\"text\":\"x\"}",
    "{\"op\":\"log\",\"x\":1}",
    "{\"op\":\"cell\",\"text\":\"x\",\"at\":\"main\"}",
    "{\"op\":\"branch\",\"name\":\"try\",\"to\":\"main\"}",
    "{\"op\":\"stored\"}",
    "{\"op\":\"stored\",\"to\":\"1\"}",
    "{\"op\":\"stored\",\"of\":\"1\",\"to\":\"1\"}",
    "{\"op\":\"plan\"}",
    "{\"op\":\"plan\",\"of\":\"1\"}",
    "{\"op\":\"plan\",\"of\":\"1\",\"to\":\"1\"}",
    // another kind of value
    "{\"op\":\"checkout\",\"to\":1}",
    "{\"op\":\"stored\",\"of\":1}",
    "{\"op\":\"plan\",\"to\":1}",
    "{\"op\":\"cell\",\"text\":null}",
    "{\"op\":\"cell\",\"text\":\"b\",\"text\":[\"b\"]}",
    "{\"op\":\"branch\",\"name\":\"try\",\"at\":null}",
    "{\"op\":[\"log\"]}",
    // no text, a list with something else in it, and no list
    "{\"op\":\"cells\",\"texts\":[]}",
    "{\"op\":\"cells\",\"texts\":[\"a\",1]}",
    "{\"op\":\"cells\",\"texts\":[null,\"a\"]}",
    "{\"op\":\"cells\",\"texts\":[[\"a\"]]}",
    "{\"op\":\"cells\",\"texts\":\"a\"}",
    "{\"op\":\"cells\",\"texts\":{\"0\":\"a\"}}",
    "{\"op\":\"cells\",\"text\":\"a\"}",
    "{\"op\":\"cells\",\"texts\":[\"a\"],\"text\":\"a\"}",
    "{\"op\":\"cell\",\"texts\":[\"a\"]}",
];

#[test]
fn reads_no_requests(rt: HostRuntime) -> Result<(), Fail> {
    let alloc = rt.alloc();
    for line in &NO_REQUESTS {
        assert!(rt; reads_none(alloc, line.as_bytes())?, "at {line}");
    }
    Ok(())
}

/// A cell with these bytes in its text.
fn cell_of(alloc: Global, bytes: &[u8]) -> Result<Vec<u8>, AllocError> {
    let mut line = Vec::from_slice(alloc, b"{\"op\":\"cell\",\"text\":\"")?;
    line.extend_from_slice(bytes)?;
    line.extend_from_slice(b"\"}")?;
    Ok(line)
}

#[test]
fn reads_utf8_alone(rt: HostRuntime) -> Result<(), Fail> {
    let alloc = rt.alloc();
    // a byte that is in no text, a character cut short, one spelled too long, and a surrogate
    let texts: [&[u8]; 5] = [b"\xff", b"\xc3", b"\xe2\x82", b"\xc0\x80", b"\xed\xa0\x80"];
    for text in &texts {
        let line = cell_of(alloc, text)?;
        assert!(rt; reads_none(alloc, &line)?);
        assert!(rt; reads_none(alloc, text)?);
    }
    Ok(())
}

/// A cell whose first `text`, which its second one replaces, nests this deep inside the object.
fn nested(alloc: Global, depth: usize) -> Result<Vec<u8>, AllocError> {
    let mut line = Vec::from_slice(alloc, b"{\"op\":\"cell\",\"text\":")?;
    for _ in 0..depth {
        line.push(b'[')?;
    }
    for _ in 0..depth {
        line.push(b']')?;
    }
    line.extend_from_slice(b",\"text\":\"a\"}")?;
    Ok(line)
}

#[test]
fn reads_what_nests_127_deep(rt: HostRuntime) -> Result<(), Fail> {
    let alloc = rt.alloc();
    let deepest = nested(alloc, 126)?;
    assert!(rt; reads(alloc, &deepest, "cell a")?);
    let deeper = nested(alloc, 127)?;
    assert!(rt; reads_none(alloc, &deeper)?);
    assert!(rt; reads_none(alloc, &[b'['; 200])?);
    Ok(())
}

/// Whether this is the line of the last commit that there can be, whose cell shows a text.
fn shows(alloc: Global, text: &str, want: &str) -> Result<bool, AllocError> {
    let text = RcStr::from_str(alloc, text)?;
    let outputs = vec![in alloc; Output::Shown { text }]?;
    let answer = Answer::Cell {
        commit: u32::MAX,
        count: 12,
        result: CellResult {
            outcome: Outcome::Done,
            outputs,
        },
    };
    Ok(write_answer(alloc, &answer)?.as_slice() == want.as_bytes())
}

#[test]
fn writes_what_a_cell_shows(rt: HostRuntime) -> Result<(), Fail> {
    let line =
        "{\"answer\":\"cell\",\"commit\":4294967295,\"count\":12,\"outcome\":\"ok\",\"outputs\":[{\"data\":{\"text/plain\":\"'a\\\"\\\\\\u0001\\t\u{e9}'\"},\"execution_count\":12,\"metadata\":{},\"output_type\":\"execute_result\"}]}\n";
    assert!(rt; shows(rt.alloc(), "'a\"\\\u{1}\t\u{e9}'", line)?);
    Ok(())
}

/// What commits drop and store, with the lines that tell it: in groups of names.
const STORED: [(u32, &[&[&str]], &[&[&str]], &str); 4] = [
    (
        1,
        &[],
        &[&["x", "y"], &["z"]],
        "{\"answer\":\"stored\",\"commit\":1,\"dropped\":[],\"stored\":[[\"x\",\"y\"],[\"z\"]]}\n",
    ),
    (
        2,
        &[&["x", "y"]],
        &[&["x"], &["y"]],
        "{\"answer\":\"stored\",\"commit\":2,\"dropped\":[[\"x\",\"y\"]],\"stored\":[[\"x\"],[\"y\"]]}\n",
    ),
    // the root, and what no commit has: a group without names, and a name that is escaped
    (
        0,
        &[],
        &[],
        "{\"answer\":\"stored\",\"commit\":0,\"dropped\":[],\"stored\":[]}\n",
    ),
    (
        u32::MAX,
        &[&[]],
        &[&["\"\u{e9}"]],
        "{\"answer\":\"stored\",\"commit\":4294967295,\"dropped\":[[]],\"stored\":[[\"\\\"\u{e9}\"]]}\n",
    ),
];

/// Groups of names.
fn groups_of(alloc: Global, groups: &[&[&str]]) -> Result<Vec<Vec<RcStr>>, AllocError> {
    let mut made = Vec::new(alloc);
    for names in groups {
        made.push(names_of(alloc, names)?)?;
    }
    Ok(made)
}

/// Names.
fn names_of(alloc: Global, names: &[&str]) -> Result<Vec<RcStr>, AllocError> {
    let mut made = Vec::new(alloc);
    for name in names {
        made.push(RcStr::from_str(alloc, name)?)?;
    }
    Ok(made)
}

/// Whether this line tells what a commit drops and stores.
fn tells_stored(
    alloc: Global,
    commit: u32,
    dropped: &[&[&str]],
    stored: &[&[&str]],
    want: &str,
) -> Result<bool, AllocError> {
    let answer = Answer::Stored {
        commit,
        dropped: groups_of(alloc, dropped)?,
        stored: groups_of(alloc, stored)?,
    };
    Ok(write_answer(alloc, &answer)?.as_slice() == want.as_bytes())
}

#[test]
fn writes_what_commits_stored(rt: HostRuntime) -> Result<(), Fail> {
    let alloc = rt.alloc();
    for (commit, dropped, stored, want) in &STORED {
        assert!(rt;
            tells_stored(alloc, *commit, dropped, stored, want)?,
            "{want}"
        );
    }
    Ok(())
}

/// A checkout that isn't made, with the line that tells what it would drop, keep and load.
struct Planned {
    commit: u32,
    drop: &'static [&'static [&'static str]],
    keep: &'static [&'static [&'static str]],
    load: &'static [&'static [&'static str]],
    line: &'static str,
}

/// What checkouts would drop, keep and load.
const PLANS: [Planned; 4] = [
    Planned {
        commit: 1,
        drop: &[&["x"], &["y"]],
        keep: &[&["z"]],
        load: &[&["x", "y"]],
        line: "{\"answer\":\"plan\",\"commit\":1,\"drop\":[[\"x\"],[\"y\"]],\"keep\":[[\"z\"]],\"load\":[[\"x\",\"y\"]]}\n",
    },
    // to where the head stands
    Planned {
        commit: 2,
        drop: &[],
        keep: &[&["a"]],
        load: &[],
        line: "{\"answer\":\"plan\",\"commit\":2,\"drop\":[],\"keep\":[[\"a\"]],\"load\":[]}\n",
    },
    // the root, and what no commit has: a group without names, and a name that is escaped
    Planned {
        commit: 0,
        drop: &[&["a", "b"]],
        keep: &[],
        load: &[],
        line: "{\"answer\":\"plan\",\"commit\":0,\"drop\":[[\"a\",\"b\"]],\"keep\":[],\"load\":[]}\n",
    },
    Planned {
        commit: u32::MAX,
        drop: &[],
        keep: &[&[]],
        load: &[&["\"\u{e9}"]],
        line: "{\"answer\":\"plan\",\"commit\":4294967295,\"drop\":[],\"keep\":[[]],\"load\":[[\"\\\"\u{e9}\"]]}\n",
    },
];

/// Whether this line tells what a checkout would drop, keep and load.
fn tells_plan(alloc: Global, plan: &Planned) -> Result<bool, AllocError> {
    let answer = Answer::Plan {
        commit: plan.commit,
        drop: groups_of(alloc, plan.drop)?,
        keep: groups_of(alloc, plan.keep)?,
        load: groups_of(alloc, plan.load)?,
    };
    Ok(write_answer(alloc, &answer)?.as_slice() == plan.line.as_bytes())
}

#[test]
fn writes_what_checkouts_would_do(rt: HostRuntime) -> Result<(), Fail> {
    let alloc = rt.alloc();
    for plan in &PLANS {
        assert!(rt; tells_plan(alloc, plan)?, "{}", plan.line);
    }
    Ok(())
}

/// Each refusal with its line.
const REFUSALS: [(Refusal, &str); 7] = [
    (
        Refusal::BadRequest,
        "{\"answer\":\"refused\",\"number\":1,\"reason\":\"BadRequest\"}\n",
    ),
    (
        Refusal::NoSuchRef,
        "{\"answer\":\"refused\",\"number\":2,\"reason\":\"NoSuchRef\"}\n",
    ),
    (
        Refusal::BadName,
        "{\"answer\":\"refused\",\"number\":3,\"reason\":\"BadName\"}\n",
    ),
    (
        Refusal::NameTaken,
        "{\"answer\":\"refused\",\"number\":4,\"reason\":\"NameTaken\"}\n",
    ),
    (
        Refusal::StoreFull,
        "{\"answer\":\"refused\",\"number\":5,\"reason\":\"StoreFull\"}\n",
    ),
    (
        Refusal::CellTooLong,
        "{\"answer\":\"refused\",\"number\":6,\"reason\":\"CellTooLong\"}\n",
    ),
    (
        Refusal::StateTooLarge { bytes: 301001535 },
        "{\"answer\":\"refused\",\"bytes\":301001535,\"number\":7,\"reason\":\"StateTooLarge\"}\n",
    ),
];

/// Whether a refusal has this line.
fn refuses(alloc: Global, refusal: &Refusal, want: &str) -> Result<bool, AllocError> {
    Ok(write_answer(alloc, &refusal.answer())?.as_slice() == want.as_bytes())
}

#[test]
fn writes_refusals(rt: HostRuntime) -> Result<(), Fail> {
    let alloc = rt.alloc();
    for (refusal, want) in &REFUSALS {
        assert!(rt; refuses(alloc, refusal, want)?, "{want}");
    }
    Ok(())
}
