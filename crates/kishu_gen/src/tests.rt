// What is made from the largest start, and what is summed up.
use crate::{Script, Summary};
use kishu_model::Request;
use std::alloc::{AllocError, Global};
use std::test::Fail;

/// As many requests behind the first ten, as tools/compare/gen_rules.py makes them.
const LATER: [&str; 14] = [
    "print(v3 is v7, len(v7))",
    "v9.append(12)",
    "v5 = [13, 3]",
    "v6 = [v5]",
    "to 4",
    "v8 = [v3]",
    "v9 = v7",
    "v2 = [18, 8]",
    "v7 = [19, 8]",
    "print(v7 is v5, len(v5))",
    "v5 = [21, 2]",
    "v4 = [v0]",
    "v4.append(23)",
    "v2 = v6",
];

fn shown(alloc: Global, request: &Request) -> Result<String, AllocError> {
    match request {
        Request::Cell { text } => String::from_str(alloc, text.as_str()),
        Request::Checkout { to } => format!(in alloc; "to {}", to.as_str()),
        _ => String::from_str(alloc, "another"),
    }
}

/// The text of the next request, or nothing.
fn next_of(alloc: Global, script: &mut Script) -> Result<String, AllocError> {
    match script.next(alloc)? {
        Some(request) => shown(alloc, &request),
        None => String::from_str(alloc, ""),
    }
}

#[test]
fn makes_requests(rt: HostRuntime) -> Result<(), Fail> {
    let alloc = rt.alloc();
    let mut script = Script::new(2_147_483_647, 24);
    for made in 0u32..10 {
        let number = made + 1;
        let wanted = format!(in alloc; "v{made} = [{number}]")?;
        assert_eq!(rt; next_of(alloc, &mut script)?.as_str(), wanted.as_str());
    }
    for wanted in LATER {
        assert_eq!(rt; next_of(alloc, &mut script)?.as_str(), wanted);
    }
    assert_eq!(rt; next_of(alloc, &mut script)?.as_str(), "");
    Ok(())
}

/// FIPS 180-4's example, in two pieces.
#[test]
fn sums_up(rt: HostRuntime) -> Result<(), Fail> {
    let mut summary = Summary::new();
    summary.take(b"a");
    summary.take(b"bc");
    assert_eq!(rt;
        summary.line(rt.alloc(), 2, 1)?.as_slice(),
        b"{\"answer\":\"gen\",\"commits\":2,\"records\":1,\"sha256\":\"ba7816bf8f01cfea414140de5dae2223b00361a396177a9cb410ff61f20015ad\"}\n".as_slice()
    );
    Ok(())
}
