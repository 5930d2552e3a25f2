// Requests that are made from a number, and what they come to.
use super::host_over;
use super::sessions::run_words;
use kishu_serve::Status;
use std::test::Fail;

/// How many requests are made from 7, and the line that sums them up, as tools/compare/gen_runs.py tells it.
const SUMS: [(&str, &str); 3] = [
    (
        "0",
        "{\"answer\":\"gen\",\"commits\":1,\"records\":0,\"sha256\":\"e3b0c44298fc1c149afbf4c8996fb92427ae41e4649b934ca495991b7852b855\"}\n",
    ),
    (
        "10",
        "{\"answer\":\"gen\",\"commits\":11,\"records\":10,\"sha256\":\"89157149c7c8a4bfa3103b258c6e36d99c3df19b483585f2d8aded32964d8e64\"}\n",
    ),
    (
        "60",
        "{\"answer\":\"gen\",\"commits\":56,\"records\":60,\"sha256\":\"18f54065bfa2043daca46edcbe1ef8e641e5772dfd6cd9bb97146646d1e4424b\"}\n",
    ),
];

/// The 60 requests from 7 as the lines of a session, as the same script makes them.
pub(super) const LINES: &str = r#"{"op":"cell","text":"v0 = [1]"}
{"op":"cell","text":"v1 = [2]"}
{"op":"cell","text":"v2 = [3]"}
{"op":"cell","text":"v3 = [4]"}
{"op":"cell","text":"v4 = [5]"}
{"op":"cell","text":"v5 = [6]"}
{"op":"cell","text":"v6 = [7]"}
{"op":"cell","text":"v7 = [8]"}
{"op":"cell","text":"v8 = [9]"}
{"op":"cell","text":"v9 = [10]"}
{"op":"cell","text":"v3 = [11, 1]"}
{"op":"cell","text":"v3 = [v6]"}
{"op":"cell","text":"v0.append(13)"}
{"op":"cell","text":"v4 = v7"}
{"op":"cell","text":"print(v9 is v4, len(v4))"}
{"op":"cell","text":"v2 = [v2]"}
{"op":"cell","text":"v5 = [17, 8]"}
{"op":"cell","text":"v4.append(18)"}
{"op":"cell","text":"v0 = [19, 5]"}
{"op":"cell","text":"v0 = [v6]"}
{"op":"cell","text":"v2 = [21, 5]"}
{"op":"cell","text":"v7 = [v6]"}
{"op":"cell","text":"v9 = [23, 7]"}
{"op":"cell","text":"v8.append(24)"}
{"op":"cell","text":"v1 = [25, 6]"}
{"op":"cell","text":"v4.append(26)"}
{"op":"cell","text":"v9.append(27)"}
{"op":"cell","text":"v3 = [28, 7]"}
{"op":"cell","text":"v4 = [v7]"}
{"op":"cell","text":"v0 = [30, 1]"}
{"op":"checkout","to":"23"}
{"op":"checkout","to":"14"}
{"op":"cell","text":"v8 = v1"}
{"op":"cell","text":"v0 = [v9]"}
{"op":"cell","text":"v8 = [v4]"}
{"op":"cell","text":"v7 = [36, 6]"}
{"op":"cell","text":"print(v5 is v5, len(v5))"}
{"op":"cell","text":"v2 = [v3]"}
{"op":"cell","text":"v4 = [39, 2]"}
{"op":"checkout","to":"2"}
{"op":"cell","text":"v5 = [41, 5]"}
{"op":"cell","text":"v8.append(42)"}
{"op":"cell","text":"v8 = v2"}
{"op":"cell","text":"print(v5 is v6, len(v6))"}
{"op":"cell","text":"v6 = v4"}
{"op":"cell","text":"print(v6 is v2, len(v2))"}
{"op":"cell","text":"v6 = [v0]"}
{"op":"cell","text":"v4 = [48, 0]"}
{"op":"cell","text":"v0 = [v5]"}
{"op":"cell","text":"v3 = [v7]"}
{"op":"checkout","to":"1"}
{"op":"cell","text":"print(v9 is v1, len(v1))"}
{"op":"cell","text":"print(v3 is v7, len(v7))"}
{"op":"cell","text":"v9 = [54, 5]"}
{"op":"cell","text":"print(v3 is v9, len(v9))"}
{"op":"cell","text":"print(v4 is v3, len(v3))"}
{"op":"cell","text":"v6 = [57, 8]"}
{"op":"cell","text":"v5 = v3"}
{"op":"cell","text":"v0 = [v2]"}
{"op":"checkout","to":"6"}
"#;

#[test]
fn sums_requests_up(rt: HostRuntime) -> Result<(), Fail> {
    let alloc = rt.alloc();
    for (count, line) in SUMS {
        let mut host = host_over(alloc, &[], Vec::new(alloc), None)?.ok_or("room")?;
        let status = run_words(alloc, &mut host, &["S", "gen", "7", count], b"print(1)")?;
        assert_eq!(rt; status, Status::Done);
        assert_eq!(rt; host.out(), line.as_bytes());
    }
    Ok(())
}

#[test]
fn leaves_the_file_of_a_session(rt: HostRuntime) -> Result<(), Fail> {
    let alloc = rt.alloc();
    let mut made = host_over(alloc, &[], Vec::new(alloc), None)?.ok_or("room")?;
    let status = run_words(alloc, &mut made, &["S", "gen", "7", "60"], b"".as_slice())?;
    assert_eq!(rt; status, Status::Done);
    let mut read = host_over(alloc, &[], Vec::new(alloc), None)?.ok_or("room")?;
    let status = run_words(alloc, &mut read, &["S", "session"], LINES.as_bytes())?;
    assert_eq!(rt; status, Status::Done);
    assert_eq!(rt; made.file(), read.file());
    Ok(())
}
