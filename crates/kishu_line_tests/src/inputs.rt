// Inputs and their lines, and that each call that takes memory succeeds where there is enough.
use kishu_host::MemSource;
use kishu_input::{InputStop, LineReader, read_input};
use kishu_language::LONGEST_TEXT;
use std::alloc::{AllocError, Global};
use std::test::Fail;

/// An input and its lines.
struct Case {
    name: &'static str,
    input: &'static [u8],
    lines: &'static [&'static [u8]],
}

const CASES: [Case; 8] = [
    Case {
        name: "nothing",
        input: b"",
        lines: &[],
    },
    Case {
        name: "a line",
        input: b"abc\n",
        lines: &[b"abc"],
    },
    Case {
        name: "a last rest",
        input: b"abc\nde",
        lines: &[b"abc", b"de"],
    },
    Case {
        name: "a rest alone",
        input: b"a",
        lines: &[b"a"],
    },
    Case {
        name: "a line feed alone",
        input: b"\n",
        lines: &[b""],
    },
    Case {
        name: "empty lines",
        input: b"\n\na\n\n",
        lines: &[b"", b"", b"a", b""],
    },
    Case {
        name: "a carriage return is kept",
        input: b"a\r\n\r\nb\r",
        lines: &[b"a\r", b"\r", b"b\r"],
    },
    Case {
        name: "bytes that are no text",
        input: b"\xff\x00\n\x80",
        lines: &[b"\xff\x00", b"\x80"],
    },
];

/// A source of these bytes, which fails at the calls of these numbers.
fn source_of(alloc: Global, bytes: &[u8], fail: &[u64]) -> Result<MemSource, AllocError> {
    MemSource::new(alloc, bytes.to_vec(alloc)?, fail.to_vec(alloc)?)
}

/// Whether this is the next line.
fn gives(reader: &mut LineReader, source: &mut MemSource, want: &[u8]) -> Result<bool, InputStop> {
    match reader.next(source)? {
        Some(line) => Ok(line.as_slice() == want),
        None => Ok(false),
    }
}

/// Whether there is no further line.
fn ends(reader: &mut LineReader, source: &mut MemSource) -> Result<bool, InputStop> {
    Ok(reader.next(source)?.is_none())
}

/// Whether an input has its lines, and ends then each time that it is asked.
fn has_lines(alloc: Global, case: &Case) -> Result<bool, Fail> {
    let mut source = source_of(alloc, case.input, &[])?;
    let mut reader = LineReader::new(alloc);
    for line in case.lines {
        if !gives(&mut reader, &mut source, line)? {
            return Ok(false);
        }
    }
    Ok(ends(&mut reader, &mut source)? && ends(&mut reader, &mut source)?)
}

#[test]
fn tells_the_lines_of_inputs(rt: HostRuntime) -> Result<(), Fail> {
    let alloc = rt.alloc();
    for case in &CASES {
        let name = case.name;
        assert!(rt; has_lines(alloc, case)?, "{name}");
    }
    Ok(())
}

/// So many bytes `x`.
fn many(alloc: Global, count: usize) -> Result<Vec<u8>, AllocError> {
    let mut bytes = Vec::new(alloc);
    bytes.resize(count, b'x')?;
    Ok(bytes)
}

/// Lines of so many bytes.
fn long_lines(alloc: Global, counts: &[usize]) -> Result<Vec<u8>, AllocError> {
    let mut input = Vec::new(alloc);
    for count in counts {
        input.extend_from_slice(&many(alloc, *count)?)?;
        input.push(b'\n')?;
    }
    Ok(input)
}

#[test]
fn tells_lines_longer_than_what_is_taken_at_once(rt: HostRuntime) -> Result<(), Fail> {
    let alloc = rt.alloc();
    let counts = [5000, 4095, 0, 1, 4096, 9000];
    let input = long_lines(alloc, &counts)?;
    let mut source = source_of(alloc, &input, &[])?;
    let mut reader = LineReader::new(alloc);
    for count in &counts {
        let want = many(alloc, *count)?;
        assert!(rt; gives(&mut reader, &mut source, &want)?, "{count} bytes");
    }
    assert!(rt; ends(&mut reader, &mut source)?);
    Ok(())
}

/// Why the next line isn't told, where it isn't.
fn stop_of(reader: &mut LineReader, source: &mut MemSource) -> Option<InputStop> {
    reader.next(source).err()
}

/// Why an input isn't read whole, where it isn't.
fn whole_stop(alloc: Global, source: &mut MemSource) -> Option<InputStop> {
    read_input(alloc, source, LONGEST_TEXT).err()
}

#[test]
fn tells_that_the_source_failed(rt: HostRuntime) -> Result<(), Fail> {
    let alloc = rt.alloc();
    let mut source = source_of(alloc, b"a\nb", &[2])?;
    let mut reader = LineReader::new(alloc);
    assert!(rt; gives(&mut reader, &mut source, b"a".as_slice())?);
    assert!(rt; stop_of(&mut reader, &mut source) == Some(InputStop::Fault));
    let mut failing = source_of(alloc, b"a\nb", &[2])?;
    assert!(rt; whole_stop(alloc, &mut failing) == Some(InputStop::Fault));
    Ok(())
}

/// Whether an input of so many bytes is read whole.
fn reads_whole(alloc: Global, count: usize) -> Result<bool, Fail> {
    let want = many(alloc, count)?;
    let mut source = source_of(alloc, &want, &[])?;
    Ok(read_input(alloc, &mut source, LONGEST_TEXT)?.as_slice() == want.as_slice())
}

#[test]
fn reads_an_input_whole(rt: HostRuntime) -> Result<(), Fail> {
    let alloc = rt.alloc();
    for count in &[0, 1, 4096, 4097, 1_048_576] {
        assert!(rt; reads_whole(alloc, *count)?, "{count} bytes");
    }
    let long = many(alloc, 1_048_577)?;
    let mut source = source_of(alloc, &long, &[])?;
    assert!(rt; whole_stop(alloc, &mut source) == Some(InputStop::TooLong));
    Ok(())
}
