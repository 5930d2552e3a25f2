// Worked examples, and that each call that takes memory succeeds where there is enough.
use crate::count::raise;
use crate::{Failed, Host, MemHost, MemSource, Source};
use std::process::Abort;
use std::test::Fail;

/// A call on a host.
#[derive(Clone, Copy)]
enum Call {
    Len,
    Read,
    Write(u64, &'static [u8]),
    Sync,
    Put(&'static [u8]),
}

/// Makes the call, and says whether it succeeded.
fn answers(rt: &impl Abort, host: &mut MemHost, call: &Call) -> bool {
    match *call {
        Call::Len => host.len().is_ok(),
        Call::Read => host.read_at(0, &mut [0; 4]).is_ok(),
        Call::Write(at, bytes) => {
            assert!(rt; at <= host.file().len() as u64);
            host.write_at(at, bytes).is_ok()
        }
        Call::Sync => host.sync().is_ok(),
        Call::Put(bytes) => host.put(bytes).is_ok(),
    }
}

/// Calls on an empty host, whether each succeeds, and what the host holds then.
struct Case {
    name: &'static str,
    room: u64,
    fail: &'static [u64],
    stop: Option<u64>,
    calls: &'static [(Call, bool)],
    file: &'static [u8],
    out: &'static [u8],
    disk: u64,
    puts: u64,
}

const CASES: [Case; 7] = [
    Case {
        name: "nothing fails",
        room: 4,
        fail: &[],
        stop: None,
        calls: &[
            (Call::Write(0, &[1, 2]), true),
            (Call::Write(1, &[3]), true),
            (Call::Sync, true),
            (Call::Put(&[7, 8, 9]), true),
            (Call::Len, true),
            (Call::Read, true),
        ],
        file: &[1, 3],
        out: &[7, 8, 9],
        disk: 0,
        puts: 0,
    },
    Case {
        name: "by number",
        room: 9,
        fail: &[6, 2, 3],
        stop: None,
        calls: &[
            (Call::Write(0, &[1, 2]), true),
            (Call::Write(0, &[3]), false),
            (Call::Put(&[7]), false),
            (Call::Put(&[8]), true),
            (Call::Sync, true),
            (Call::Read, false),
        ],
        file: &[1, 2],
        out: &[8],
        disk: 2,
        puts: 1,
    },
    Case {
        name: "from a number on",
        room: 9,
        fail: &[],
        stop: Some(3),
        calls: &[
            (Call::Put(&[7]), true),
            (Call::Len, true),
            (Call::Len, false),
            (Call::Write(0, &[1]), false),
            (Call::Put(&[8]), false),
            (Call::Sync, false),
        ],
        file: &[],
        out: &[7],
        disk: 3,
        puts: 1,
    },
    Case {
        name: "no room in the file",
        room: 2,
        fail: &[],
        stop: None,
        calls: &[
            (Call::Write(0, &[1, 2, 3]), false),
            (Call::Write(0, &[1]), true),
            (Call::Write(1, &[2, 3]), false),
        ],
        file: &[1],
        out: &[],
        disk: 2,
        puts: 0,
    },
    Case {
        name: "no room for the bytes of all writes",
        room: 3,
        fail: &[],
        stop: None,
        calls: &[
            (Call::Write(0, &[1, 2]), true),
            (Call::Write(0, &[3, 4]), false),
            (Call::Write(0, &[5]), true),
        ],
        file: &[5, 2],
        out: &[],
        disk: 1,
        puts: 0,
    },
    Case {
        name: "no room in the output",
        room: 3,
        fail: &[],
        stop: None,
        calls: &[
            (Call::Put(&[1, 2]), true),
            (Call::Put(&[3, 4]), false),
            (Call::Put(&[5]), true),
        ],
        file: &[],
        out: &[1, 2, 5],
        disk: 0,
        puts: 1,
    },
    Case {
        name: "no place in the record",
        room: 2,
        fail: &[],
        stop: None,
        calls: &[
            (Call::Sync, true),
            (Call::Put(&[]), true),
            (Call::Write(0, &[]), false),
            (Call::Sync, false),
            (Call::Put(&[]), false),
            (Call::Read, true),
        ],
        file: &[],
        out: &[],
        disk: 2,
        puts: 1,
    },
];

#[test]
fn fails_where_it_is_told_to_and_where_there_is_no_room(rt: HostRuntime) -> Result<(), Fail> {
    for case in &CASES {
        let name = case.name;
        let file = Vec::new(rt.alloc());
        let fail = case.fail.to_vec(rt.alloc())?;
        let mut host = MemHost::new(rt.alloc(), file, case.room, fail, case.stop)?;
        for (call, succeeds) in case.calls {
            assert_eq!(rt; answers(&rt, &mut host, call), *succeeds, "{name}");
        }
        assert_eq!(rt; host.file(), case.file, "{name}");
        assert_eq!(rt; host.out(), case.out, "{name}");
        assert_eq!(rt; host.failed_disk(), case.disk, "{name}");
        assert_eq!(rt; host.failed_out(), case.puts, "{name}");
    }
    Ok(())
}

#[test]
fn tells_what_it_holds(rt: HostRuntime) -> Result<(), Fail> {
    let file = [1, 2, 3].to_vec(rt.alloc())?;
    let mut host = MemHost::new(rt.alloc(), file, 8, Vec::new(rt.alloc()), None)?;
    let mut into = [0; 4];
    assert_eq!(rt; host.len(), Ok(3));
    assert_eq!(rt; host.read_at(1, &mut into), Ok(2));
    assert_eq!(rt; into, [2, 3, 0, 0]);
    assert_eq!(rt; host.read_at(0, &mut into), Ok(3));
    assert_eq!(rt; into, [1, 2, 3, 0]);
    assert_eq!(rt; host.read_at(9, &mut into), Ok(0));
    assert_eq!(rt; host.bytes_read(), 5);
    Ok(())
}

#[test]
fn tears_what_was_written_since_the_last_sync(rt: HostRuntime) -> Result<(), Fail> {
    let file = [1, 2, 3, 4, 5, 6].to_vec(rt.alloc())?;
    let mut host = MemHost::new(rt.alloc(), file, 20, Vec::new(rt.alloc()), None)?;
    let calls = [
        Call::Write(4, &[50]),
        Call::Sync,
        Call::Write(0, &[10, 20]),
        Call::Write(3, &[40]),
        Call::Put(&[70]),
        Call::Write(6, &[80, 90]),
    ];
    for call in &calls {
        assert!(rt; answers(&rt, &mut host, call));
    }
    assert_eq!(rt; host.file(), [10, 20, 3, 40, 50, 6, 80, 90].as_slice());
    for fill in [0x00, 0xa5, 0xff] {
        let torn = host.torn_file(fill)?;
        let want = [fill, fill, 3, fill, 50, 6, fill, fill];
        assert_eq!(rt; torn.as_slice(), want.as_slice());
    }
    Ok(())
}

/// Takes at most two bytes.
fn take_two<S: Source>(source: &mut S, into: &mut [u8; 2]) -> Result<usize, Failed> {
    source.take(into)
}

#[test]
fn takes_to_the_end(rt: HostRuntime) -> Result<(), Fail> {
    let bytes = [1, 2, 3, 4, 5].to_vec(rt.alloc())?;
    let mut source = MemSource::new(rt.alloc(), bytes, [2, 4].to_vec(rt.alloc())?)?;
    let mut into = [0; 2];
    for (answer, holds) in [
        (Ok(2), [1, 2]),
        (Err(Failed), [1, 2]),
        (Ok(2), [3, 4]),
        (Err(Failed), [3, 4]),
        (Ok(1), [5, 4]),
        (Ok(0), [5, 4]),
    ] {
        assert_eq!(rt; take_two(&mut source, &mut into), answer);
        assert_eq!(rt; into, holds);
    }
    Ok(())
}

/// A host that tells no content, as one over a real file.
#[derive(Drop)]
struct Silent {
    len: u64,
    disk_faults: u64,
    out_faults: u64,
}

impl Host for Silent {
    ghost use Rattle.std.specs.Prelude.{false, [], None};
    ghost use Rattle.std.proofs.lemmas.Bool.{false≢true};

    ghost state = { λ s. record {
      tells = false;
      file = [];
      out = [];
      moment = 0;
      reads = None;
      disk_faults = s.disk_faults;
      out_faults = s.out_faults;
      may_leave = λ _. Unit {0};
      left_since = λ _ _ _. Unit {0};
    } };

    ghost reads_now = { λ s told. tt };

    ghost counts_now = { λ s t c le now. tt };

    ghost only_now = { λ s c o told left. absurd (false≢true told) };

    fn len(&mut self) -> Result<u64, Failed> {
        Ok(self.len)
    }

    fn read_at(&mut self, at: u64, into: &mut [u8]) -> Result<usize, Failed> {
        if at > self.len {
            raise(&mut self.disk_faults);
            return Err(Failed);
        }
        Ok(into.len() / 2)
    }

    fn write_at(&mut self, at: u64, bytes: &[u8]) -> Result<(), Failed> {
        self.len = at.saturating_add(bytes.len() as u64);
        Ok(())
    }

    fn sync(&mut self) -> Result<(), Failed> {
        Ok(())
    }

    fn put(&mut self, bytes: &[u8]) -> Result<(), Failed> {
        if bytes.len() > 100 {
            raise(&mut self.out_faults);
            return Err(Failed);
        }
        Ok(())
    }
}

/// Writes at the file's front, and tells of it.
fn begin<H: Host>(host: &mut H, bytes: &[u8]) -> Result<u64, Failed> {
    host.write_at(0, bytes)?;
    host.sync()?;
    host.put(bytes)?;
    host.len()
}

#[test]
fn serves_through_the_trait(rt: HostRuntime) -> Result<(), Fail> {
    let mut silent = Silent {
        len: 0,
        disk_faults: 0,
        out_faults: 0,
    };
    assert_eq!(rt; begin(&mut silent, &[1, 2, 3]), Ok(3));
    let file = Vec::new(rt.alloc());
    let mut host = MemHost::new(rt.alloc(), file, 3, Vec::new(rt.alloc()), None)?;
    assert_eq!(rt; begin(&mut host, &[1, 2, 3]), Ok(3));
    Ok(())
}
