// A store that is cut short behind a session's back: cells ask for a stored picture, and the file ends before it.
ghost use Rattle.std.specs.Prelude.{◌≡◌, ◌<◌};

use super::pictures::PARTED;
use kishu_host::{Failed, Host};
use kishu_model::{Request, Steps};
use kishu_session::{Halt, Session};
use std::alloc::{AllocError, Global};
use std::marker::Brand;
use std::rc::RcStr;
use std::sync::ledger::{Blank, Ledger};
use std::test::Fail;

/// A host over these bytes that tells no content, so that they may change behind a session's back. What is written to
/// it isn't kept.
#[derive(Drop)]
struct Silent {
    file: Vec<u8>,
    writes: u64,
}

impl Host for Silent {
    ghost use Rattle.std.specs.Prelude.{false, [], None};
    ghost use Rattle.std.proofs.lemmas.Bool.{false≢true};

    ghost state = { λ _. record {
      tells = false;
      file = [];
      out = [];
      moment = 0;
      reads = None;
      disk_faults = 0;
      out_faults = 0;
      may_leave = λ _. Unit {0};
      left_since = λ _ _ _. Unit {0};
    } };

    ghost reads_now = { λ s told. tt };

    ghost counts_now = { λ s t c le now. tt };

    ghost only_now = { λ s c o told left. absurd (false≢true told) };

    fn len(&mut self) -> Result<u64, Failed> {
        Ok(self.file.len() as u64)
    }

    fn read_at(&mut self, at: u64, into: &mut [u8]) -> Result<usize, Failed> {
        let from = at.min(self.file.len() as u64) as usize;
        let n = into.len().min(self.file.len() - from);
        into[..n].copy_from_slice(&self.file[from..from + n]);
        Ok(n)
    }

    fn write_at(&mut self, _at: u64, _bytes: &[u8]) -> Result<(), Failed> {
        self.writes = self.writes.saturating_add(1);
        Ok(())
    }

    fn sync(&mut self) -> Result<(), Failed> {
        Ok(())
    }

    fn put(&mut self, _bytes: &[u8]) -> Result<(), Failed> {
        Ok(())
    }
}

/// How a session ends whose file is cut to so many bytes behind its back.
#[derive(Drop)]
struct Ended {
    /// Why the cell isn't answered that writes what was there.
    cell: Option<Halt>,
    /// Why the next request isn't.
    next: Option<Halt>,
    /// How many writes the two came to.
    writes: u64,
}

/// That of the store of two commits, whose second leaves the list of `z` as the first stored it.
fn after_cut<L: Ledger>(
    alloc: Global,
    len: usize,
    blank: Blank,
) -> Result<Option<Ended>, AllocError>
    requires name { blank.name ≡ L.name }
    requires parts { blank.parts ≡ L.parts }
    requires some { 0 < L.parts }
{
    let mut steps = Steps::<L>::new(blank);
    let mut host = Silent {
        file: PARTED.to_vec(alloc)?,
        writes: 0,
    };
    let cell = Request::Cell {
        text: RcStr::from_str(alloc, "z[0] = 2")?,
    };
    let Ok(mut session) = Session::attach(alloc, &mut host, &mut steps) else {
        return Ok(None);
    };
    host.file.truncate(len);
    let first = session.apply(&mut host, &cell, &mut steps).err();
    let second = session.apply(&mut host, &Request::Status, &mut steps).err();
    Ok(Some(Ended {
        cell: first,
        next: second,
        writes: host.writes,
    }))
}

#[test]
fn a_cell_finds_its_file_cut_short(rt: HostRuntime) -> Result<(), Fail> {
    let alloc = rt.alloc();
    // The picture of `z` has 37 bytes. The session is closed, and nothing was written.
    for len in [0, 160, 196] {
        let ends = after_cut::<Brand>(alloc, len, Blank::new(1))?.ok_or("opened")?;
        assert!(rt; ends.cell == Some(Halt::Damaged { at: 160 }), "{len}");
        assert!(rt; ends.next == Some(Halt::Closed) && ends.writes == 0);
    }
    // Here it is whole, and the cell is committed by two writes: no other stored picture is asked for.
    let ends = after_cut::<Brand>(alloc, 197, Blank::new(1))?.ok_or("opened")?;
    assert!(rt; ends.cell.is_none() && ends.next.is_none() && ends.writes == 2);
    Ok(())
}
