// A heap that is loaded anew.
ghost use Rattle.std.specs.Prelude.{◌≡◌, ◌<◌, IfOk};
ghost use Rattle.kishu_model.specs.Values.{request_of};
ghost use Rattle.kishu_model.specs.requests.Cells.{HasRoom};
ghost use Rattle.kishu_session.specs.Attached.{IsReady};

use super::host_over;
use kishu_host::{Host, MemHost};
use kishu_model::{Answer, Request, Steps};
use kishu_session::{Halt, Session};
use std::alloc::{AllocError, Global};
use std::marker::Brand;
use std::rc::RcStr;
use std::sync::ledger::{Blank, Ledger};
use std::test::Fail;

/// A cell that makes 1,200,000 lists and keeps none.
const MANY: &str = "for i in range(1200000): []";

/// Opens a session.
fn opened<H: Host, L: Ledger>(
    alloc: Global,
    host: &mut H,
    steps: &mut Steps<L>,
) -> Result<Session, Halt>
    ensures ready { IfOk result (λ session. IsReady session (H.state host.new)) }
{
    Session::attach(alloc, host, steps)
}

/// Applies a request, and more may be applied then.
fn next<H: Host, L: Ledger>(
    session: &mut Session,
    host: &mut H,
    request: &Request,
    steps: &mut Steps<L>,
) -> Result<Answer, Halt>
    requires ready { IsReady session.old (H.state host.old) }
    requires room { HasRoom (request_of request.now) }
    ensures ready { IsReady session.new (H.state host.new) }
{
    session.apply(host, request, steps)
}

/// How many nodes there are after seven cells that keep none of theirs, how many after one cell more, and the
/// names that are bound then. Nothing is told where the session ends before.
fn lengths<H: Host, L: Ledger>(
    alloc: Global,
    host: &mut H,
    blank: Blank,
) -> Result<Option<(u32, u32, Answer)>, AllocError>
    requires name { blank.name ≡ L.name }
    requires parts { blank.parts ≡ L.parts }
    requires some { 0 < L.parts }
{
    let mut steps = Steps::<L>::new(blank);
    let Ok(mut session) = opened(alloc, host, &mut steps) else {
        return Ok(None);
    };
    for _turn in 0..7u32 {
        let many = Request::Cell {
            text: RcStr::from_str(alloc, MANY)?,
        };
        let Ok(_) = next(&mut session, host, &many, &mut steps) else {
            return Ok(None);
        };
    }
    let before = session.heap().len();
    let one = Request::Cell {
        text: RcStr::from_str(alloc, "a = []")?,
    };
    let Ok(_) = next(&mut session, host, &one, &mut steps) else {
        return Ok(None);
    };
    let now = session.heap().len();
    let Ok(told) = next(&mut session, host, &Request::Status, &mut steps) else {
        return Ok(None);
    };
    Ok(Some((before, now, told)))
}

/// Whether a status tells just these names.
fn names_just(answer: &Answer, names: &[&str]) -> bool {
    match answer {
        Answer::Status { names: bound, .. } => {
            bound.len() == names.len()
                && bound
                    .iter()
                    .zip(names)
                    .all(|(told, name)| told.as_str() == *name)
        }
        _ => false,
    }
}

#[test]
fn a_heap_is_loaded_anew(rt: HostRuntime) -> Result<(), Fail> {
    let alloc = rt.alloc();
    let mut host = host_over(alloc, &[], Vec::new(alloc), None)?.ok_or("room")?;
    let (before, now, told) = lengths::<MemHost, Brand>(alloc, &mut host, Blank::new(1))?.ok_or(
        "the session ended",
    )?;
    assert!(rt; before == 8_400_000);
    assert!(rt; now == 1);
    assert!(rt; names_just(&told, &["a", "i"]));
    Ok(())
}
