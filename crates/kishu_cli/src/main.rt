//! The program: it hands its words, the standard streams and the store file to `kishu_serve::kishu`,
//! tells how the run ended, and ends with that status.
#![tactic(auto)]

ghost use Rattle.std.specs.Prelude.{◌≡◌, ◌<◌};

mod call;
mod call_log;
mod os;
mod real;
mod system;
#[cfg(test)]
mod tests;
mod transfer;
mod words;

use kishu_host::{Host, MemHost};
use kishu_model::Steps;
use kishu_serve::{Status, kishu};
use kishu_words::store_path;
use os::{Os, OsInput};
use real::{RealHost, RealSource};
use std::alloc::Global;
use std::marker::Brand;
use std::process::ExitCode;
use std::sync::ledger::{Blank, Ledger};
use words::words_of;

fn main(rt: HostRuntime) -> ExitCode {
    let status = run(&rt);
    tell(&rt, &status);
    ExitCode::from(status.code())
}

/// Runs the command line. Words without a store's path have no form, so then no file is touched.
fn run(rt: &HostRuntime) -> Status {
    let alloc = rt.alloc();
    let words = match words_of(rt) {
        Ok(words) => words,
        Err(status) => return status,
    };
    let mut source = RealSource::new(OsInput::new(rt));
    if let Some(path) = store_path(&words) {
        let mut host = RealHost::new(Os::new(rt, path));
        return run_on(alloc, &words, &mut source, &mut host);
    }
    let Ok(mut host) = MemHost::new(alloc, Vec::new(alloc), 0, Vec::new(alloc), None) else {
        return Status::NoMemory;
    };
    run_on(alloc, &words, &mut source, &mut host)
}

/// Runs the words on a host, with a counter of its own.
fn run_on<H: Host>(
    alloc: Global,
    words: &[String],
    source: &mut RealSource<OsInput>,
    host: &mut H,
) -> Status {
    run_counted::<Brand, H>(alloc, words, source, host, Blank::new(1))
}

/// Runs the words on a host. The counter is made from a blank page.
fn run_counted<L: Ledger, H: Host>(
    alloc: Global,
    words: &[String],
    source: &mut RealSource<OsInput>,
    host: &mut H,
    blank: Blank,
) -> Status
    requires name { blank.name ≡ L.name }
    requires parts { blank.parts ≡ L.parts }
    requires some { 0 < L.parts }
{
    let mut steps = Steps::<L>::new(blank);
    kishu(alloc, words, source, host, &mut steps)
}

/// Tells on standard error how a run ended that didn't answer everything. Where there is no memory
/// for the text, or where it can't be written, nothing is told.
fn tell(rt: &HostRuntime, status: &Status) {
    if matches!(status, Status::Done) {
        return;
    }
    if let Ok(text) = status.text(rt.alloc()) {
        let _ = eprintln!(rt; "{text}");
    }
}
