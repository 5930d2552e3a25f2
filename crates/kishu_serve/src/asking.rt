// What a run is asked: requests, one after another.
ghost use Rattle.std.specs.Prelude.{◌≡◌, ◌<◌, ◌≤◌, ◌^◌, length, true, false, None, Ok, IfOk, IfSome, IsErrOf, option_map, unwrap_or};
ghost use Rattle.kishu_model.specs.Request.{unreadable};
ghost use Rattle.kishu_model.specs.requests.Cells.{HasRoom};
ghost use Rattle.kishu_model.specs.Task.{cell_request, line_request};
ghost use Rattle.kishu_model.specs.Values.{request_of};
ghost use Rattle.kishu_input.specs.Sources.{InputFailed};
ghost use Rattle.kishu_input.specs.Telling.{KeepsCount};
ghost use Rattle.kishu_serve.specs.Asking.{asked_of, reads_lines, turns_left, HaveRoom, IsNext, IsAtEnd, IsAtLimit, KeepsTaken, IsNextOfLines, IsAtEndOfLines, IsAtLimitOfLines};
ghost use Rattle.kishu_input.specs.declared.whole.InputStop.TheVariants.{Fault, TooLong};

use kishu_host::Source;
use kishu_input::{InputStop, LineReader};
use kishu_lines::read_request;
use kishu_model::Request;
use std::alloc::{AllocError, Global};
use std::mem::replace;
use std::rc::RcStr;

/// What a session is asked.
#[derive(Drop)]
pub(crate) enum Asked {
    Request(Request),
    /// What came has no reading as a request.
    Unreadable,
}

impl Asked {
    fn of(found: Option<Request>) -> Asked
        ensures { asked_of result ≡ unwrap_or (option_map request_of found) unreadable }
    {
        match found {
            Some(request) => Asked::Request(request),
            None => Asked::Unreadable,
        }
    }

    /// What a line asks for.
    fn of_line(alloc: Global, line: &[u8]) -> Result<Asked, AllocError>
        ensures asked { IfOk result (λ asked. asked_of asked ≡ line_request line.now) }
        ensures room { length line.now < 2 ^ 24 → IfOk result (λ asked. HasRoom (asked_of asked)) }
    {
        Ok(Asked::of(read_request(alloc, line)?))
    }

    /// What an input that is one cell asks for: it is a cell's text where it is UTF-8.
    pub(crate) fn of_input(alloc: Global, input: &[u8]) -> Result<Asked, AllocError>
        ensures asked { IfOk result (λ asked. asked_of asked ≡ cell_request input.now) }
        ensures room { IfOk result (λ asked. HasRoom (asked_of asked)) }
    {
        match std::str::from_utf8(input) {
            Ok(text) => Ok(Asked::Request(Request::Cell {
                text: RcStr::from_str(alloc, text)?,
            })),
            Err(_) => Ok(Asked::Unreadable),
        }
    }
}

/// The requests of a run that are to come.
#[derive(Drop)]
pub(crate) enum Requests {
    /// None.
    Done,
    One(Asked),
    /// Those that the lines of an input are.
    Lines(LineReader),
}

/// The next request that a line is.
fn next_in<S: Source>(
    alloc: Global,
    reader: &mut LineReader,
    source: &mut S,
) -> Result<Option<Asked>, InputStop>
    ensures next { IfOk result (λ found. IfSome found (λ asked.
        IsNextOfLines reader.old (S.source source.old) reader.new (S.source source.new) (asked_of asked))) }
    ensures room { IfOk result (λ found. IfSome found (λ asked. HasRoom (asked_of asked))) }
    ensures end { result ≡ Ok None → IsAtEndOfLines reader.old (S.source source.old) (S.source source.new) }
    ensures too_long { IsErrOf result TooLong → IsAtLimitOfLines reader.old (S.source source.old) }
    ensures taken { KeepsCount reader.old (S.source source.old) reader.new (S.source source.new) }
    ensures further { IfOk result (λ found. IfSome found (λ asked. reader.old.before < reader.new.before)) }
    ensures tells { (S.source source.new).tells ≡ (S.source source.old).tells }
    ensures fault { IsErrOf result Fault → InputFailed (S.source source.old) (S.source source.new) }
    ensures faults { (S.source source.old).in_faults ≤ (S.source source.new).in_faults }
{
    let Some(line) = reader.next(source)? else {
        return Ok(None);
    };
    match Asked::of_line(alloc, &line) {
        Ok(asked) => Ok(Some(asked)),
        Err(AllocError) => Err(InputStop::NoMemory),
    }
}

impl Requests {
    /// The next request, if one is to come.
    pub(crate) fn next<S: Source>(
        &mut self,
        alloc: Global,
        source: &mut S,
    ) -> Result<Option<Asked>, InputStop>
        requires room { HaveRoom self.old }
        ensures next { IfOk result (λ found. IfSome found (λ asked.
            IsNext self.old (S.source source.old) self.new (S.source source.new) (asked_of asked))) }
        ensures end { result ≡ Ok None → IsAtEnd self.old (S.source source.old) (S.source source.new) }
        ensures too_long { IsErrOf result TooLong
            → (reads_lines self.old ≡ true) × IsAtLimit self.old (S.source source.old) }

        ensures room { HaveRoom self.new }
        ensures asked_room { IfOk result (λ found. IfSome found (λ asked. HasRoom (asked_of asked))) }
        ensures lines { reads_lines self.new ≡ reads_lines self.old }
        ensures one_more { IfOk result (λ found. IfSome found (λ asked.
            turns_left self.new < turns_left self.old)) }
        ensures alone { reads_lines self.old ≡ false → source.new ≡ source.old }
        ensures taken { KeepsTaken self.old (S.source source.old) self.new (S.source source.new) }

        ensures tells { (S.source source.new).tells ≡ (S.source source.old).tells }
        ensures fault { IsErrOf result Fault
            → (reads_lines self.old ≡ true) × InputFailed (S.source source.old) (S.source source.new) }
        ensures faults { (S.source source.old).in_faults ≤ (S.source source.new).in_faults }
    {
        if let Requests::Lines(reader) = self {
            return next_in(alloc, reader, source);
        }
        match replace(self, Requests::Done) {
            Requests::One(asked) => Ok(Some(asked)),
            _ => Ok(None),
        }
    }
}
