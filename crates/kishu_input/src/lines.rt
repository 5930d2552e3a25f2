// An input that is read line by line.
ghost use Rattle.std.specs.Prelude.{◌≡◌, ◌≢◌, ◌≤◌, ◌<◌, ◌+◌, ◌^◌, ◌++◌, [], length, true, false, None, Ok, Err, IfOk, IfSome, IsErrOf, OnOk, OnErr, vec_len};
ghost use Rattle.kishu_input.specs.Sources.{InputFailed};
ghost use Rattle.kishu_input.specs.declared.whole.InputStop.TheVariants.{Fault, TooLong};

use crate::InputStop;
use kishu_host::Source;
use std::alloc::Global;

const LINE_FEED: u8 = b'\n';

/// So many bytes are taken at once.
const AT_ONCE: usize = 4096;

/// No line has as many bytes before its line feed.
const LINE_LIMIT: usize = 1 << 24;

/// No input has as many bytes.
const INPUT_LIMIT: usize = 1 << 30;

/// Tells the lines of an input, one after another.
#[derive(Drop)]
pub struct LineReader {
    alloc: Global,
    /// What was taken of the source last. From `at` on it wasn't told yet.
    taken: Vec<u8>,
    at: usize,
    /// How many bytes were told, line feeds among them.
    before: usize,
    ghost within: { at ≤ vec_len taken },
    ghost few: { vec_len taken ≤ 4096 },
    ghost below: { before < 2 ^ 30 },
}

impl LineReader {
    ghost use Rattle.kishu_input.specs.Lines.{ahead};
    ghost use Rattle.kishu_input.specs.Telling.{IsNextLine, IsAtEnd, IsAtLimit, bytes_taken, KeepsCount, KeepsBytes, IsTaken, IsUsedUp, TakesSome, LineGoesOn, LineEnds, LineStops};

    /// A reader that has read nothing.
    pub fn new(alloc: Global) -> LineReader
        ensures ahead { ahead result ≡ [] }
        ensures before { result.before ≡ 0 }
    {
        LineReader {
            alloc,
            taken: Vec::new(alloc),
            at: 0,
            before: 0,
        }
    }

    /// The next line, without its line feed. A last rest without one is a line where it isn't empty.
    /// `None` says that the input is at its end.
    ///
    /// After an error what the reader tells isn't said.
    ///
    /// - `Fault`: the source failed.
    /// - `TooLong`: a line reaches 2^24 bytes before its line feed, or the input reaches 2^30 bytes.
    /// - `NoMemory`: there was no memory.
    pub fn next<S: Source>(&mut self, source: &mut S) -> Result<Option<Vec<u8>>, InputStop>
        // The line is the first of those that are to come, and a limit stays where it is.
        ensures line { IfOk result (λ found. IfSome found (λ line.
            IsNextLine self.old (S.source source.old) self.new (S.source source.new) line.items)) }

        ensures short { IfOk result (λ found. IfSome found (λ line. length line.items < 2 ^ 24)) }

        // At the end no line is to come, no limit was reached, and nothing is left.
        ensures end { result ≡ Ok None → IsAtEnd self.old (S.source source.old) (S.source source.new) }

        // A limit is told once the lines before it were.
        ensures too_long { IsErrOf result TooLong → IsAtLimit self.old (S.source source.old) }

        // Each byte that was taken is told or ahead, and with each line the reader comes further.
        ensures taken { KeepsCount self.old (S.source source.old) self.new (S.source source.new) }
        ensures further { IfOk result (λ found. IfSome found (λ line. self.old.before < self.new.before)) }

        ensures tells { (S.source source.new).tells ≡ (S.source source.old).tells }
        ensures fault { IsErrOf result Fault → InputFailed (S.source source.old) (S.source source.new) }
        ensures faults { (S.source source.old).in_faults ≤ (S.source source.new).in_faults }
    {
        let mut line = Vec::new(self.alloc);
        while self.has_more(source)? {
            if self.read_on(&mut line)? {
                return Ok(Some(line));
            }
        }
        if line.is_empty() {
            return Ok(None);
        }
        Ok(Some(line))
    }

    /// Takes more where all was told, and answers whether something is ahead then.
    ///
    /// - `Fault`: the source failed.
    /// - `NoMemory`: there was no memory.
    fn has_more<S: Source>(&mut self, source: &mut S) -> Result<bool, InputStop>
        ensures left { KeepsBytes self.old (S.source source.old) self.new (S.source source.new) }
        ensures before { self.new.before ≡ self.old.before }
        ensures some { IfOk result (λ some. some ≡ true → self.new.at < vec_len self.new.taken) }
        ensures end { result ≡ Ok false → IsUsedUp (S.source source.old) self.new (S.source source.new) }
        ensures cause { result ≢ Err TooLong }
        ensures tells { (S.source source.new).tells ≡ (S.source source.old).tells }
        ensures fault { IsErrOf result Fault → InputFailed (S.source source.old) (S.source source.new) }
        ensures faults { (S.source source.old).in_faults ≤ (S.source source.new).in_faults }
    {
        if self.at < self.taken.len() {
            return Ok(true);
        }
        self.refill(source)?;
        Ok(!self.taken.is_empty())
    }

    /// Takes up to 4,096 bytes. All that was taken before was told.
    ///
    /// - `Fault`: the source failed.
    /// - `NoMemory`: there was no memory.
    fn refill<S: Source>(&mut self, source: &mut S) -> Result<(), InputStop>
        requires { self.old.at ≡ vec_len self.old.taken }
        ensures left { IsTaken (S.source source.old) self.new (S.source source.new) }
        ensures end { OnOk result (TakesSome (S.source source.old) self.new (S.source source.new)) }
        ensures at { self.new.at ≡ 0 }
        ensures before { self.new.before ≡ self.old.before }
        ensures cause { result ≢ Err TooLong }
        ensures tells { (S.source source.new).tells ≡ (S.source source.old).tells }
        ensures fault { IsErrOf result Fault → InputFailed (S.source source.old) (S.source source.new) }
        ensures faults { (S.source source.old).in_faults ≤ (S.source source.new).in_faults }
    {
        self.at = 0;
        self.taken.clear();
        let Ok(()) = self.taken.resize(AT_ONCE, 0) else {
            return Err(InputStop::NoMemory);
        };
        let Ok(n) = source.take(&mut self.taken) else {
            self.taken.clear();
            return Err(InputStop::Fault);
        };
        self.taken.truncate(n);
        Ok(())
    }

    /// Reads on in what was taken, and answers whether the line came to its end.
    ///
    /// - `TooLong`: a limit was reached.
    /// - `NoMemory`: there was no memory.
    fn read_on(&mut self, line: &mut Vec<u8>) -> Result<bool, InputStop>
        requires { self.old.at < vec_len self.old.taken }
        ensures goes_on { result ≡ Ok false → LineGoesOn self.old line.old.items self.new line.new.items }
        ensures ends { result ≡ Ok true → LineEnds self.old line.old.items self.new line.new.items }
        ensures too_long { IsErrOf result TooLong → LineStops self.old line.old.items }
        ensures cause { result ≢ Err Fault }
        ensures short { vec_len line.old < 2 ^ 24 → vec_len line.new < 2 ^ 24 }
        ensures counted { result ≡ Ok false
            → self.new.before + vec_len line.old ≡ self.old.before + vec_len line.new }
        ensures further { IfOk result (λ _. self.old.before < self.new.before) }
        ensures taken { bytes_taken self.new ≡ bytes_taken self.old }
    {
        while self.at < self.taken.len() {
            let byte = self.taken[self.at];
            if self.before + 1 >= INPUT_LIMIT {
                return Err(InputStop::TooLong);
            }
            if byte == LINE_FEED {
                self.at += 1;
                self.before += 1;
                return Ok(true);
            }
            if line.len() + 1 >= LINE_LIMIT {
                return Err(InputStop::TooLong);
            }
            let Ok(()) = line.push(byte) else {
                return Err(InputStop::NoMemory);
            };
            self.at += 1;
            self.before += 1;
        }
        Ok(false)
    }
}
