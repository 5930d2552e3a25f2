// Lines, brackets and indentation.
ghost use Rattle.std.specs.Prelude.{◌≡◌, ◌<◌, ◌+◌, ◌^◌, ◌++◌, true, length, reverse, replicate, OnOk, IfOk};
ghost use Rattle.std.specs.Str.{bytes_eq};
ghost use Rattle.std.specs.List.{list_all};
ghost use Rattle.kishu_language.specs.tokens.Names.{is_word_char};
ghost use Rattle.kishu_language.specs.tokens.Layout as spec;
ghost use Rattle.kishu_language.specs.tokens.Tokens.{kind_of};
ghost use Rattle.kishu_lexer.specs.Views.{seen};
ghost use Rattle.kishu_lexer.specs.Machine.{state_of, tokens_of, Gives, Answers, IsWhole};

use crate::blanks::Blanks;
use crate::fault::SyntaxFault;
use crate::lines::text_of;
use crate::marks::reserved_mark;
use crate::pieces::Lexeme;
use kishu_language::{Mark, Token, TokenKind};
use std::alloc::{AllocError, Global};
use std::mem;
use std::rc::RcStr;

/// What of a line was met.
#[derive(Drop)]
pub(crate) enum Start {
    Fresh,
    /// Its leading blanks alone, with their line and their places.
    Led {
        blanks: Blanks,
        line: u32,
        start: u32,
        end: u32,
    },
    Inside,
}

/// What is known between two pieces.
#[derive(Drop)]
pub(crate) struct Lexer {
    alloc: Global,
    out: Vec<Token>,
    /// The brackets that are open, the innermost last, each with its line.
    brackets: Vec<(Mark, u32)>,
    /// The indentations but for the empty one, the longest last.
    indents: Vec<Blanks>,
    begun: Start,
}

fn same_text(a: &[char], b: &[char]) -> bool
    ensures { result ≡ bytes_eq a.now b.now }
{
    a == b
}

fn is_opening(mark: Mark) -> bool
    ensures { result ≡ spec.is_opening mark }
{
    mark == Mark::LeftParenthesis || mark == Mark::LeftBracket || mark == Mark::LeftBrace
}

fn is_closing(mark: Mark) -> bool
    ensures { result ≡ spec.is_closing mark }
{
    mark == Mark::RightParenthesis || mark == Mark::RightBracket || mark == Mark::RightBrace
}

fn closes(opened: Mark, mark: Mark) -> bool
    ensures { result ≡ spec.closes opened mark }
{
    (opened == Mark::LeftParenthesis && mark == Mark::RightParenthesis)
        || (opened == Mark::LeftBracket && mark == Mark::RightBracket)
        || (opened == Mark::LeftBrace && mark == Mark::RightBrace)
}

fn word_kind(alloc: Global, letters: &[char]) -> Result<TokenKind, AllocError>
    requires { list_all is_word_char letters.now ≡ true }
    ensures { IfOk result (λ k. kind_of k ≡ spec.word_kind letters.now) }
{
    let word = text_of(alloc, letters)?;
    match reserved_mark(word.as_bytes()) {
        Some(mark) => Ok(TokenKind::Mark(mark)),
        None => Ok(TokenKind::Name(RcStr::from_str(alloc, word.as_str())?)),
    }
}

impl Lexer {
    pub(crate) fn new(alloc: Global) -> Lexer
        ensures { state_of result ≡ spec.empty }
    {
        Lexer {
            alloc,
            out: Vec::new(alloc),
            brackets: Vec::new(alloc),
            indents: Vec::new(alloc),
            begun: Start::Fresh,
        }
    }

    fn emit(&mut self, kind: TokenKind, line: u32, start: u32, end: u32) -> Result<(), AllocError>
        ensures { OnOk result (state_of self.new ≡ spec.emit (spec.token (kind_of kind) line start end) (state_of self.old)) }
    {
        self.out.push(Token {
            kind,
            line,
            start,
            end,
        })?;
        Ok(())
    }

    fn open_bracket(&mut self, mark: Mark, line: u32) -> Result<(), AllocError>
        ensures { OnOk result (state_of self.new ≡ spec.opened mark line (state_of self.old)) }
    {
        self.brackets.push((mark, line))?;
        Ok(())
    }

    #[tactic(auto, unfolding(kishu_language::specs::tokens::Layout::bracket))]
    fn bracket(&mut self, mark: Mark, line: u32) -> Result<(), SyntaxFault>
        ensures { Gives (spec.bracket mark line (state_of self.old)) result (state_of self.new) }
    {
        if is_opening(mark) {
            return Ok(self.open_bracket(mark, line)?);
        }
        if !is_closing(mark) {
            return Ok(());
        }
        match self.brackets.pop() {
            Some((opened, _)) if closes(opened, mark) => Ok(()),
            _ => Err(SyntaxFault::Syntax { line }),
        }
    }

    fn top(&self) -> &[char]
        ensures { result.now ≡ spec.top (reverse self.now.indents.items) }
    {
        match self.indents.as_slice().last() {
            Some(blanks) => blanks.as_slice(),
            None => &[],
        }
    }

    fn dedent(&mut self, blanks: &[char], line: u32, place: u32) -> Result<(), SyntaxFault>
        ensures { Gives (spec.dedented (state_of self.old) (spec.dedents blanks.now line place (reverse self.old.indents.items) (tokens_of self.old.out.items))) result (state_of self.new) }
    {
        for _turn in 0..self.indents.len() {
            if same_text(blanks, self.top()) {
                return Ok(());
            }
            self.indents.pop();
            self.emit(TokenKind::Dedent, line, place, place)?;
        }
        if blanks.is_empty() {
            Ok(())
        } else {
            Err(SyntaxFault::Syntax { line })
        }
    }

    fn deeper(&mut self, blanks: &[char], line: u32, start: u32, end: u32) -> Result<(), AllocError>
        ensures { OnOk result (state_of self.new ≡ spec.deeper blanks.now line start end (state_of self.old)) }
    {
        let kept = Blanks::from_slice(self.alloc, blanks)?;
        self.indents.push(kept)?;
        self.emit(TokenKind::Indent, line, start, end)
    }

    #[tactic(auto, unfolding(kishu_language::specs::tokens::Layout::indented))]
    fn indented(
        &mut self,
        blanks: &[char],
        line: u32,
        start: u32,
        end: u32,
    ) -> Result<(), SyntaxFault>
        ensures { Gives (spec.indented blanks.now line start end (state_of self.old)) result (state_of self.new) }
    {
        if same_text(blanks, self.top()) {
            return Ok(());
        }
        if blanks.starts_with(self.top()) {
            return Ok(self.deeper(blanks, line, start, end)?);
        }
        self.dedent(blanks, line, end)
    }

    // Before the first token of a line; without leading blanks it is on this line at this place.
    #[tactic(auto, unfolding(kishu_language::specs::tokens::Layout::begin))]
    fn begin(&mut self, line: u32, place: u32) -> Result<(), SyntaxFault>
        ensures { Gives (spec.begin line place (state_of self.old)) result (state_of self.new) }
    {
        match mem::replace(&mut self.begun, Start::Inside) {
            Start::Inside => Ok(()),
            Start::Fresh => self.indented(&[], line, place, place),
            Start::Led {
                blanks,
                line: row,
                start,
                end,
            } => self.indented(blanks.as_slice(), row, start, end),
        }
    }

    fn blank(&mut self, blanks: &[char], line: u32, start: u32, end: u32) -> Result<(), AllocError>
        ensures { OnOk result (state_of self.new ≡ spec.blank_at (state_of self.old).begun blanks.now line start end (state_of self.old)) }
    {
        if let Start::Fresh = self.begun {
            self.begun = Start::Led {
                blanks: Blanks::from_slice(self.alloc, blanks)?,
                line,
                start,
                end,
            };
        }
        Ok(())
    }

    fn feed(&mut self, line: u32, start: u32, end: u32) -> Result<(), AllocError>
        ensures { OnOk result (state_of self.new ≡ spec.feed_at (state_of self.old).begun line start end (state_of self.old)) }
    {
        match self.begun {
            Start::Inside => {
                if self.brackets.is_empty() {
                    self.begun = Start::Fresh;
                    self.emit(TokenKind::Newline, line, start, end)?;
                }
            }
            Start::Fresh => {}
            Start::Led { .. } => self.begun = Start::Fresh,
        }
        Ok(())
    }

    fn plain(&mut self, kind: TokenKind, line: u32, start: u32, end: u32) -> Result<(), SyntaxFault>
        ensures { Gives (spec.plain (kind_of kind) line start end (state_of self.old)) result (state_of self.new) }
    {
        self.begin(line, start)?;
        Ok(self.emit(kind, line, start, end)?)
    }

    fn marked(&mut self, mark: Mark, line: u32, start: u32, end: u32) -> Result<(), SyntaxFault>
        ensures { Gives (spec.marked mark line start end (state_of self.old)) result (state_of self.new) }
    {
        self.begin(line, start)?;
        self.bracket(mark, line)?;
        Ok(self.emit(TokenKind::Mark(mark), line, start, end)?)
    }

    // A fault on this line. The indentation before it comes first in the text.
    fn wrong(&mut self, fault: u32, line: u32, start: u32) -> Result<(), SyntaxFault>
        ensures { Gives (spec.wrong fault line start (state_of self.old)) result (state_of self.new) }
    {
        self.begin(line, start)?;
        Err(SyntaxFault::Syntax { line: fault })
    }

    /// Takes a piece that begins on this line and stands at these places.
    #[tactic(auto, unfolding(kishu_language::specs::tokens::Layout::step))]
    pub(crate) fn step(
        &mut self,
        lexeme: Lexeme<'_>,
        line: u32,
        start: u32,
        end: u32,
    ) -> Result<(), SyntaxFault>
        requires { IsWhole (seen lexeme) line }
        ensures { Gives (spec.step (seen lexeme.entry) line start end (state_of self.old)) result (state_of self.new) }
    {
        match lexeme {
            Lexeme::Blank(blanks) => Ok(self.blank(blanks, line, start, end)?),
            Lexeme::Comment => Ok(()),
            Lexeme::BadComment => Err(SyntaxFault::Syntax { line }),
            Lexeme::Joined => Ok(self.blank(&[], line, start, start)?),
            Lexeme::Feed => Ok(self.feed(line, start, end)?),
            Lexeme::Word(letters) => {
                let kind = word_kind(self.alloc, letters)?;
                self.plain(kind, line, start, end)
            }
            Lexeme::Number(value) => self.plain(TokenKind::Number(value), line, start, end),
            Lexeme::Text(value) => {
                let kind = TokenKind::Text(RcStr::from_str(self.alloc, value.as_str())?);
                self.plain(kind, line, start, end)
            }
            Lexeme::Sign(mark) => self.marked(mark, line, start, end),
            Lexeme::Bad(below) => self.wrong(line + below as u32, line, start),
        }
    }

    fn ended(&mut self, line: u32, place: u32) -> Result<(), AllocError>
        ensures { OnOk result (state_of self.new ≡ spec.ended (state_of self.old).begun (line, place) (state_of self.old)) }
    {
        match self.begun {
            Start::Inside => self.emit(TokenKind::Newline, line, place, place),
            Start::Fresh => Ok(()),
            Start::Led { .. } => Ok(()),
        }
    }

    /// The tokens, where the text ends on this line at this place.
    pub(crate) fn finish(mut self, line: u32, place: u32) -> Result<Vec<Token>, SyntaxFault>
        ensures { Answers (spec.finish (state_of self).brackets (line, place) (state_of self)) result (λ v. v.items) }
    {
        if let Some((_, opened)) = self.brackets.pop() {
            return Err(SyntaxFault::Syntax { line: opened });
        }
        self.ended(line, place)?;
        let count = self.indents.len();
        let Lexer { out, .. } = self;
        Ok(with_dedents(out, count, line, place)?)
    }
}

fn with_dedents(
    mut out: Vec<Token>,
    count: usize,
    line: u32,
    place: u32,
) -> Result<Vec<Token>, AllocError>
    ensures { IfOk result (λ v. tokens_of v.items ≡ tokens_of out.items ++ replicate count (spec.token spec.dedent line place place)) }
{
    for _turn in 0..count {
        out.push(Token {
            kind: TokenKind::Dedent,
            line,
            start: place,
            end: place,
        })?;
    }
    Ok(out)
}
