// The top-level pieces of a text.
ghost use Rattle.std.specs.Prelude.{◌≡◌, ◌<◌, ◌+◌, ◌^◌, ◌++◌, [], ◌∷◌, length, map, OnOk};
ghost use Rattle.kishu_language.specs.grammar.Pieces as spec;
ghost use Rattle.kishu_language.specs.reading.ReadText as text;
ghost use Rattle.kishu_parser.specs.Views.{left, tokens_of};
ghost use Rattle.kishu_language.specs.tokens.Tokens.{kind_of};
ghost use Rattle.std.specs.Option.{option_map};
ghost use Rattle.kishu_parser.specs.Statements as lines;
ghost use Rattle.kishu_parser.specs.TopLevel as whole;

use crate::cursor::{Parser, Stop};
use crate::simple::Around;
use kishu_language::{Mark, Stmt, TokenKind};
use kishu_lexer::SyntaxFault;
use std::alloc::AllocError;

/// A statement at the top level, or the statements of one line there (Python Language Reference 3,
/// "File input"), and the line on which it begins, from 1.
#[derive(Drop)]
pub struct Piece {
    pub line: u32,
    pub statements: Vec<Stmt>,
}

/// How many nestings there may be around a point, and the top level.
pub(crate) const DEEPEST: u32 = 61;

fn goes_on(mark: Mark) -> bool
    ensures { result ≡ spec.goes_on mark }
{
    matches!(mark, Mark::Elif | Mark::Else | Mark::Except | Mark::Finally)
}

/// How many blocks are open behind a token, and whether a line or a block ends with it.
fn after(kind: Option<&TokenKind>, blocks: usize) -> (usize, bool)
    requires { blocks + 1 < 2 ^ 64 }
    ensures { result ≡ lines.after_kind (option_map (λ k. kind_of k.now) kind.entry) blocks }
{
    match kind {
        Some(TokenKind::Indent) => (blocks + 1, false),
        Some(TokenKind::Dedent) => (blocks.saturating_sub(1), true),
        Some(TokenKind::Newline) => (blocks, true),
        _ => (blocks, false),
    }
}

fn push_piece(all: &mut Vec<Piece>, next: Piece) -> Result<(), AllocError>
    ensures { OnOk result (all.new.items ≡ all.old.items ++ next ∷ []) }
{
    all.push(next)?;
    Ok(())
}

impl<'a> Parser<'a> {
    #[tactic(auto, using(crate::proofs::Fronts::starts_is))]
    fn starts_piece(&self, at: usize) -> bool
        ensures { result ≡ spec.starts_piece (left self.now.tokens.now at) }
    {
        match self.kind(at) {
            Some(TokenKind::Indent) => false,
            Some(TokenKind::Mark(mark)) => !goes_on(*mark),
            _ => true,
        }
    }

    /// The place behind the piece that begins here.
    fn next_piece(&self, at: usize) -> usize
        ensures { left self.now.tokens.now result ≡ spec.next_piece (left self.now.tokens.now at) }
    {
        let mut blocks = 0;
        let mut next = at;
        for _turn in 0..self.left(at) {
            let (open, ends) = after(self.kind(next), blocks);
            self.skip(&mut next);
            if ends && open == 0 && self.starts_piece(next) {
                return next;
            }
            blocks = open;
        }
        next
    }

    /// The piece that begins at one place and ends at another.
    fn piece(&self, at: usize, next: usize) -> Result<Vec<Stmt>, Stop>
        requires placed { lines.Placed self.now.source.now self.now.tokens.now }
        requires end { left self.now.tokens.now next ≡ spec.next_piece (left self.now.tokens.now at) }
        ensures { lines.GivesPiece (text.piece self.now.source.now (left self.now.tokens.now at)) result }
    {
        let mut end = at;
        let found = self.chunk(&mut end, DEEPEST, Around::top())?;
        if self.left(end) == self.left(next) {
            Ok(found)
        } else {
            Err(Stop::Refused)
        }
    }

    /// The same, with the line on which the piece begins where it is none.
    fn piece_or_line(&self, at: usize, next: usize) -> Result<Vec<Stmt>, SyntaxFault>
        requires placed { lines.Placed self.now.source.now self.now.tokens.now }
        requires end { left self.now.tokens.now next ≡ spec.next_piece (left self.now.tokens.now at) }
        ensures { lines.AnswersPiece (text.piece self.now.source.now (left self.now.tokens.now at)) (spec.first_line (left self.now.tokens.now at)) result }
    {
        match self.piece(at, next) {
            Ok(found) => Ok(found),
            Err(Stop::Refused) => Err(SyntaxFault::Syntax {
                line: self.line_at(at),
            }),
            Err(Stop::NoMemory) => Err(SyntaxFault::NoMemory),
        }
    }

    fn line_at(&self, at: usize) -> u32
        ensures { result ≡ spec.first_line (left self.now.tokens.now at) }
    {
        match self.tokens.get(at) {
            Some(token) => token.line,
            None => 0,
        }
    }

    /// All the pieces, or the line on which the first begins that is no chunk.
    pub(crate) fn lined_pieces(&self) -> Result<Vec<Piece>, SyntaxFault>
        requires { lines.Placed self.now.source.now self.now.tokens.now }
        ensures { lines.Answers (λ v. map whole.piece_of v.items) (whole.lined self.now.source.now (length (tokens_of self.now.tokens.now)) [] (tokens_of self.now.tokens.now)) result }
    {
        let mut all = Vec::new(self.alloc);
        let mut at = 0;
        for _turn in 0..self.left(0) {
            if self.left(at) == 0 {
                return Ok(all);
            }
            let next = self.next_piece(at);
            let statements = self.piece_or_line(at, next)?;
            let line = self.line_at(at);
            push_piece(&mut all, Piece { line, statements })?;
            at = next;
        }
        Ok(all)
    }
}
