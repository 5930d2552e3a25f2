// A place among the tokens of a text, and the single tokens there.
ghost use Rattle.std.specs.Prelude.{◌≡◌, length, is_some};
ghost use Rattle.kishu_language.specs.tokens.Layout.{same};
ghost use Rattle.std.specs.Rc.{rc_str_bytes};
ghost use Rattle.kishu_language.specs.reading.Reader as reader;
ghost use Rattle.std.specs.Option.{option_map};
ghost use Rattle.kishu_language.specs.tokens.Tokens.{kind_of};
ghost use Rattle.kishu_parser.specs.Views.{left, front, next_mark, by_table, Gives, nothing};

use kishu_language::{Mark, Token, TokenKind};
use std::alloc::{AllocError, Global};
use std::rc::RcStr;

/// Why nothing is read.
#[derive(Debug, Drop)]
pub(crate) enum Stop {
    /// The tokens don't begin with what is wanted.
    Refused,
    NoMemory,
}

impl From<AllocError> for Stop {
    ghost use Rattle.std.specs.Prelude.{◌≡◌};
    ghost use Rattle.kishu_parser.specs.declared.cursor.Stop.TheVariants.{NoMemory};

    ghost from_gives = { λ _ stop. stop ≡ NoMemory };

    fn from(_fault: AllocError) -> Stop {
        Stop::NoMemory
    }
}

/// A text with plain line ends and its tokens. A place among them is the number of tokens before it.
#[derive(Drop)]
pub(crate) struct Parser<'a> {
    pub(crate) alloc: Global,
    pub(crate) source: &'a str,
    pub(crate) tokens: &'a [Token],
}

fn is_mark(found: Option<Mark>, mark: Mark) -> bool
    ensures { result ≡ is_some (by_table (λ k. reader.where_so (same k mark)) found) }
{
    match found {
        Some(found) => found == mark,
        None => false,
    }
}

impl<'a> Parser<'a> {
    /// How many tokens are left.
    #[tactic(auto, using(crate::proofs::Fronts::left_count))]
    pub(crate) fn left(&self, at: usize) -> usize
        ensures { result ≡ length (left self.now.tokens.now at) }
    {
        self.tokens.len().saturating_sub(at)
    }

    /// Goes past a token, if there is one.
    #[tactic(auto, using(crate::proofs::Fronts::rest_left, crate::proofs::Fronts::no_rest))]
    pub(crate) fn skip(&self, at: &mut usize)
        ensures { left self.now.tokens.now at.new ≡ reader.rest (left self.now.tokens.now at.old) }
    {
        if *at < self.tokens.len() {
            *at += 1;
        }
    }

    /// What the token at the place is.
    pub(crate) fn kind(&self, at: usize) -> Option<&TokenKind>
        ensures { option_map (λ k. kind_of k.now) result ≡ front (left self.now.tokens.now at) }
    {
        match self.tokens.get(at) {
            Some(token) => Some(&token.kind),
            None => None,
        }
    }

    /// The mark at the place.
    #[tactic(auto, using(crate::proofs::Fronts::mark_front))]
    pub(crate) fn mark(&self, at: usize) -> Option<Mark>
        ensures { result ≡ next_mark (left self.now.tokens.now at) }
    {
        match self.kind(at) {
            Some(TokenKind::Mark(mark)) => Some(*mark),
            _ => None,
        }
    }

    pub(crate) fn sees(&self, at: usize, mark: Mark) -> bool
        ensures { result ≡ reader.sees mark (left self.now.tokens.now at) }
    {
        is_mark(self.mark(at), mark)
    }

    #[tactic(auto, using(crate::proofs::Fronts::taken, crate::proofs::Fronts::missing))]
    pub(crate) fn expect(&self, at: &mut usize, mark: Mark) -> Result<(), Stop>
        ensures { Gives nothing (reader.mark mark (left self.now.tokens.now at.old)) result (left self.now.tokens.now at.new) }
    {
        if !self.sees(*at, mark) {
            return Err(Stop::Refused);
        }
        self.skip(at);
        Ok(())
    }

    #[tactic(auto, using(crate::proofs::Fronts::next_front))]
    pub(crate) fn sees_name(&self, at: usize) -> bool
        ensures { result ≡ reader.sees_some reader.a_name (left self.now.tokens.now at) }
    {
        matches!(self.kind(at), Some(TokenKind::Name(_)))
    }

    #[tactic(auto, using(crate::proofs::Fronts::next_front))]
    pub(crate) fn sees_integer(&self, at: usize) -> bool
        ensures { result ≡ reader.sees_some reader.an_integer (left self.now.tokens.now at) }
    {
        matches!(self.kind(at), Some(TokenKind::Number(_)))
    }

    #[tactic(auto, using(crate::proofs::Fronts::next_front))]
    pub(crate) fn sees_text(&self, at: usize) -> bool
        ensures { result ≡ reader.sees_some reader.a_text (left self.now.tokens.now at) }
    {
        matches!(self.kind(at), Some(TokenKind::Text(_)))
    }

    #[tactic(auto, using(crate::proofs::Fronts::next_front))]
    pub(crate) fn sees_newline(&self, at: usize) -> bool
        ensures { result ≡ reader.sees_some reader.is_newline (left self.now.tokens.now at) }
    {
        matches!(self.kind(at), Some(TokenKind::Newline))
    }

    #[tactic(auto, using(crate::proofs::Fronts::next_front))]
    fn sees_indent(&self, at: usize) -> bool
        ensures { result ≡ reader.sees_some reader.is_indent (left self.now.tokens.now at) }
    {
        matches!(self.kind(at), Some(TokenKind::Indent))
    }

    #[tactic(auto, using(crate::proofs::Fronts::next_front))]
    pub(crate) fn sees_dedent(&self, at: usize) -> bool
        ensures { result ≡ reader.sees_some reader.is_dedent (left self.now.tokens.now at) }
    {
        matches!(self.kind(at), Some(TokenKind::Dedent))
    }

    #[tactic(auto, using(crate::proofs::Fronts::taken, crate::proofs::Fronts::missing))]
    pub(crate) fn newline(&self, at: &mut usize) -> Result<(), Stop>
        ensures { Gives nothing (reader.token reader.is_newline (left self.now.tokens.now at.old)) result (left self.now.tokens.now at.new) }
    {
        if !self.sees_newline(*at) {
            return Err(Stop::Refused);
        }
        self.skip(at);
        Ok(())
    }

    #[tactic(auto, using(crate::proofs::Fronts::taken, crate::proofs::Fronts::missing))]
    pub(crate) fn indent(&self, at: &mut usize) -> Result<(), Stop>
        ensures { Gives nothing (reader.token reader.is_indent (left self.now.tokens.now at.old)) result (left self.now.tokens.now at.new) }
    {
        if !self.sees_indent(*at) {
            return Err(Stop::Refused);
        }
        self.skip(at);
        Ok(())
    }

    #[tactic(auto, using(crate::proofs::Fronts::taken, crate::proofs::Fronts::missing))]
    pub(crate) fn dedent(&self, at: &mut usize) -> Result<(), Stop>
        ensures { Gives nothing (reader.token reader.is_dedent (left self.now.tokens.now at.old)) result (left self.now.tokens.now at.new) }
    {
        if !self.sees_dedent(*at) {
            return Err(Stop::Refused);
        }
        self.skip(at);
        Ok(())
    }

    #[tactic(auto, using(crate::proofs::Fronts::next_front))]
    pub(crate) fn name(&self, at: &mut usize) -> Result<RcStr, Stop>
        ensures { Gives rc_str_bytes (reader.token reader.a_name (left self.now.tokens.now at.old)) result (left self.now.tokens.now at.new) }
    {
        match self.kind(*at) {
            Some(TokenKind::Name(name)) => {
                let name = name.clone()?;
                self.skip(at);
                Ok(name)
            }
            _ => Err(Stop::Refused),
        }
    }

    #[tactic(auto, using(crate::proofs::Fronts::next_front))]
    pub(crate) fn integer(&self, at: &mut usize) -> Result<i128, Stop>
        ensures { Gives (λ z. z) (reader.token reader.an_integer (left self.now.tokens.now at.old)) result (left self.now.tokens.now at.new) }
    {
        match self.kind(*at) {
            Some(TokenKind::Number(n)) => {
                self.skip(at);
                Ok(*n)
            }
            _ => Err(Stop::Refused),
        }
    }

    #[tactic(auto, using(crate::proofs::Fronts::next_front))]
    pub(crate) fn text(&self, at: &mut usize) -> Result<RcStr, Stop>
        ensures { Gives rc_str_bytes (reader.token reader.a_text (left self.now.tokens.now at.old)) result (left self.now.tokens.now at.new) }
    {
        match self.kind(*at) {
            Some(TokenKind::Text(text)) => {
                let text = text.clone()?;
                self.skip(at);
                Ok(text)
            }
            _ => Err(Stop::Refused),
        }
    }

    /// The name that is this word.
    #[tactic(auto, using(crate::proofs::Fronts::next_front))]
    pub(crate) fn word(&self, at: &mut usize, word: &str) -> Result<(), Stop>
        ensures { Gives nothing (reader.token (reader.is_word word.now) (left self.now.tokens.now at.old)) result (left self.now.tokens.now at.new) }
    {
        match self.kind(*at) {
            Some(TokenKind::Name(name)) if name.as_str() == word => {
                self.skip(at);
                Ok(())
            }
            _ => Err(Stop::Refused),
        }
    }
}
