// Functions and their code.
ghost use Rattle.std.specs.Prelude.{◌≡◌, ◌<◌, [], ◌∷◌, IfOk};
ghost use Rattle.std.specs.Rc.{rc_str_bytes};
ghost use Rattle.kishu_language.specs.declared.token.Mark.TheVariants as m;
ghost use Rattle.kishu_language.specs.trees.Tree.{parameter_of, statement_of, definition_of};
ghost use Rattle.kishu_language.specs.trees.Code as code;
ghost use Rattle.kishu_language.specs.tokens.Tokens.{kind_of};
ghost use Rattle.kishu_language.specs.reading.Reader as reader;
ghost use Rattle.kishu_language.specs.reading.ReadExpressions as expressions;
ghost use Rattle.kishu_language.specs.reading.ReadStatements as spec;
ghost use Rattle.kishu_parser.specs.Views.{left, tokens_of, Gives};
ghost use Rattle.kishu_parser.specs.Turns as turns;
ghost use Rattle.kishu_parser.specs.Statements as lines;

use crate::cursor::{Parser, Stop};
use crate::expressions::Phrase;
use crate::mentions::globals_fit;
use crate::pieces::DEEPEST;
use crate::pushes::{defined, push_parameter};
use crate::refusals::parameters_fit;
use crate::simple::Around;
use kishu_language::{Def, Expr, Mark, Stmt, Token, TokenKind};
use std::alloc::{AllocError, Global};
use std::rc::RcStr;

type Parameter = (RcStr, Option<Expr>);

impl Around {
    pub(crate) fn top() -> Around
        ensures { lines.around_of result ≡ lines.top }
    {
        Around {
            in_function: false,
            in_loop: false,
            in_handler: false,
        }
    }

    fn function() -> Around
        ensures { lines.around_of result ≡ lines.in_function }
    {
        Around {
            in_function: true,
            in_loop: false,
            in_handler: false,
        }
    }
}

/// Whether it is the end of a line, or the begin or the end of a block.
fn is_layout(kind: &TokenKind) -> bool
    ensures { result ≡ code.is_layout (kind_of kind.now) }
{
    match kind {
        TokenKind::Newline | TokenKind::Indent | TokenKind::Dedent => true,
        TokenKind::Name(_) | TokenKind::Number(_) | TokenKind::Text(_) | TokenKind::Mark(_) => {
            false
        }
    }
}

/// Where the first token begins.
#[tactic(auto, using(crate::proofs::Codes::first_begins, crate::proofs::Codes::no_first))]
fn begin_of(tokens: &[Token]) -> u32
    ensures { result ≡ code.begin_of (tokens_of tokens.now) }
{
    match tokens {
        [first, ..] => first.start,
        [] => 0,
    }
}

/// Where the last token ends that is no layout.
fn end_of(tokens: &[Token]) -> u32
    ensures { result ≡ code.end_after 0 (tokens_of tokens.now) }
{
    let mut end = 0;
    for token in tokens {
        if !is_layout(&token.kind) {
            end = token.end;
        }
    }
    end
}

/// The code of the function that the tokens spell.
fn code_of(alloc: Global, source: &str, tokens: &[Token]) -> Result<RcStr, AllocError>
    requires { lines.Placed source.now tokens.now }
    ensures { IfOk result (λ x. rc_str_bytes x ≡ code.code_of source.now (tokens_of tokens.now)) }
{
    let begin = begin_of(tokens) as usize;
    let end = end_of(tokens) as usize;
    if end < begin {
        return RcStr::from_str(alloc, "");
    }
    RcStr::from_str(alloc, &source[begin..end])
}

impl<'a> Parser<'a> {
    #[cycle(blocks)]
    #[tactic(auto, unfolding(kishu_language::specs::reading::ReadStatements::define))]
    pub(crate) fn define(&self, at: &mut usize, room: u32, around: Around) -> Result<Stmt, Stop>
        requires room { room < 1000 }
        requires placed { lines.Placed self.now.source.now self.now.tokens.now }
        ensures { Gives statement_of (spec.define self.now.source.now room (spec.chunk self.now.source.now room) (lines.around_of around) (left self.now.tokens.now at.old)) result (left self.now.tokens.now at.new) }
    {
        if around.in_function {
            return Err(Stop::Refused);
        }
        let before = *at;
        let definition = self.definition(at, room)?;
        let code = self.code_between(before, *at)?;
        Ok(defined(self.alloc, definition, code)?)
    }

    /// The function that all the tokens spell, where the text is its code.
    pub(crate) fn whole_function(&self, text: &str) -> Result<Def, Stop>
        requires { lines.Placed self.now.source.now self.now.tokens.now }
        ensures { lines.GivesFunction (spec.define self.now.source.now 60 (spec.chunk self.now.source.now 60) lines.top (tokens_of self.now.tokens.now)) text.now result }
    {
        let mut at = 0;
        let definition = self.definition(&mut at, DEEPEST - 1)?;
        if self.left(at) > 0 {
            return Err(Stop::Refused);
        }
        let code = self.code_between(0, at)?;
        if code.as_str() != text {
            return Err(Stop::Refused);
        }
        Ok(definition)
    }

    /// The code of the function that the tokens from one place to another spell.
    pub(crate) fn code_between(&self, from: usize, to: usize) -> Result<RcStr, AllocError>
        requires { lines.Placed self.now.source.now self.now.tokens.now }
        ensures { IfOk result (λ x. rc_str_bytes x ≡ code.code_of self.now.source.now (lines.between (left self.now.tokens.now from) (left self.now.tokens.now to))) }
    {
        let end = to.min(self.tokens.len());
        let begin = from.min(end);
        code_of(self.alloc, self.source, &self.tokens[begin..end])
    }

    #[cycle(blocks)]
    #[tactic(auto, unfolding(kishu_language::specs::reading::ReadStatements::definition, kishu_language::specs::reading::ReadStatements::parameter))]
    pub(crate) fn definition(&self, at: &mut usize, room: u32) -> Result<Def, Stop>
        requires room { room < 1000 }
        requires placed { lines.Placed self.now.source.now self.now.tokens.now }
        ensures { Gives definition_of (spec.definition self.now.source.now room (spec.chunk self.now.source.now room) (left self.now.tokens.now at.old)) result (left self.now.tokens.now at.new) }
    {
        self.expect(at, Mark::Def)?;
        let name = self.name(at)?;
        self.expect(at, Mark::LeftParenthesis)?;
        let params = self.parameters(at, room)?;
        self.expect(at, Mark::RightParenthesis)?;
        if !parameters_fit(self.alloc, params.as_slice())? {
            return Err(Stop::Refused);
        }
        self.expect(at, Mark::Colon)?;
        let body = self.block(at, room, Around::function())?;
        if !globals_fit(self.alloc, params.as_slice(), body.as_slice())? {
            return Err(Stop::Refused);
        }
        Ok(Def { name, params, body })
    }

    fn parameters(&self, at: &mut usize, room: u32) -> Result<Vec<Parameter>, Stop>
        ensures { Gives lines.parameters_in (expressions.any_listed (lines.parameter room) (left self.now.tokens.now at.old)) result (left self.now.tokens.now at.new) }
    {
        if !self.begins_expr(*at) {
            return Ok(Vec::new(self.alloc));
        }
        let first = self.parameter(at, room)?;
        let all = self.more_parameters(at, room, first)?;
        if self.sees(*at, Mark::Comma) {
            self.expect(at, Mark::Comma)?;
        }
        Ok(all)
    }

    fn more_parameters(
        &self,
        at: &mut usize,
        room: u32,
        first: Parameter,
    ) -> Result<Vec<Parameter>, Stop>
        ensures { Gives lines.parameters_in (reader.turns (expressions.another m.Comma) (turns.more_turn m.Comma (lines.parameter room)) (parameter_of first ∷ []) (left self.now.tokens.now at.old)) result (left self.now.tokens.now at.new) }
    {
        let mut all = Vec::new(self.alloc);
        push_parameter(&mut all, first)?;
        for _turn in 0..self.left(*at) {
            if !self.sees_another(*at, Mark::Comma) {
                return Ok(all);
            }
            self.expect(at, Mark::Comma)?;
            let next = self.parameter(at, room)?;
            push_parameter(&mut all, next)?;
        }
        Ok(all)
    }

    fn parameter(&self, at: &mut usize, room: u32) -> Result<Parameter, Stop>
        ensures { Gives parameter_of (lines.parameter room (left self.now.tokens.now at.old)) result (left self.now.tokens.now at.new) }
    {
        let name = self.name(at)?;
        if !self.sees(*at, Mark::Assign) {
            return Ok((name, None));
        }
        self.expect(at, Mark::Assign)?;
        let default = self.nested(at, room, Phrase::Expr)?;
        Ok((name, Some(default)))
    }
}
