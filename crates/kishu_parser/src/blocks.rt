// Compound statements and their blocks.
ghost use Rattle.std.specs.Prelude.{◌≡◌, ◌<◌, ◌+◌, [], ◌∷◌};
ghost use Rattle.kishu_language.specs.declared.token.Mark.TheVariants as m;
ghost use Rattle.kishu_language.specs.trees.Tree.{expression_of, statement_of};
ghost use Rattle.kishu_language.specs.reading.Reader as reader;
ghost use Rattle.kishu_language.specs.reading.ReadExpressions as expressions;
ghost use Rattle.kishu_language.specs.reading.ReadStatements as spec;
ghost use Rattle.kishu_parser.specs.Views.{left, Gives};
ghost use Rattle.kishu_parser.specs.Turns as turns;
ghost use Rattle.kishu_parser.specs.Statements as lines;
ghost use Rattle.kishu_language.specs.trees.Parts as tree_parts;

use crate::cursor::{Parser, Stop};
use crate::expressions::Phrase;
use crate::joins::alone;
use crate::pushes::{push_arm, push_expr, push_handler, push_statement};
use crate::refusals::handlers_fit;
use crate::simple::Around;
use crate::targets::is_target;
use kishu_language::{Arm, Expr, Handler, Mark, Stmt};
use std::rc::RcStr;

impl Around {
    pub(crate) fn in_loop(self) -> Around
        ensures { lines.around_of result ≡ lines.in_loop (lines.around_of self) }
    {
        Around {
            in_loop: true,
            ..self
        }
    }

    pub(crate) fn in_handler(self) -> Around
        ensures { lines.around_of result ≡ lines.in_handler (lines.around_of self) }
    {
        Around {
            in_handler: true,
            ..self
        }
    }
}

impl<'a> Parser<'a> {
    /// A chunk with so many nestings, its own among them.
    #[cycle(blocks)]
    #[tactic(auto, unfolding(kishu_language::specs::reading::ReadStatements::chunk))]
    pub(crate) fn chunk(&self, at: &mut usize, room: u32, around: Around) -> Result<Vec<Stmt>, Stop>
        requires room { room < 1000 }
        requires placed { lines.Placed self.now.source.now self.now.tokens.now }
        ensures { Gives lines.statements_in (spec.chunk self.now.source.now room (lines.around_of around) (left self.now.tokens.now at.old)) result (left self.now.tokens.now at.new) }
    {
        if room == 0 {
            return Err(Stop::Refused);
        }
        if !self.begins_compound(*at) {
            return self.simples(at, room, around);
        }
        let found = self.compound(at, room - 1, around)?;
        let mut all = Vec::new(self.alloc);
        push_statement(&mut all, found)?;
        Ok(all)
    }

    #[cycle(blocks)]
    #[tactic(auto, unfolding(kishu_language::specs::reading::ReadStatements::compound))]
    fn compound(&self, at: &mut usize, room: u32, around: Around) -> Result<Stmt, Stop>
        requires room { room < 1000 }
        requires placed { lines.Placed self.now.source.now self.now.tokens.now }
        ensures { Gives statement_of (spec.compound self.now.source.now room (spec.chunk self.now.source.now room) (lines.around_of around) (left self.now.tokens.now at.old)) result (left self.now.tokens.now at.new) }
    {
        if self.sees(*at, Mark::If) {
            self.choice(at, room, around)
        } else if self.sees(*at, Mark::While) {
            self.while_(at, room, around)
        } else if self.sees(*at, Mark::For) {
            self.for_(at, room, around)
        } else if self.sees(*at, Mark::Try) {
            self.try_(at, room, around)
        } else {
            self.define(at, room, around)
        }
    }

    #[cycle(blocks)]
    #[tactic(auto, using(crate::proofs::Bodies::block_is))]
    pub(crate) fn block(&self, at: &mut usize, room: u32, around: Around) -> Result<Vec<Stmt>, Stop>
        requires room { room < 1000 }
        requires placed { lines.Placed self.now.source.now self.now.tokens.now }
        ensures { Gives lines.block_of (spec.block self.now.source.now room (spec.chunk self.now.source.now room) (lines.around_of around) (left self.now.tokens.now at.old)) result (left self.now.tokens.now at.new) }
    {
        if !self.sees_newline(*at) {
            return self.line(at, room, around);
        }
        self.newline(at)?;
        self.indent(at)?;
        let first = self.chunk(at, room, around)?;
        let all = self.more_chunks(at, room, around, first)?;
        self.dedent(at)?;
        Ok(all)
    }

    /// A block on the line of its head.
    #[tactic(auto, unfolding(kishu_language::specs::reading::ReadStatements::line))]
    fn line(&self, at: &mut usize, room: u32, around: Around) -> Result<Vec<Stmt>, Stop>
        ensures { Gives lines.statements_in (spec.line (lines.around_of around) room (left self.now.tokens.now at.old)) result (left self.now.tokens.now at.new) }
    {
        if room == 0 {
            return Err(Stop::Refused);
        }
        self.simples(at, room, around)
    }

    #[cycle(blocks)]
    fn more_chunks(
        &self,
        at: &mut usize,
        room: u32,
        around: Around,
        first: Vec<Stmt>,
    ) -> Result<Vec<Stmt>, Stop>
        requires room { room < 1000 }
        requires placed { lines.Placed self.now.source.now self.now.tokens.now }
        ensures { Gives lines.statements_in (reader.turns lines.sees_chunk (lines.chunk_turn (spec.chunk self.now.source.now room (lines.around_of around))) (lines.statements_in first) (left self.now.tokens.now at.old)) result (left self.now.tokens.now at.new) }
    {
        let mut all = first;
        for _turn in 0..self.left(*at) {
            if self.sees_dedent(*at) {
                return Ok(all);
            }
            let mut next = self.chunk(at, room, around)?;
            all.append(&mut next)?;
        }
        Ok(all)
    }

    #[cycle(blocks)]
    #[tactic(auto, unfolding(kishu_language::specs::reading::ReadStatements::block_after))]
    fn block_after(
        &self,
        at: &mut usize,
        room: u32,
        around: Around,
        word: Mark,
    ) -> Result<Vec<Stmt>, Stop>
        requires room { room < 1000 }
        requires placed { lines.Placed self.now.source.now self.now.tokens.now }
        ensures { Gives lines.block_of (spec.block_after self.now.source.now room (spec.chunk self.now.source.now room) word (lines.around_of around) (left self.now.tokens.now at.old)) result (left self.now.tokens.now at.new) }
    {
        if !self.sees(*at, word) {
            return Ok(Vec::new(self.alloc));
        }
        self.expect(at, word)?;
        self.expect(at, Mark::Colon)?;
        self.block(at, room, around)
    }

    #[cycle(blocks)]
    #[tactic(auto, using(kishu_language::specs::trees::StatementRows::arm_is), unfolding(kishu_language::specs::reading::ReadStatements::arm))]
    fn arm(&self, at: &mut usize, room: u32, around: Around) -> Result<Arm, Stop>
        requires room { room < 1000 }
        requires placed { lines.Placed self.now.source.now self.now.tokens.now }
        ensures { Gives tree_parts.arm_of (spec.arm self.now.source.now room (spec.chunk self.now.source.now room) (lines.around_of around) (left self.now.tokens.now at.old)) result (left self.now.tokens.now at.new) }
    {
        let test = self.nested(at, room + 1, Phrase::Expr)?;
        self.expect(at, Mark::Colon)?;
        let body = self.block(at, room, around)?;
        Ok(Arm { test, body })
    }

    #[cycle(blocks)]
    #[tactic(auto, using(kishu_language::specs::trees::StatementRows::if_is), unfolding(kishu_language::specs::reading::ReadStatements::choice))]
    fn choice(&self, at: &mut usize, room: u32, around: Around) -> Result<Stmt, Stop>
        requires room { room < 1000 }
        requires placed { lines.Placed self.now.source.now self.now.tokens.now }
        ensures { Gives statement_of (spec.choice self.now.source.now room (spec.chunk self.now.source.now room) (lines.around_of around) (left self.now.tokens.now at.old)) result (left self.now.tokens.now at.new) }
    {
        self.expect(at, Mark::If)?;
        let first = self.arm(at, room, around)?;
        let arms = self.more_arms(at, room, around, first)?;
        let other = self.block_after(at, room, around, Mark::Else)?;
        Ok(Stmt::If(arms, other))
    }

    #[cycle(blocks)]
    fn more_arms(
        &self,
        at: &mut usize,
        room: u32,
        around: Around,
        first: Arm,
    ) -> Result<Vec<Arm>, Stop>
        requires room { room < 1000 }
        requires placed { lines.Placed self.now.source.now self.now.tokens.now }
        ensures { Gives lines.arms_in (reader.turns (reader.sees m.Elif) (turns.more_turn m.Elif (spec.arm self.now.source.now room (spec.chunk self.now.source.now room) (lines.around_of around))) (tree_parts.arm_of first ∷ []) (left self.now.tokens.now at.old)) result (left self.now.tokens.now at.new) }
    {
        let mut arms = Vec::new(self.alloc);
        push_arm(&mut arms, first)?;
        for _turn in 0..self.left(*at) {
            if !self.sees(*at, Mark::Elif) {
                return Ok(arms);
            }
            self.expect(at, Mark::Elif)?;
            let next = self.arm(at, room, around)?;
            push_arm(&mut arms, next)?;
        }
        Ok(arms)
    }

    #[cycle(blocks)]
    #[tactic(auto, using(crate::proofs::Bodies::while_is))]
    fn while_(&self, at: &mut usize, room: u32, around: Around) -> Result<Stmt, Stop>
        requires room { room < 1000 }
        requires placed { lines.Placed self.now.source.now self.now.tokens.now }
        ensures { Gives statement_of (spec.while self.now.source.now room (spec.chunk self.now.source.now room) (lines.around_of around) (left self.now.tokens.now at.old)) result (left self.now.tokens.now at.new) }
    {
        self.expect(at, Mark::While)?;
        let found = self.arm(at, room, around.in_loop())?;
        Ok(Stmt::While(found.test, found.body))
    }

    #[cycle(blocks)]
    #[tactic(auto, using(crate::proofs::Bodies::for_is, kishu_language::specs::trees::StatementRows::for_is))]
    fn for_(&self, at: &mut usize, room: u32, around: Around) -> Result<Stmt, Stop>
        requires room { room < 1000 }
        requires placed { lines.Placed self.now.source.now self.now.tokens.now }
        ensures { Gives statement_of (spec.for self.now.source.now room (spec.chunk self.now.source.now room) (lines.around_of around) (left self.now.tokens.now at.old)) result (left self.now.tokens.now at.new) }
    {
        self.expect(at, Mark::For)?;
        let targets = self.targets(at, room + 1)?;
        self.expect(at, Mark::In)?;
        let walked = self.nested(at, room + 1, Phrase::Exprs)?;
        self.expect(at, Mark::Colon)?;
        let body = self.block(at, room, around.in_loop())?;
        Ok(Stmt::For(targets, walked, body))
    }

    fn target(&self, at: &mut usize, room: u32) -> Result<Expr, Stop>
        ensures { Gives expression_of (lines.target room (left self.now.tokens.now at.old)) result (left self.now.tokens.now at.new) }
    {
        let found = self.primary_at(at, room)?;
        if !is_target(&found) {
            return Err(Stop::Refused);
        }
        Ok(found)
    }

    #[tactic(auto, using(kishu_language::specs::trees::Rows::tuple_is))]
    fn targets(&self, at: &mut usize, room: u32) -> Result<Expr, Stop>
        ensures { Gives expression_of (lines.targets room (left self.now.tokens.now at.old)) result (left self.now.tokens.now at.new) }
    {
        let first = self.target(at, room)?;
        let all = self.more_targets(at, room, first)?;
        if !self.sees(*at, Mark::Comma) {
            return Ok(alone(all));
        }
        self.expect(at, Mark::Comma)?;
        Ok(Expr::Tuple(all))
    }

    fn more_targets(&self, at: &mut usize, room: u32, first: Expr) -> Result<Vec<Expr>, Stop>
        ensures { Gives lines.expressions_in (reader.turns (expressions.another m.Comma) (turns.more_turn m.Comma (lines.target room)) (expression_of first ∷ []) (left self.now.tokens.now at.old)) result (left self.now.tokens.now at.new) }
    {
        let mut all = Vec::new(self.alloc);
        push_expr(&mut all, first)?;
        for _turn in 0..self.left(*at) {
            if !self.sees_another(*at, Mark::Comma) {
                return Ok(all);
            }
            self.expect(at, Mark::Comma)?;
            let next = self.target(at, room)?;
            push_expr(&mut all, next)?;
        }
        Ok(all)
    }

    #[cycle(blocks)]
    #[tactic(auto, using(crate::proofs::Bodies::try_is))]
    fn try_(&self, at: &mut usize, room: u32, around: Around) -> Result<Stmt, Stop>
        requires room { room < 1000 }
        requires placed { lines.Placed self.now.source.now self.now.tokens.now }
        ensures { Gives statement_of (spec.try self.now.source.now room (spec.chunk self.now.source.now room) (lines.around_of around) (left self.now.tokens.now at.old)) result (left self.now.tokens.now at.new) }
    {
        self.expect(at, Mark::Try)?;
        self.expect(at, Mark::Colon)?;
        let body = self.block(at, room, around)?;
        if self.sees(*at, Mark::Except) {
            self.handled(at, room, around, body)
        } else {
            self.finished(at, room, around, body)
        }
    }

    #[cycle(blocks)]
    #[tactic(auto, using(kishu_language::specs::trees::StatementRows::try_is), unfolding(kishu_language::specs::reading::ReadStatements::handled))]
    fn handled(
        &self,
        at: &mut usize,
        room: u32,
        around: Around,
        body: Vec<Stmt>,
    ) -> Result<Stmt, Stop>
        requires room { room < 1000 }
        requires placed { lines.Placed self.now.source.now self.now.tokens.now }
        ensures { Gives statement_of (spec.handled self.now.source.now room (spec.chunk self.now.source.now room) (lines.block_of body) (lines.around_of around) (left self.now.tokens.now at.old)) result (left self.now.tokens.now at.new) }
    {
        let first = self.handler(at, room, around)?;
        let handlers = self.more_handlers(at, room, around, first)?;
        if !handlers_fit(handlers.as_slice()) {
            return Err(Stop::Refused);
        }
        let other = self.block_after(at, room, around, Mark::Else)?;
        let last = self.block_after(at, room, around, Mark::Finally)?;
        Ok(Stmt::Try {
            body,
            handlers,
            other,
            last,
        })
    }

    #[cycle(blocks)]
    fn more_handlers(
        &self,
        at: &mut usize,
        room: u32,
        around: Around,
        first: Handler,
    ) -> Result<Vec<Handler>, Stop>
        requires room { room < 1000 }
        requires placed { lines.Placed self.now.source.now self.now.tokens.now }
        ensures { Gives lines.handlers_in (reader.turns (reader.sees m.Except) (reader.one_more (spec.handler self.now.source.now room (spec.chunk self.now.source.now room) (lines.around_of around))) (tree_parts.handler_of first ∷ []) (left self.now.tokens.now at.old)) result (left self.now.tokens.now at.new) }
    {
        let mut all = Vec::new(self.alloc);
        push_handler(&mut all, first)?;
        for _turn in 0..self.left(*at) {
            if !self.sees(*at, Mark::Except) {
                return Ok(all);
            }
            let next = self.handler(at, room, around)?;
            push_handler(&mut all, next)?;
        }
        Ok(all)
    }

    #[cycle(blocks)]
    #[tactic(auto, using(crate::proofs::Handlers::body_is, kishu_language::specs::trees::StatementRows::handler_is))]
    fn handler(&self, at: &mut usize, room: u32, around: Around) -> Result<Handler, Stop>
        requires room { room < 1000 }
        requires placed { lines.Placed self.now.source.now self.now.tokens.now }
        ensures { Gives tree_parts.handler_of (spec.handler self.now.source.now room (spec.chunk self.now.source.now room) (lines.around_of around) (left self.now.tokens.now at.old)) result (left self.now.tokens.now at.new) }
    {
        self.expect(at, Mark::Except)?;
        let (class, name) = self.caught(at, room)?;
        self.expect(at, Mark::Colon)?;
        let body = self.block(at, room, around.in_handler())?;
        Ok(Handler { class, name, body })
    }

    /// The class that a handler catches, and the name after `as`.
    fn caught(&self, at: &mut usize, room: u32) -> Result<(Option<Expr>, Option<RcStr>), Stop>
        requires { room < 1000 }
        ensures { Gives lines.caught_of (lines.caught_parts room (left self.now.tokens.now at.old)) result (left self.now.tokens.now at.new) }
    {
        if !self.begins_expr(*at) {
            return Ok((None, None));
        }
        let class = self.nested(at, room + 1, Phrase::Expr)?;
        let name = self.after_as(at)?;
        Ok((Some(class), name))
    }

    #[cycle(blocks)]
    #[tactic(auto, using(kishu_language::specs::trees::StatementRows::finally_is), unfolding(kishu_language::specs::reading::ReadStatements::finished))]
    fn finished(
        &self,
        at: &mut usize,
        room: u32,
        around: Around,
        body: Vec<Stmt>,
    ) -> Result<Stmt, Stop>
        requires room { room < 1000 }
        requires placed { lines.Placed self.now.source.now self.now.tokens.now }
        ensures { Gives statement_of (spec.finished self.now.source.now room (spec.chunk self.now.source.now room) (lines.block_of body) (lines.around_of around) (left self.now.tokens.now at.old)) result (left self.now.tokens.now at.new) }
    {
        self.expect(at, Mark::Finally)?;
        self.expect(at, Mark::Colon)?;
        let last = self.block(at, room, around)?;
        Ok(Stmt::Finally(body, last))
    }
}
