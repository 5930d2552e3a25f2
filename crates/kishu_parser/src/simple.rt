// Simple statements.
ghost use Rattle.std.specs.Prelude.{◌≡◌, [], ◌∷◌, map};
ghost use Rattle.std.specs.Rc.{rc_str_bytes};
ghost use Rattle.kishu_language.specs.declared.token.Mark.TheVariants as m;
ghost use Rattle.kishu_language.specs.trees.Tree.{expression_of, value_of, text_of, statement_of};
ghost use Rattle.kishu_language.specs.reading.Reader as reader;
ghost use Rattle.kishu_language.specs.reading.ReadExpressions as expressions;
ghost use Rattle.kishu_language.specs.reading.ReadStatements as spec;
ghost use Rattle.kishu_parser.specs.Views.{left, Gives};
ghost use Rattle.kishu_parser.specs.Trees as views;
ghost use Rattle.kishu_parser.specs.Turns as turns;
ghost use Rattle.kishu_parser.specs.Statements as lines;

use crate::cursor::{Parser, Stop};
use crate::expressions::Phrase;
use crate::pushes::{push_expr, push_statement, push_text};
use crate::targets::{is_place, is_target};
use kishu_language::{Expr, Mark, Stmt};
use std::rc::RcStr;

/// Where a statement stands: in a function's body, and there in a loop or in a handler's block.
#[derive(Clone, Copy)]
pub(crate) struct Around {
    pub(crate) in_function: bool,
    pub(crate) in_loop: bool,
    pub(crate) in_handler: bool,
}

impl<'a> Parser<'a> {
    /// A primary with so many nestings, its own among them.
    #[tactic(auto, unfolding(kishu_language::specs::reading::ReadStatements::primary_at))]
    pub(crate) fn primary_at(&self, at: &mut usize, room: u32) -> Result<Expr, Stop>
        ensures { Gives expression_of (spec.primary_at room (left self.now.tokens.now at.old)) result (left self.now.tokens.now at.new) }
    {
        if room == 0 {
            return Err(Stop::Refused);
        }
        self.primary(at, room - 1)
    }

    #[tactic(auto, using(kishu_language::specs::trees::StatementRows::raise_is), unfolding(kishu_language::specs::reading::ReadStatements::raise))]
    fn raise(&self, at: &mut usize, room: u32, around: Around) -> Result<Stmt, Stop>
        ensures { Gives statement_of (spec.raise (lines.around_of around) room (left self.now.tokens.now at.old)) result (left self.now.tokens.now at.new) }
    {
        self.expect(at, Mark::Raise)?;
        if self.begins_expr(*at) {
            let value = self.nested(at, room, Phrase::Expr)?;
            return Ok(Stmt::Raise(Some(value)));
        }
        if !around.in_handler {
            return Err(Stop::Refused);
        }
        Ok(Stmt::Raise(None))
    }

    #[tactic(auto, using(crate::proofs::Bodies::return_is, kishu_language::specs::trees::StatementRows::return_is))]
    fn return_(&self, at: &mut usize, room: u32, around: Around) -> Result<Stmt, Stop>
        ensures { Gives statement_of (spec.return (lines.around_of around) room (left self.now.tokens.now at.old)) result (left self.now.tokens.now at.new) }
    {
        self.expect(at, Mark::Return)?;
        if !around.in_function {
            return Err(Stop::Refused);
        }
        if !self.begins_expr(*at) {
            return Ok(Stmt::Return(None));
        }
        let value = self.nested(at, room, Phrase::Exprs)?;
        Ok(Stmt::Return(Some(value)))
    }

    #[tactic(auto, using(kishu_language::specs::trees::StatementRows::assert_is), unfolding(kishu_language::specs::reading::ReadStatements::assertion))]
    fn assertion(&self, at: &mut usize, room: u32) -> Result<Stmt, Stop>
        ensures { Gives statement_of (spec.assertion lines.anywhere room (left self.now.tokens.now at.old)) result (left self.now.tokens.now at.new) }
    {
        self.expect(at, Mark::Assert)?;
        let test = self.nested(at, room, Phrase::Expr)?;
        if !self.sees(*at, Mark::Comma) {
            return Ok(Stmt::Assert(test, None));
        }
        self.expect(at, Mark::Comma)?;
        let message = self.nested(at, room, Phrase::Expr)?;
        Ok(Stmt::Assert(test, Some(message)))
    }

    #[tactic(auto, using(kishu_language::specs::trees::StatementRows::delete_is), unfolding(kishu_language::specs::reading::ReadStatements::delete))]
    fn delete(&self, at: &mut usize, room: u32) -> Result<Stmt, Stop>
        ensures { Gives statement_of (spec.delete lines.anywhere room (left self.now.tokens.now at.old)) result (left self.now.tokens.now at.new) }
    {
        self.expect(at, Mark::Del)?;
        let first = self.place(at, room)?;
        let places = self.more_places(at, room, first)?;
        Ok(Stmt::Del(places))
    }

    fn more_places(&self, at: &mut usize, room: u32, first: Expr) -> Result<Vec<Expr>, Stop>
        ensures { Gives views.expressions_in (reader.turns (expressions.another m.Comma) (turns.more_turn m.Comma (lines.place room)) (expression_of first ∷ []) (left self.now.tokens.now at.old)) result (left self.now.tokens.now at.new) }
    {
        let mut all = Vec::new(self.alloc);
        push_expr(&mut all, first)?;
        for _turn in 0..self.left(*at) {
            if !self.sees_another(*at, Mark::Comma) {
                return Ok(all);
            }
            self.expect(at, Mark::Comma)?;
            let next = self.place(at, room)?;
            push_expr(&mut all, next)?;
        }
        Ok(all)
    }

    fn place(&self, at: &mut usize, room: u32) -> Result<Expr, Stop>
        ensures { Gives expression_of (lines.place room (left self.now.tokens.now at.old)) result (left self.now.tokens.now at.new) }
    {
        let found = self.primary_at(at, room)?;
        if !is_place(&found) {
            return Err(Stop::Refused);
        }
        Ok(found)
    }

    #[tactic(auto, using(kishu_language::specs::trees::StatementRows::global_is), unfolding(kishu_language::specs::reading::ReadStatements::global))]
    fn global(&self, at: &mut usize, around: Around) -> Result<Stmt, Stop>
        ensures { Gives statement_of (spec.global (lines.around_of around) 0 (left self.now.tokens.now at.old)) result (left self.now.tokens.now at.new) }
    {
        self.expect(at, Mark::Global)?;
        if !around.in_function {
            return Err(Stop::Refused);
        }
        let first = self.name(at)?;
        let names = self.more_names(at, first)?;
        Ok(Stmt::Global(names))
    }

    fn more_names(&self, at: &mut usize, first: RcStr) -> Result<Vec<RcStr>, Stop>
        ensures { Gives views.texts_in (reader.turns (expressions.another m.Comma) (turns.more_turn m.Comma (reader.token reader.a_name)) (rc_str_bytes first ∷ []) (left self.now.tokens.now at.old)) result (left self.now.tokens.now at.new) }
    {
        let mut all = Vec::new(self.alloc);
        push_text(&mut all, first)?;
        for _turn in 0..self.left(*at) {
            if !self.sees_another(*at, Mark::Comma) {
                return Ok(all);
            }
            self.expect(at, Mark::Comma)?;
            let next = self.name(at)?;
            push_text(&mut all, next)?;
        }
        Ok(all)
    }

    #[tactic(auto, using(kishu_language::specs::trees::StatementRows::import_is), unfolding(kishu_language::specs::reading::ReadStatements::import))]
    fn import(&self, at: &mut usize) -> Result<Stmt, Stop>
        ensures { Gives statement_of (spec.import lines.anywhere 0 (left self.now.tokens.now at.old)) result (left self.now.tokens.now at.new) }
    {
        self.expect(at, Mark::From)?;
        self.word(at, "types")?;
        self.expect(at, Mark::Import)?;
        self.word(at, "SimpleNamespace")?;
        let name = self.after_as(at)?;
        Ok(Stmt::Import(name))
    }

    /// The name after `as`, if there is one.
    pub(crate) fn after_as(&self, at: &mut usize) -> Result<Option<RcStr>, Stop>
        ensures { Gives text_of (lines.after_as (left self.now.tokens.now at.old)) result (left self.now.tokens.now at.new) }
    {
        if !self.sees(*at, Mark::As) {
            return Ok(None);
        }
        self.expect(at, Mark::As)?;
        let name = self.name(at)?;
        Ok(Some(name))
    }

    #[tactic(auto, unfolding(kishu_language::specs::reading::ReadStatements::update_or_assignment))]
    fn update_or_assignment(&self, at: &mut usize, room: u32) -> Result<Stmt, Stop>
        ensures { Gives statement_of (spec.update_or_assignment lines.anywhere room (left self.now.tokens.now at.old)) result (left self.now.tokens.now at.new) }
    {
        let first = self.nested(at, room, Phrase::Exprs)?;
        if self.update_operator(*at).is_some() {
            return self.update_of(at, room, first);
        }
        self.assignment_of(at, room, first)
    }

    #[tactic(auto, using(kishu_language::specs::trees::StatementRows::update_is), unfolding(kishu_language::specs::reading::ReadStatements::update_of))]
    fn update_of(&self, at: &mut usize, room: u32, place: Expr) -> Result<Stmt, Stop>
        ensures { Gives statement_of (spec.update_of lines.anywhere room (expression_of place) (left self.now.tokens.now at.old)) result (left self.now.tokens.now at.new) }
    {
        if !is_place(&place) {
            return Err(Stop::Refused);
        }
        let Some(operator) = self.update_operator(*at) else {
            return Err(Stop::Refused);
        };
        self.skip(at);
        let value = self.nested(at, room, Phrase::Exprs)?;
        Ok(Stmt::Update(place, operator, value))
    }

    #[tactic(auto, using(kishu_language::specs::trees::StatementRows::assign_is), unfolding(kishu_language::specs::reading::ReadStatements::assignment_of))]
    fn assignment_of(&self, at: &mut usize, room: u32, first: Expr) -> Result<Stmt, Stop>
        ensures { Gives statement_of (spec.assignment_of lines.anywhere room (expression_of first) (left self.now.tokens.now at.old)) result (left self.now.tokens.now at.new) }
    {
        let (targets, value) = self.assigned(at, room, first)?;
        Ok(Stmt::Assign(targets, value))
    }

    /// The targets, and what stands behind the last `=`.
    fn assigned(&self, at: &mut usize, room: u32, first: Expr) -> Result<(Vec<Expr>, Expr), Stop>
        ensures { Gives lines.assigned_of (reader.turns (reader.sees m.Assign) (spec.assign_turn lines.anywhere room) ([], expression_of first) (left self.now.tokens.now at.old)) result (left self.now.tokens.now at.new) }
    {
        let mut targets = Vec::new(self.alloc);
        let mut value = first;
        for _turn in 0..self.left(*at) {
            if !self.sees(*at, Mark::Assign) {
                return Ok((targets, value));
            }
            if !is_target(&value) {
                return Err(Stop::Refused);
            }
            self.expect(at, Mark::Assign)?;
            let next = self.nested(at, room, Phrase::Exprs)?;
            push_expr(&mut targets, value)?;
            value = next;
        }
        Ok((targets, value))
    }

    #[tactic(auto, using(kishu_language::specs::trees::StatementRows::pass_is))]
    fn pass(&self, at: &mut usize) -> Result<Stmt, Stop>
        ensures { Gives statement_of (lines.pass (left self.now.tokens.now at.old)) result (left self.now.tokens.now at.new) }
    {
        self.expect(at, Mark::Pass)?;
        Ok(Stmt::Pass)
    }

    #[tactic(auto, using(kishu_language::specs::trees::StatementRows::break_is))]
    fn break_(&self, at: &mut usize, around: Around) -> Result<Stmt, Stop>
        ensures { Gives statement_of (lines.break (lines.around_of around) (left self.now.tokens.now at.old)) result (left self.now.tokens.now at.new) }
    {
        self.expect(at, Mark::Break)?;
        if !around.in_loop {
            return Err(Stop::Refused);
        }
        Ok(Stmt::Break)
    }

    #[tactic(auto, using(kishu_language::specs::trees::StatementRows::continue_is))]
    fn continue_(&self, at: &mut usize, around: Around) -> Result<Stmt, Stop>
        ensures { Gives statement_of (lines.continue (lines.around_of around) (left self.now.tokens.now at.old)) result (left self.now.tokens.now at.new) }
    {
        self.expect(at, Mark::Continue)?;
        if !around.in_loop {
            return Err(Stop::Refused);
        }
        Ok(Stmt::Continue)
    }

    #[tactic(auto, unfolding(kishu_language::specs::reading::ReadStatements::simple))]
    fn simple(&self, at: &mut usize, room: u32, around: Around) -> Result<Stmt, Stop>
        ensures { Gives statement_of (spec.simple (lines.around_of around) room (left self.now.tokens.now at.old)) result (left self.now.tokens.now at.new) }
    {
        if self.sees(*at, Mark::Pass) {
            self.pass(at)
        } else if self.sees(*at, Mark::Break) {
            self.break_(at, around)
        } else if self.sees(*at, Mark::Continue) {
            self.continue_(at, around)
        } else if self.sees(*at, Mark::Return) {
            self.return_(at, room, around)
        } else if self.sees(*at, Mark::Raise) {
            self.raise(at, room, around)
        } else if self.sees(*at, Mark::Assert) {
            self.assertion(at, room)
        } else if self.sees(*at, Mark::Del) {
            self.delete(at, room)
        } else if self.sees(*at, Mark::Global) {
            self.global(at, around)
        } else if self.sees(*at, Mark::From) {
            self.import(at)
        } else {
            self.update_or_assignment(at, room)
        }
    }

    #[tactic(auto, unfolding(kishu_language::specs::reading::ReadStatements::simples))]
    pub(crate) fn simples(
        &self,
        at: &mut usize,
        room: u32,
        around: Around,
    ) -> Result<Vec<Stmt>, Stop>
        ensures { Gives lines.statements_in (spec.simples (lines.around_of around) room (left self.now.tokens.now at.old)) result (left self.now.tokens.now at.new) }
    {
        let first = self.simple(at, room, around)?;
        let all = self.more_simples(at, room, around, first)?;
        if self.sees(*at, Mark::Semicolon) {
            self.skip(at);
        }
        self.newline(at)?;
        Ok(all)
    }

    fn more_simples(
        &self,
        at: &mut usize,
        room: u32,
        around: Around,
        first: Stmt,
    ) -> Result<Vec<Stmt>, Stop>
        ensures { Gives lines.statements_in (reader.turns spec.another_simple (turns.more_turn m.Semicolon (spec.simple (lines.around_of around) room)) (statement_of first ∷ []) (left self.now.tokens.now at.old)) result (left self.now.tokens.now at.new) }
    {
        let mut all = Vec::new(self.alloc);
        push_statement(&mut all, first)?;
        for _turn in 0..self.left(*at) {
            if !self.sees_another_simple(*at) {
                return Ok(all);
            }
            self.expect(at, Mark::Semicolon)?;
            let next = self.simple(at, room, around)?;
            push_statement(&mut all, next)?;
        }
        Ok(all)
    }
}
