// Atoms, and what stands behind them.
ghost use Rattle.std.specs.Prelude.{◌≡◌, [], ◌∷◌};
ghost use Rattle.std.specs.Rc.{rc_str_bytes};
ghost use Rattle.kishu_language.specs.declared.token.Mark.TheVariants as m;
ghost use Rattle.kishu_language.specs.trees.Tree.{expression_of, value_of};
ghost use Rattle.kishu_language.specs.grammar.Grammar as grammar;
ghost use Rattle.kishu_language.specs.reading.Reader as reader;
ghost use Rattle.kishu_language.specs.reading.ReadExpressions as spec;
ghost use Rattle.kishu_parser.specs.Views.{left, by_table, Gives};
ghost use Rattle.kishu_parser.specs.Trees as views;
ghost use Rattle.kishu_language.specs.trees.Parts as tree_parts;
ghost use Rattle.kishu_parser.specs.Turns as turns;

use crate::cursor::{Parser, Stop};
use crate::expressions::Phrase;
use crate::joins::{is_several, joined, parenthesised, push_pair};
use crate::pushes::{push_argument, push_expr, push_text};
use crate::refusals::arguments_fit;
use kishu_language::{Argument, Expr, Mark, Pair, Trailer};
use std::rc::RcStr;

/// Whether one nesting more is left.
fn has_room(room: u32) -> bool
    ensures { result ≡ grammar.has_room room }
{
    room > 0
}

impl<'a> Parser<'a> {
    #[cycle(expressions)]
    #[tactic(auto, unfolding(kishu_language::specs::reading::ReadExpressions::atom))]
    pub(crate) fn atom(&self, at: &mut usize, room: u32) -> Result<Expr, Stop>
        ensures { Gives expression_of (spec.atom (grammar.has_room room) (spec.phrase room) (left self.now.tokens.now at.old)) result (left self.now.tokens.now at.new) }
    {
        if self.sees_name(*at) {
            self.name_atom(at)
        } else if self.sees_integer(*at) {
            self.integer_atom(at)
        } else if self.sees_text(*at) {
            self.text_atom(at)
        } else {
            self.bracketed_atom(at, room)
        }
    }

    /// An atom in brackets, which need room for one more nesting, or a constant.
    #[cycle(expressions)]
    fn bracketed_atom(&self, at: &mut usize, room: u32) -> Result<Expr, Stop>
        ensures { Gives expression_of (turns.bracketed_atom (grammar.has_room room) (spec.phrase room) (left self.now.tokens.now at.old)) result (left self.now.tokens.now at.new) }
    {
        if self.sees(*at, Mark::LeftParenthesis) {
            if !has_room(room) {
                return Err(Stop::Refused);
            }
            self.parenthesised(at, room)
        } else if self.sees(*at, Mark::LeftBracket) {
            if !has_room(room) {
                return Err(Stop::Refused);
            }
            self.list(at, room)
        } else if self.sees(*at, Mark::LeftBrace) {
            if !has_room(room) {
                return Err(Stop::Refused);
            }
            self.dict(at, room)
        } else {
            self.constant(at)
        }
    }

    #[cycle(expressions)]
    #[tactic(auto, using(kishu_language::specs::trees::Rows::tuple_is), unfolding(kishu_language::specs::reading::ReadExpressions::parenthesised))]
    fn parenthesised(&self, at: &mut usize, room: u32) -> Result<Expr, Stop>
        ensures { Gives expression_of (spec.parenthesised (spec.phrase room) (left self.now.tokens.now at.old)) result (left self.now.tokens.now at.new) }
    {
        self.expect(at, Mark::LeftParenthesis)?;
        if !self.begins_expr(*at) {
            self.expect(at, Mark::RightParenthesis)?;
            return Ok(Expr::Tuple(Vec::new(self.alloc)));
        }
        let inside = self.nested(at, room, Phrase::Exprs)?;
        self.expect(at, Mark::RightParenthesis)?;
        Ok(parenthesised(self.alloc, inside)?)
    }

    #[cycle(expressions)]
    #[tactic(auto, using(kishu_language::specs::trees::Rows::list_is), unfolding(kishu_language::specs::reading::ReadExpressions::list))]
    fn list(&self, at: &mut usize, room: u32) -> Result<Expr, Stop>
        ensures { Gives expression_of (spec.list (spec.phrase room) (left self.now.tokens.now at.old)) result (left self.now.tokens.now at.new) }
    {
        self.expect(at, Mark::LeftBracket)?;
        let found = self.items(at, room)?;
        self.expect(at, Mark::RightBracket)?;
        Ok(Expr::List(found))
    }

    #[cycle(expressions)]
    fn items(&self, at: &mut usize, room: u32) -> Result<Vec<Expr>, Stop>
        ensures { Gives views.expressions_in (spec.any_listed (spec.phrase room grammar.expr) (left self.now.tokens.now at.old)) result (left self.now.tokens.now at.new) }
    {
        if !self.begins_expr(*at) {
            return Ok(Vec::new(self.alloc));
        }
        let first = self.nested(at, room, Phrase::Expr)?;
        let all = self.more_items(at, room, first)?;
        if self.sees(*at, Mark::Comma) {
            self.expect(at, Mark::Comma)?;
        }
        Ok(all)
    }

    #[cycle(expressions)]
    fn more_items(&self, at: &mut usize, room: u32, first: Expr) -> Result<Vec<Expr>, Stop>
        ensures { Gives views.expressions_in (reader.turns (spec.another m.Comma) (turns.more_turn m.Comma (spec.phrase room grammar.expr)) (expression_of first ∷ []) (left self.now.tokens.now at.old)) result (left self.now.tokens.now at.new) }
    {
        let mut all = Vec::new(self.alloc);
        push_expr(&mut all, first)?;
        for _turn in 0..self.left(*at) {
            if !self.sees_another(*at, Mark::Comma) {
                return Ok(all);
            }
            self.expect(at, Mark::Comma)?;
            let next = self.nested(at, room, Phrase::Expr)?;
            push_expr(&mut all, next)?;
        }
        Ok(all)
    }

    #[cycle(expressions)]
    #[tactic(auto, using(kishu_language::specs::trees::Rows::dict_is), unfolding(kishu_language::specs::reading::ReadExpressions::dict))]
    fn dict(&self, at: &mut usize, room: u32) -> Result<Expr, Stop>
        ensures { Gives expression_of (spec.dict (spec.phrase room) (left self.now.tokens.now at.old)) result (left self.now.tokens.now at.new) }
    {
        self.expect(at, Mark::LeftBrace)?;
        let found = self.pairs(at, room)?;
        self.expect(at, Mark::RightBrace)?;
        Ok(Expr::Dict(found))
    }

    #[cycle(expressions)]
    fn pairs(&self, at: &mut usize, room: u32) -> Result<Vec<Pair>, Stop>
        ensures { Gives views.pairs_in (spec.any_listed (spec.pair (spec.phrase room)) (left self.now.tokens.now at.old)) result (left self.now.tokens.now at.new) }
    {
        if !self.begins_expr(*at) {
            return Ok(Vec::new(self.alloc));
        }
        let first = self.pair(at, room)?;
        let all = self.more_pairs(at, room, first)?;
        if self.sees(*at, Mark::Comma) {
            self.expect(at, Mark::Comma)?;
        }
        Ok(all)
    }

    #[cycle(expressions)]
    fn more_pairs(&self, at: &mut usize, room: u32, first: (Expr, Expr)) -> Result<Vec<Pair>, Stop>
        ensures { Gives views.pairs_in (reader.turns (spec.another m.Comma) (turns.more_turn m.Comma (spec.pair (spec.phrase room))) (views.both_of first ∷ []) (left self.now.tokens.now at.old)) result (left self.now.tokens.now at.new) }
    {
        let mut all = Vec::new(self.alloc);
        push_pair(&mut all, first.0, first.1)?;
        for _turn in 0..self.left(*at) {
            if !self.sees_another(*at, Mark::Comma) {
                return Ok(all);
            }
            self.expect(at, Mark::Comma)?;
            let (key, value) = self.pair(at, room)?;
            push_pair(&mut all, key, value)?;
        }
        Ok(all)
    }

    #[cycle(expressions)]
    #[tactic(auto, unfolding(kishu_language::specs::reading::ReadExpressions::pair))]
    fn pair(&self, at: &mut usize, room: u32) -> Result<(Expr, Expr), Stop>
        ensures { Gives views.both_of (spec.pair (spec.phrase room) (left self.now.tokens.now at.old)) result (left self.now.tokens.now at.new) }
    {
        let key = self.nested(at, room, Phrase::Expr)?;
        self.expect(at, Mark::Colon)?;
        let value = self.nested(at, room, Phrase::Expr)?;
        Ok((key, value))
    }

    #[cycle(expressions)]
    #[tactic(auto, unfolding(kishu_language::specs::reading::ReadExpressions::trailer, kishu_language::specs::reading::ReadExpressions::attribute))]
    pub(crate) fn trailer(&self, at: &mut usize, room: u32) -> Result<Trailer, Stop>
        ensures { Gives tree_parts.trailer_of (spec.trailer (grammar.has_room room) (spec.phrase room) (left self.now.tokens.now at.old)) result (left self.now.tokens.now at.new) }
    {
        if self.sees(*at, Mark::Dot) {
            return self.attribute(at);
        }
        if !has_room(room) {
            return Err(Stop::Refused);
        }
        if self.sees(*at, Mark::LeftParenthesis) {
            self.call(at, room)
        } else {
            self.item_or_slice(at, room)
        }
    }

    #[cycle(expressions)]
    #[tactic(auto, using(kishu_language::specs::trees::Rows::call_is), unfolding(kishu_language::specs::reading::ReadExpressions::call))]
    fn call(&self, at: &mut usize, room: u32) -> Result<Trailer, Stop>
        ensures { Gives tree_parts.trailer_of (spec.call (spec.phrase room) (left self.now.tokens.now at.old)) result (left self.now.tokens.now at.new) }
    {
        self.expect(at, Mark::LeftParenthesis)?;
        let found = self.arguments(at, room)?;
        self.expect(at, Mark::RightParenthesis)?;
        if !arguments_fit(self.alloc, found.as_slice())? {
            return Err(Stop::Refused);
        }
        Ok(Trailer::Call(found))
    }

    #[cycle(expressions)]
    fn arguments(&self, at: &mut usize, room: u32) -> Result<Vec<Argument>, Stop>
        ensures { Gives views.arguments_in (spec.any_listed (spec.argument (spec.phrase room)) (left self.now.tokens.now at.old)) result (left self.now.tokens.now at.new) }
    {
        if !self.begins_expr(*at) {
            return Ok(Vec::new(self.alloc));
        }
        let first = self.argument(at, room)?;
        let all = self.more_arguments(at, room, first)?;
        if self.sees(*at, Mark::Comma) {
            self.expect(at, Mark::Comma)?;
        }
        Ok(all)
    }

    #[cycle(expressions)]
    fn more_arguments(
        &self,
        at: &mut usize,
        room: u32,
        first: Argument,
    ) -> Result<Vec<Argument>, Stop>
        ensures { Gives views.arguments_in (reader.turns (spec.another m.Comma) (turns.more_turn m.Comma (spec.argument (spec.phrase room))) (tree_parts.argument_of first ∷ []) (left self.now.tokens.now at.old)) result (left self.now.tokens.now at.new) }
    {
        let mut all = Vec::new(self.alloc);
        push_argument(&mut all, first)?;
        for _turn in 0..self.left(*at) {
            if !self.sees_another(*at, Mark::Comma) {
                return Ok(all);
            }
            self.expect(at, Mark::Comma)?;
            let next = self.argument(at, room)?;
            push_argument(&mut all, next)?;
        }
        Ok(all)
    }

    #[cycle(expressions)]
    #[tactic(auto, using(kishu_language::specs::trees::Rows::plain_is, kishu_language::specs::trees::Rows::keyword_is), unfolding(kishu_language::specs::reading::ReadExpressions::argument))]
    fn argument(&self, at: &mut usize, room: u32) -> Result<Argument, Stop>
        ensures { Gives tree_parts.argument_of (spec.argument (spec.phrase room) (left self.now.tokens.now at.old)) result (left self.now.tokens.now at.new) }
    {
        if !self.begins_keyword(*at) {
            let value = self.nested(at, room, Phrase::Expr)?;
            return Ok(Argument::Plain(value));
        }
        let name = self.name(at)?;
        self.expect(at, Mark::Assign)?;
        let value = self.nested(at, room, Phrase::Expr)?;
        Ok(Argument::Keyword(name, value))
    }

    #[cycle(expressions)]
    #[tactic(auto, unfolding(kishu_language::specs::reading::ReadExpressions::item_or_slice))]
    fn item_or_slice(&self, at: &mut usize, room: u32) -> Result<Trailer, Stop>
        ensures { Gives tree_parts.trailer_of (spec.item_or_slice (spec.phrase room) (left self.now.tokens.now at.old)) result (left self.now.tokens.now at.new) }
    {
        self.expect(at, Mark::LeftBracket)?;
        let found = self.between_brackets(at, room)?;
        self.expect(at, Mark::RightBracket)?;
        Ok(found)
    }

    #[cycle(expressions)]
    #[tactic(auto, using(kishu_language::specs::trees::Rows::index_is))]
    fn between_brackets(&self, at: &mut usize, room: u32) -> Result<Trailer, Stop>
        ensures { Gives tree_parts.trailer_of (turns.between_brackets (spec.phrase room) (left self.now.tokens.now at.old)) result (left self.now.tokens.now at.new) }
    {
        if self.sees(*at, Mark::Colon) {
            return self.slice_after(at, room, None);
        }
        let index = self.nested(at, room, Phrase::Exprs)?;
        if !self.sees(*at, Mark::Colon) {
            return Ok(Trailer::Index(index));
        }
        if is_several(&index) {
            return Err(Stop::Refused);
        }
        self.slice_after(at, room, Some(index))
    }

    #[cycle(expressions)]
    #[tactic(auto, using(kishu_language::specs::trees::Rows::slice_is), unfolding(kishu_language::specs::reading::ReadExpressions::slice_after))]
    fn slice_after(&self, at: &mut usize, room: u32, start: Option<Expr>) -> Result<Trailer, Stop>
        ensures { Gives tree_parts.trailer_of (spec.slice_after (spec.phrase room) (value_of start) (left self.now.tokens.now at.old)) result (left self.now.tokens.now at.new) }
    {
        self.expect(at, Mark::Colon)?;
        let stop = self.bound(at, room)?;
        let step = self.step(at, room)?;
        Ok(Trailer::Slice { start, stop, step })
    }

    #[cycle(expressions)]
    fn step(&self, at: &mut usize, room: u32) -> Result<Option<Expr>, Stop>
        ensures { Gives value_of (turns.step (spec.phrase room) (left self.now.tokens.now at.old)) result (left self.now.tokens.now at.new) }
    {
        if !self.sees(*at, Mark::Colon) {
            return Ok(None);
        }
        self.expect(at, Mark::Colon)?;
        self.bound(at, room)
    }

    #[cycle(expressions)]
    fn bound(&self, at: &mut usize, room: u32) -> Result<Option<Expr>, Stop>
        ensures { Gives value_of (spec.bound (spec.phrase room) (left self.now.tokens.now at.old)) result (left self.now.tokens.now at.new) }
    {
        if !self.begins_expr(*at) {
            return Ok(None);
        }
        let value = self.nested(at, room, Phrase::Expr)?;
        Ok(Some(value))
    }

    #[tactic(auto, using(kishu_language::specs::trees::Rows::name_is))]
    fn name_atom(&self, at: &mut usize) -> Result<Expr, Stop>
        ensures { Gives expression_of (spec.name (left self.now.tokens.now at.old)) result (left self.now.tokens.now at.new) }
    {
        let name = self.name(at)?;
        Ok(Expr::Name(name))
    }

    #[tactic(auto, using(kishu_language::specs::trees::Rows::int_is))]
    fn integer_atom(&self, at: &mut usize) -> Result<Expr, Stop>
        ensures { Gives expression_of (spec.integer (left self.now.tokens.now at.old)) result (left self.now.tokens.now at.new) }
    {
        let value = self.integer(at)?;
        Ok(Expr::Int(value))
    }

    #[tactic(auto, using(kishu_language::specs::trees::Rows::text_is))]
    fn text_atom(&self, at: &mut usize) -> Result<Expr, Stop>
        ensures { Gives expression_of (spec.text (left self.now.tokens.now at.old)) result (left self.now.tokens.now at.new) }
    {
        let first = self.text(at)?;
        let parts = self.more_texts(at, first)?;
        let text = joined(self.alloc, parts.as_slice())?;
        Ok(Expr::Text(text))
    }

    fn more_texts(&self, at: &mut usize, first: RcStr) -> Result<Vec<RcStr>, Stop>
        ensures { Gives views.texts_in (reader.turns (reader.sees_some reader.a_text) (reader.one_more (reader.token reader.a_text)) (rc_str_bytes first ∷ []) (left self.now.tokens.now at.old)) result (left self.now.tokens.now at.new) }
    {
        let mut all = Vec::new(self.alloc);
        push_text(&mut all, first)?;
        for _turn in 0..self.left(*at) {
            if !self.sees_text(*at) {
                return Ok(all);
            }
            let next = self.text(at)?;
            push_text(&mut all, next)?;
        }
        Ok(all)
    }

    fn constant(&self, at: &mut usize) -> Result<Expr, Stop>
        ensures { Gives expression_of (reader.one_of grammar.constant_of (left self.now.tokens.now at.old)) result (left self.now.tokens.now at.new) }
    {
        match constant(self.mark(*at)) {
            Some(constant) => {
                self.skip(at);
                Ok(constant)
            }
            None => Err(Stop::Refused),
        }
    }

    #[tactic(auto, using(kishu_language::specs::trees::Rows::attribute_is), unfolding(kishu_language::specs::reading::ReadExpressions::attribute))]
    fn attribute(&self, at: &mut usize) -> Result<Trailer, Stop>
        ensures { Gives tree_parts.trailer_of (turns.attribute (left self.now.tokens.now at.old)) result (left self.now.tokens.now at.new) }
    {
        self.expect(at, Mark::Dot)?;
        let name = self.name(at)?;
        Ok(Trailer::Attribute(name))
    }
}

#[tactic(auto, using(kishu_language::specs::trees::Rows::none_is, kishu_language::specs::trees::Rows::true_is, kishu_language::specs::trees::Rows::false_is))]
fn constant(mark: Option<Mark>) -> Option<Expr>
    ensures { value_of result ≡ by_table grammar.constant_of mark }
{
    match mark {
        Some(Mark::None) => Some(Expr::None),
        Some(Mark::True) => Some(Expr::True),
        Some(Mark::False) => Some(Expr::False),
        _ => None,
    }
}
