// Expressions, level by level.
ghost use Rattle.std.specs.Prelude.{◌≡◌, [], ◌∷◌};
ghost use Rattle.kishu_language.specs.declared.token.Mark.TheVariants as m;
ghost use Rattle.kishu_language.specs.trees.Tree.{expression_of};
ghost use Rattle.kishu_language.specs.grammar.Grammar as grammar;
ghost use Rattle.kishu_language.specs.reading.Reader as reader;
ghost use Rattle.kishu_language.specs.reading.ReadExpressions as spec;
ghost use Rattle.kishu_parser.specs.Views.{left, Gives};
ghost use Rattle.kishu_parser.specs.Trees as views;
ghost use Rattle.kishu_parser.specs.Turns as turns;

use crate::cursor::{Parser, Stop};
use crate::joins::{
    all_of, alone, any_of, compared, conditional, multiplied, negated, power, push_link,
    push_operand, signed, summed, with_trailers,
};
use crate::pushes::{push_expr, push_joined, push_trailer};
use kishu_language::{Comparison, Expr, Link, Mark, Operand, Trailer};

/// What may stand one nesting deeper.
#[derive(Clone, Copy)]
pub(crate) enum Phrase {
    Exprs,
    Expr,
    Negated,
    Unary,
}

impl<'a> Parser<'a> {
    /// A phrase with so many nestings, its own among them.
    #[cycle(expressions)]
    pub(crate) fn nested(&self, at: &mut usize, room: u32, phrase: Phrase) -> Result<Expr, Stop>
        ensures { Gives expression_of (spec.phrase room (views.phrase_of phrase) (left self.now.tokens.now at.old)) result (left self.now.tokens.now at.new) }
    {
        if room == 0 {
            return Err(Stop::Refused);
        }
        match phrase {
            Phrase::Exprs => self.exprs_level(at, room - 1),
            Phrase::Expr => self.expr_level(at, room - 1),
            Phrase::Negated => self.negated_level(at, room - 1),
            Phrase::Unary => self.unary_level(at, room - 1),
        }
    }

    #[cycle(expressions)]
    #[tactic(auto, using(kishu_language::specs::trees::Rows::tuple_is), unfolding(kishu_language::specs::reading::ReadExpressions::exprs_level))]
    fn exprs_level(&self, at: &mut usize, room: u32) -> Result<Expr, Stop>
        ensures { Gives expression_of (spec.exprs_level (grammar.has_room room) (spec.phrase room) (left self.now.tokens.now at.old)) result (left self.now.tokens.now at.new) }
    {
        let first = self.expr_level(at, room)?;
        let all = self.more_exprs(at, room, first)?;
        if !self.sees(*at, Mark::Comma) {
            return Ok(alone(all));
        }
        self.expect(at, Mark::Comma)?;
        Ok(Expr::Tuple(all))
    }

    #[cycle(expressions)]
    fn more_exprs(&self, at: &mut usize, room: u32, first: Expr) -> Result<Vec<Expr>, Stop>
        ensures { Gives views.expressions_in (reader.turns (spec.another m.Comma) (turns.more_turn m.Comma (spec.expr_level (grammar.has_room room) (spec.phrase room))) (expression_of first ∷ []) (left self.now.tokens.now at.old)) result (left self.now.tokens.now at.new) }
    {
        let mut all = Vec::new(self.alloc);
        push_expr(&mut all, first)?;
        for _turn in 0..self.left(*at) {
            if !self.sees_another(*at, Mark::Comma) {
                return Ok(all);
            }
            self.expect(at, Mark::Comma)?;
            let next = self.expr_level(at, room)?;
            push_expr(&mut all, next)?;
        }
        Ok(all)
    }

    #[cycle(expressions)]
    #[tactic(auto, unfolding(kishu_language::specs::reading::ReadExpressions::expr_level))]
    fn expr_level(&self, at: &mut usize, room: u32) -> Result<Expr, Stop>
        ensures { Gives expression_of (spec.expr_level (grammar.has_room room) (spec.phrase room) (left self.now.tokens.now at.old)) result (left self.now.tokens.now at.new) }
    {
        let value = self.disjunction(at, room)?;
        if !self.sees(*at, Mark::If) {
            return Ok(value);
        }
        self.expect(at, Mark::If)?;
        let test = self.disjunction(at, room)?;
        self.expect(at, Mark::Else)?;
        let other = self.nested(at, room, Phrase::Expr)?;
        Ok(conditional(self.alloc, value, test, other)?)
    }

    #[cycle(expressions)]
    #[tactic(auto, unfolding(kishu_language::specs::reading::ReadExpressions::disjunction))]
    fn disjunction(&self, at: &mut usize, room: u32) -> Result<Expr, Stop>
        ensures { Gives expression_of (spec.disjunction (grammar.has_room room) (spec.phrase room) (left self.now.tokens.now at.old)) result (left self.now.tokens.now at.new) }
    {
        let first = self.conjunction(at, room)?;
        let following = self.conjunctions(at, room)?;
        Ok(any_of(first, following)?)
    }

    #[cycle(expressions)]
    fn conjunctions(&self, at: &mut usize, room: u32) -> Result<Vec<Expr>, Stop>
        ensures { Gives views.joined_in (reader.many (reader.sees m.Or) (spec.operation (spec.conjunction (grammar.has_room room) (spec.phrase room)) (reader.mark m.Or)) (left self.now.tokens.now at.old)) result (left self.now.tokens.now at.new) }
    {
        let mut all = Vec::new(self.alloc);
        for _turn in 0..self.left(*at) {
            if !self.sees(*at, Mark::Or) {
                return Ok(all);
            }
            self.expect(at, Mark::Or)?;
            let next = self.conjunction(at, room)?;
            push_joined(&mut all, next)?;
        }
        Ok(all)
    }

    #[cycle(expressions)]
    #[tactic(auto, unfolding(kishu_language::specs::reading::ReadExpressions::conjunction))]
    fn conjunction(&self, at: &mut usize, room: u32) -> Result<Expr, Stop>
        ensures { Gives expression_of (spec.conjunction (grammar.has_room room) (spec.phrase room) (left self.now.tokens.now at.old)) result (left self.now.tokens.now at.new) }
    {
        let first = self.negated_level(at, room)?;
        let following = self.negations(at, room)?;
        Ok(all_of(first, following)?)
    }

    #[cycle(expressions)]
    fn negations(&self, at: &mut usize, room: u32) -> Result<Vec<Expr>, Stop>
        ensures { Gives views.joined_in (reader.many (reader.sees m.And) (spec.operation (spec.negated_level (grammar.has_room room) (spec.phrase room)) (reader.mark m.And)) (left self.now.tokens.now at.old)) result (left self.now.tokens.now at.new) }
    {
        let mut all = Vec::new(self.alloc);
        for _turn in 0..self.left(*at) {
            if !self.sees(*at, Mark::And) {
                return Ok(all);
            }
            self.expect(at, Mark::And)?;
            let next = self.negated_level(at, room)?;
            push_joined(&mut all, next)?;
        }
        Ok(all)
    }

    #[cycle(expressions)]
    #[tactic(auto, unfolding(kishu_language::specs::reading::ReadExpressions::negated_level))]
    fn negated_level(&self, at: &mut usize, room: u32) -> Result<Expr, Stop>
        ensures { Gives expression_of (spec.negated_level (grammar.has_room room) (spec.phrase room) (left self.now.tokens.now at.old)) result (left self.now.tokens.now at.new) }
    {
        if !self.sees(*at, Mark::Not) {
            return self.compared(at, room);
        }
        self.expect(at, Mark::Not)?;
        let operand = self.nested(at, room, Phrase::Negated)?;
        Ok(negated(self.alloc, operand)?)
    }

    #[cycle(expressions)]
    #[tactic(auto, unfolding(kishu_language::specs::reading::ReadExpressions::compared))]
    fn compared(&self, at: &mut usize, room: u32) -> Result<Expr, Stop>
        ensures { Gives expression_of (spec.compared (grammar.has_room room) (spec.phrase room) (left self.now.tokens.now at.old)) result (left self.now.tokens.now at.new) }
    {
        let first = self.sum(at, room)?;
        let links = self.links(at, room)?;
        Ok(compared(self.alloc, first, links)?)
    }

    #[cycle(expressions)]
    fn links(&self, at: &mut usize, room: u32) -> Result<Vec<Link>, Stop>
        ensures { Gives views.links_in (reader.many (reader.sees_one spec.begins_comparison) (spec.operation (spec.sum (grammar.has_room room) (spec.phrase room)) spec.comparison) (left self.now.tokens.now at.old)) result (left self.now.tokens.now at.new) }
    {
        let mut links = Vec::new(self.alloc);
        for _turn in 0..self.left(*at) {
            if !self.begins_comparison(*at) {
                return Ok(links);
            }
            let comparison = self.comparison(at)?;
            let value = self.sum(at, room)?;
            push_link(&mut links, comparison, value)?;
        }
        Ok(links)
    }

    #[cycle(expressions)]
    #[tactic(auto, unfolding(kishu_language::specs::reading::ReadExpressions::sum))]
    fn sum(&self, at: &mut usize, room: u32) -> Result<Expr, Stop>
        ensures { Gives expression_of (spec.sum (grammar.has_room room) (spec.phrase room) (left self.now.tokens.now at.old)) result (left self.now.tokens.now at.new) }
    {
        let first = self.term(at, room)?;
        let following = self.terms(at, room)?;
        Ok(summed(self.alloc, first, following)?)
    }

    #[cycle(expressions)]
    fn terms(&self, at: &mut usize, room: u32) -> Result<Vec<Operand>, Stop>
        ensures { Gives views.operands_in (reader.many (reader.sees_one grammar.sum_operator) (spec.operation (spec.term (grammar.has_room room) (spec.phrase room)) (reader.one_of grammar.sum_operator)) (left self.now.tokens.now at.old)) result (left self.now.tokens.now at.new) }
    {
        let mut all = Vec::new(self.alloc);
        for _turn in 0..self.left(*at) {
            let Some(operator) = self.sum_operator(*at) else {
                return Ok(all);
            };
            self.skip(at);
            let value = self.term(at, room)?;
            push_operand(&mut all, operator, value)?;
        }
        Ok(all)
    }

    #[cycle(expressions)]
    #[tactic(auto, unfolding(kishu_language::specs::reading::ReadExpressions::term))]
    fn term(&self, at: &mut usize, room: u32) -> Result<Expr, Stop>
        ensures { Gives expression_of (spec.term (grammar.has_room room) (spec.phrase room) (left self.now.tokens.now at.old)) result (left self.now.tokens.now at.new) }
    {
        let first = self.unary_level(at, room)?;
        let following = self.factors(at, room)?;
        Ok(multiplied(self.alloc, first, following)?)
    }

    #[cycle(expressions)]
    fn factors(&self, at: &mut usize, room: u32) -> Result<Vec<Operand>, Stop>
        ensures { Gives views.operands_in (reader.many (reader.sees_one grammar.product_operator) (spec.operation (spec.unary_level (grammar.has_room room) (spec.phrase room)) (reader.one_of grammar.product_operator)) (left self.now.tokens.now at.old)) result (left self.now.tokens.now at.new) }
    {
        let mut all = Vec::new(self.alloc);
        for _turn in 0..self.left(*at) {
            let Some(operator) = self.product_operator(*at) else {
                return Ok(all);
            };
            self.skip(at);
            let value = self.unary_level(at, room)?;
            push_operand(&mut all, operator, value)?;
        }
        Ok(all)
    }

    #[cycle(expressions)]
    #[tactic(auto, unfolding(kishu_language::specs::reading::ReadExpressions::unary_level))]
    fn unary_level(&self, at: &mut usize, room: u32) -> Result<Expr, Stop>
        ensures { Gives expression_of (spec.unary_level (grammar.has_room room) (spec.phrase room) (left self.now.tokens.now at.old)) result (left self.now.tokens.now at.new) }
    {
        let Some(sign) = self.sign(*at) else {
            return self.power(at, room);
        };
        self.skip(at);
        let operand = self.nested(at, room, Phrase::Unary)?;
        Ok(signed(self.alloc, sign, operand)?)
    }

    #[cycle(expressions)]
    #[tactic(auto, unfolding(kishu_language::specs::reading::ReadExpressions::power))]
    fn power(&self, at: &mut usize, room: u32) -> Result<Expr, Stop>
        ensures { Gives expression_of (spec.power (grammar.has_room room) (spec.phrase room) (left self.now.tokens.now at.old)) result (left self.now.tokens.now at.new) }
    {
        let base = self.primary(at, room)?;
        if !self.sees(*at, Mark::Power) {
            return Ok(base);
        }
        self.expect(at, Mark::Power)?;
        let exponent = self.nested(at, room, Phrase::Unary)?;
        Ok(power(self.alloc, base, exponent)?)
    }

    #[cycle(expressions)]
    #[tactic(auto, unfolding(kishu_language::specs::reading::ReadExpressions::primary, kishu_language::specs::reading::ReadExpressions::primary_parts))]
    pub(crate) fn primary(&self, at: &mut usize, room: u32) -> Result<Expr, Stop>
        ensures { Gives expression_of (spec.primary (grammar.has_room room) (spec.phrase room) (left self.now.tokens.now at.old)) result (left self.now.tokens.now at.new) }
    {
        let first = self.atom(at, room)?;
        let found = self.trailers(at, room)?;
        Ok(with_trailers(self.alloc, first, found)?)
    }

    #[cycle(expressions)]
    fn trailers(&self, at: &mut usize, room: u32) -> Result<Vec<Trailer>, Stop>
        ensures { Gives views.trailers_in (reader.many (reader.sees_one spec.begins_trailer) (spec.trailer (grammar.has_room room) (spec.phrase room)) (left self.now.tokens.now at.old)) result (left self.now.tokens.now at.new) }
    {
        let mut all = Vec::new(self.alloc);
        for _turn in 0..self.left(*at) {
            if !self.begins_trailer(*at) {
                return Ok(all);
            }
            let next = self.trailer(at, room)?;
            push_trailer(&mut all, next)?;
        }
        Ok(all)
    }

    /// An operator between operands that are compared.
    fn comparison(&self, at: &mut usize) -> Result<Comparison, Stop>
        ensures { Gives (λ c. c) (spec.comparison (left self.now.tokens.now at.old)) result (left self.now.tokens.now at.new) }
    {
        if self.sees(*at, Mark::Not) {
            self.expect(at, Mark::Not)?;
            self.expect(at, Mark::In)?;
            return Ok(Comparison::NotIn);
        }
        if self.sees(*at, Mark::Is) {
            return self.comparison_is(at);
        }
        match self.comparison_mark(*at) {
            Some(comparison) => {
                self.skip(at);
                Ok(comparison)
            }
            None => Err(Stop::Refused),
        }
    }

    fn comparison_is(&self, at: &mut usize) -> Result<Comparison, Stop>
        ensures { Gives (λ c. c) (turns.comparison_is (left self.now.tokens.now at.old)) result (left self.now.tokens.now at.new) }
    {
        self.expect(at, Mark::Is)?;
        if !self.sees(*at, Mark::Not) {
            return Ok(Comparison::Is);
        }
        self.expect(at, Mark::Not)?;
        Ok(Comparison::IsNot)
    }
}
