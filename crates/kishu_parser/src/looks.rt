// What the next tokens begin.
ghost use Rattle.std.specs.Prelude.{◌≡◌, is_some};
ghost use Rattle.kishu_language.specs.grammar.Grammar as grammar;
ghost use Rattle.kishu_language.specs.grammar.Statements as statements;
ghost use Rattle.kishu_language.specs.reading.Reader as reader;
ghost use Rattle.kishu_language.specs.reading.ReadExpressions as spec;
ghost use Rattle.kishu_language.specs.reading.ReadStatements as lines;
ghost use Rattle.kishu_parser.specs.Views.{left, by_table};

use crate::cursor::Parser;
use kishu_language::{Comparison, Mark, Operator, Sign};

fn begins_operand(mark: Mark) -> bool
    ensures { result ≡ spec.begins_operand mark }
{
    matches!(
        mark,
        Mark::None
            | Mark::True
            | Mark::False
            | Mark::LeftParenthesis
            | Mark::LeftBracket
            | Mark::LeftBrace
    )
}

fn begins_unary(mark: Mark) -> bool
    ensures { result ≡ spec.begins_unary mark }
{
    matches!(mark, Mark::Plus | Mark::Minus) || begins_operand(mark)
}

fn begins_expr(mark: Mark) -> bool
    ensures { result ≡ spec.begins_expr mark }
{
    mark == Mark::Not || begins_unary(mark)
}

fn sum_operator(mark: Option<Mark>) -> Option<Operator>
    ensures { result ≡ by_table grammar.sum_operator mark }
{
    match mark {
        Some(Mark::Plus) => Some(Operator::Add),
        Some(Mark::Minus) => Some(Operator::Subtract),
        _ => None,
    }
}

fn product_operator(mark: Option<Mark>) -> Option<Operator>
    ensures { result ≡ by_table grammar.product_operator mark }
{
    match mark {
        Some(Mark::Star) => Some(Operator::Multiply),
        Some(Mark::FloorDivide) => Some(Operator::FloorDivide),
        Some(Mark::Percent) => Some(Operator::Modulo),
        _ => None,
    }
}

fn update_operator(mark: Option<Mark>) -> Option<Operator>
    ensures { result ≡ by_table statements.update_operator mark }
{
    match mark {
        Some(Mark::PlusAssign) => Some(Operator::Add),
        Some(Mark::MinusAssign) => Some(Operator::Subtract),
        Some(Mark::StarAssign) => Some(Operator::Multiply),
        Some(Mark::FloorDivideAssign) => Some(Operator::FloorDivide),
        Some(Mark::PercentAssign) => Some(Operator::Modulo),
        Some(Mark::PowerAssign) => Some(Operator::Power),
        _ => None,
    }
}

fn sign(mark: Option<Mark>) -> Option<Sign>
    ensures { result ≡ by_table grammar.sign mark }
{
    match mark {
        Some(Mark::Plus) => Some(Sign::Plus),
        Some(Mark::Minus) => Some(Sign::Minus),
        _ => None,
    }
}

fn comparison_mark(mark: Option<Mark>) -> Option<Comparison>
    ensures { result ≡ by_table grammar.comparison_mark mark }
{
    match mark {
        Some(Mark::Less) => Some(Comparison::Less),
        Some(Mark::LessEqual) => Some(Comparison::LessEqual),
        Some(Mark::Greater) => Some(Comparison::Greater),
        Some(Mark::GreaterEqual) => Some(Comparison::GreaterEqual),
        Some(Mark::Equal) => Some(Comparison::Equal),
        Some(Mark::NotEqual) => Some(Comparison::NotEqual),
        Some(Mark::In) => Some(Comparison::In),
        _ => None,
    }
}

fn begins_comparison(mark: Option<Mark>) -> bool
    ensures { result ≡ is_some (by_table spec.begins_comparison mark) }
{
    match mark {
        Some(mark) => matches!(
            mark,
            Mark::Not
                | Mark::Is
                | Mark::Less
                | Mark::LessEqual
                | Mark::Greater
                | Mark::GreaterEqual
                | Mark::Equal
                | Mark::NotEqual
                | Mark::In
        ),
        None => false,
    }
}

fn begins_trailer(mark: Option<Mark>) -> bool
    ensures { result ≡ is_some (by_table spec.begins_trailer mark) }
{
    match mark {
        Some(mark) => matches!(mark, Mark::Dot | Mark::LeftParenthesis | Mark::LeftBracket),
        None => false,
    }
}

fn begins_compound(mark: Option<Mark>) -> bool
    ensures { result ≡ is_some (by_table lines.begins_compound mark) }
{
    match mark {
        Some(mark) => matches!(
            mark,
            Mark::If | Mark::While | Mark::For | Mark::Try | Mark::Def
        ),
        None => false,
    }
}

impl<'a> Parser<'a> {
    /// Whether an expression begins here.
    #[tactic(auto, using(crate::proofs::Fronts::begins_front))]
    pub(crate) fn begins_expr(&self, at: usize) -> bool
        ensures { result ≡ spec.expr_begins (left self.now.tokens.now at) }
    {
        match self.mark(at) {
            Some(mark) => begins_expr(mark),
            None => self.sees_name(at) || self.sees_integer(at) || self.sees_text(at),
        }
    }

    /// Whether a mark stands here, and behind it begins an expression.
    #[tactic(auto, unfolding(kishu_language::specs::reading::ReadExpressions::another))]
    pub(crate) fn sees_another(&self, at: usize, by: Mark) -> bool
        ensures { result ≡ spec.another by (left self.now.tokens.now at) }
    {
        let mut next = at;
        self.skip(&mut next);
        self.sees(at, by) && self.begins_expr(next)
    }

    /// Whether `;` stands here, and the line goes on behind it.
    #[tactic(auto, unfolding(kishu_language::specs::reading::ReadStatements::another_simple))]
    pub(crate) fn sees_another_simple(&self, at: usize) -> bool
        ensures { result ≡ lines.another_simple (left self.now.tokens.now at) }
    {
        let mut next = at;
        self.skip(&mut next);
        self.sees(at, Mark::Semicolon) && !self.sees_newline(next)
    }

    /// Whether a name and `=` stand here.
    #[tactic(auto, unfolding(kishu_language::specs::reading::ReadExpressions::keyword_begins))]
    pub(crate) fn begins_keyword(&self, at: usize) -> bool
        ensures { result ≡ spec.keyword_begins (left self.now.tokens.now at) }
    {
        let mut next = at;
        self.skip(&mut next);
        self.sees_name(at) && self.sees(next, Mark::Assign)
    }

    pub(crate) fn sum_operator(&self, at: usize) -> Option<Operator>
        ensures { result ≡ reader.next (reader.in_table grammar.sum_operator) (left self.now.tokens.now at) }
    {
        sum_operator(self.mark(at))
    }

    pub(crate) fn product_operator(&self, at: usize) -> Option<Operator>
        ensures { result ≡ reader.next (reader.in_table grammar.product_operator) (left self.now.tokens.now at) }
    {
        product_operator(self.mark(at))
    }

    pub(crate) fn update_operator(&self, at: usize) -> Option<Operator>
        ensures { result ≡ reader.next (reader.in_table statements.update_operator) (left self.now.tokens.now at) }
    {
        update_operator(self.mark(at))
    }

    pub(crate) fn sign(&self, at: usize) -> Option<Sign>
        ensures { result ≡ reader.next (reader.in_table grammar.sign) (left self.now.tokens.now at) }
    {
        sign(self.mark(at))
    }

    pub(crate) fn comparison_mark(&self, at: usize) -> Option<Comparison>
        ensures { result ≡ reader.next (reader.in_table grammar.comparison_mark) (left self.now.tokens.now at) }
    {
        comparison_mark(self.mark(at))
    }

    pub(crate) fn begins_comparison(&self, at: usize) -> bool
        ensures { result ≡ reader.sees_one spec.begins_comparison (left self.now.tokens.now at) }
    {
        begins_comparison(self.mark(at))
    }

    pub(crate) fn begins_trailer(&self, at: usize) -> bool
        ensures { result ≡ reader.sees_one spec.begins_trailer (left self.now.tokens.now at) }
    {
        begins_trailer(self.mark(at))
    }

    pub(crate) fn begins_compound(&self, at: usize) -> bool
        ensures { result ≡ reader.sees_one lines.begins_compound (left self.now.tokens.now at) }
    {
        begins_compound(self.mark(at))
    }
}
