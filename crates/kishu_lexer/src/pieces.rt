// The pieces of a text.
ghost use Rattle.std.specs.Prelude.{◌≡◌, ◌<◌, ◌≤◌, ◌^◌, ◌==◌, length, drop, slice_index, true, IfOk, IfSome};
ghost use Rattle.std.specs.List.{prefix_len, position};
ghost use Rattle.kishu_language.specs.tokens.Numerals as numerals;
ghost use Rattle.kishu_language.specs.tokens.Marks as marks;
ghost use Rattle.kishu_language.specs.tokens.Quoted as texts;
ghost use Rattle.std.specs.String.{string_bytes};
ghost use Rattle.kishu_language.specs.tokens.Lexemes as spec;
ghost use Rattle.kishu_lexer.specs.Views.{is_in, seen, cut_of};

use crate::lines::{at, feeds};
use crate::marks::operator;
use crate::numerals::numeral;
use crate::quoted::quoted;
use kishu_language::Mark;
use std::alloc::{AllocError, Global};

/// A piece of a text.
#[derive(Drop)]
pub(crate) enum Lexeme<'a> {
    Blank(&'a [char]),
    Comment,
    /// A comment in which a character of code 0 stands.
    BadComment,
    Joined,
    Feed,
    Word(&'a [char]),
    Number(i128),
    Text(String),
    Sign(Mark),
    /// A fault, so many lines below the piece's first.
    Bad(usize),
}

// A piece, and how many characters it takes.
type Cut<'a> = (Lexeme<'a>, usize);

/// A class of characters.
#[derive(Clone, Copy)]
pub(crate) enum Class {
    Blank,
    Letter,
    Digit,
    Word,
    Line,
    Quote,
    Raw,
    Prefix,
}

fn is_in(class: Class, c: char) -> bool
    ensures { result ≡ is_in class c }
{
    match class {
        Class::Blank => c == ' ' || c == '\t',
        Class::Letter => c.is_ascii_alphabetic() || c == '_',
        Class::Digit => c.is_ascii_digit(),
        Class::Word => c.is_ascii_alphabetic() || c == '_' || c.is_ascii_digit(),
        Class::Line => c != '\n',
        Class::Quote => c == '\'' || c == '"',
        Class::Raw => c == 'r' || c == 'R',
        Class::Prefix => c == 'r' || c == 'R' || c == 'u' || c == 'U',
    }
}

// How many characters of the class come first.
fn run(class: Class, text: &[char]) -> usize
    ensures value { result ≡ prefix_len (is_in class) text.now }
    ensures some { 0 < length text.now → is_in class (slice_index text.now 0) ≡ true → 0 < result }
    ensures within { result ≤ length text.now }
{
    text.iter().take_while(|c| is_in(class, **c)).count()
}

fn null_place(text: &[char]) -> Option<usize>
    ensures { result ≡ position (λ c. c == 0) text.now }
{
    text.iter().position(|c| *c == '\0')
}

// A piece, but a fault where a character of code 0 stands in it.
fn unless_null<'a>(taken: &[char], piece: Lexeme<'a>) -> Lexeme<'a>
    ensures { seen result ≡ spec.unless_null taken.now (seen piece.entry) }
{
    match null_place(taken) {
        Some(place) => Lexeme::Bad(feeds(&taken[..place])),
        None => piece,
    }
}

fn name(letters: &[char]) -> Cut<'_>
    ensures value { cut_of result ≡ spec.name letters.now (length letters.now) }
    ensures taken { result.1 ≡ length letters.now }
{
    if letters.len() <= 255 {
        (Lexeme::Word(letters), letters.len())
    } else {
        (Lexeme::Bad(0), letters.len())
    }
}

fn number(word: &[char], next: char) -> Lexeme<'static>
    ensures { seen result ≡ spec.value_or_bad next (numerals.numeral word.now) }
{
    match numeral(word) {
        Some(value) => {
            if next == '.' {
                Lexeme::Bad(0)
            } else {
                Lexeme::Number(value)
            }
        }
        None => Lexeme::Bad(0),
    }
}

fn sign(all: &[char]) -> Cut<'_>
    requires { 0 < length all.now }
    ensures value { cut_of result ≡ spec.sign_or_bad (marks.operator (slice_index all.now 0) (slice_index all.now 1) (slice_index all.now 2)) }
    ensures some { 0 < result.1 }
    ensures within { result.1 ≤ length all.now }
{
    match operator(all[0], at(all, 1), at(all, 2)) {
        Some((mark, n)) => (Lexeme::Sign(mark), n),
        None => (Lexeme::Bad(0), 1),
    }
}

// A text after a prefix of that many characters.
fn text(alloc: Global, before: usize, is_raw: bool, all: &[char]) -> Result<Cut<'_>, AllocError>
    requires before { before < length all.now }
    requires quote { 0 < slice_index (drop before all.now) 0 }
    requires room { length all.now < 2 ^ 60 }
    ensures value { IfOk result (λ r. cut_of r ≡ spec.text_from before all.now (texts.quoted is_raw (drop before all.now))) }
    ensures some { IfOk result (λ r. 0 < r.1) }
    ensures within { IfOk result (λ r. r.1 ≤ length all.now) }
{
    match quoted(alloc, is_raw, &all[before..])? {
        Some((value, n)) => {
            let len = before + n;
            Ok((unless_null(&all[..len], Lexeme::Text(value)), len))
        }
        None => Ok((Lexeme::Bad(0), 1)),
    }
}

fn remark(all: &[char]) -> Cut<'_>
    requires begins { is_in Class.Line (slice_index all.now 0) ≡ true }
    requires some { 0 < length all.now }
    ensures value { cut_of result ≡ spec.remark all.now }
    ensures some { 0 < result.1 }
    ensures within { result.1 ≤ length all.now }
{
    let n = run(Class::Line, all);
    match null_place(&all[..n]) {
        Some(_) => (Lexeme::BadComment, n),
        None => (Lexeme::Comment, n),
    }
}

fn after_backslash(all: &[char]) -> Cut<'_>
    requires { 0 < length all.now }
    ensures value { cut_of result ≡ spec.after_backslash (slice_index all.now 1) }
    ensures some { 0 < result.1 }
    ensures within { result.1 ≤ length all.now }
{
    if at(all, 1) == '\n' {
        (Lexeme::Joined, 2)
    } else {
        (Lexeme::Bad(0), 1)
    }
}

fn letters(all: &[char]) -> Cut<'_>
    requires begins { is_in Class.Word (slice_index all.now 0) ≡ true }
    requires some { 0 < length all.now }
    ensures value { cut_of result ≡ spec.letters all.now }
    ensures some { 0 < result.1 }
    ensures within { result.1 ≤ length all.now }
{
    let n = run(Class::Word, all);
    name(&all[..n])
}

fn digits(all: &[char]) -> Cut<'_>
    requires begins { is_in Class.Word (slice_index all.now 0) ≡ true }
    requires some { 0 < length all.now }
    ensures value { cut_of result ≡ spec.digits all.now }
    ensures some { 0 < result.1 }
    ensures within { result.1 ≤ length all.now }
{
    let n = run(Class::Word, all);
    (number(&all[..n], at(all, n)), n)
}

fn blanks(all: &[char]) -> Cut<'_>
    requires begins { is_in Class.Blank (slice_index all.now 0) ≡ true }
    requires some { 0 < length all.now }
    ensures value { cut_of result ≡ spec.blanks all.now }
    ensures some { 0 < result.1 }
    ensures within { result.1 ≤ length all.now }
{
    let n = run(Class::Blank, all);
    (Lexeme::Blank(&all[..n]), n)
}

// A text, a word, a number or a mark at the front.
#[tactic(auto, unfolding(kishu_language::specs::tokens::Lexemes::token_piece))]
fn token(alloc: Global, all: &[char]) -> Result<Cut<'_>, AllocError>
    requires some { 0 < length all.now }
    requires room { length all.now < 2 ^ 60 }
    ensures value { IfOk result (λ r. cut_of r ≡ spec.token_piece all.now) }
    ensures some { IfOk result (λ r. 0 < r.1) }
    ensures within { IfOk result (λ r. r.1 ≤ length all.now) }
{
    let c = all[0];
    if is_in(Class::Quote, c) {
        text(alloc, 0, false, all)
    } else if is_in(Class::Prefix, c) && is_in(Class::Quote, at(all, 1)) {
        text(alloc, 1, is_in(Class::Raw, c), all)
    } else if is_in(Class::Letter, c) {
        Ok(letters(all))
    } else if is_in(Class::Digit, c) {
        Ok(digits(all))
    } else {
        Ok(sign(all))
    }
}

/// The piece at the front of a text, and how many characters it takes.
#[tactic(auto, unfolding(kishu_language::specs::tokens::Lexemes::lexeme))]
pub(crate) fn piece(alloc: Global, all: &[char]) -> Result<Cut<'_>, AllocError>
    requires some { 0 < length all.now }
    requires room { length all.now < 2 ^ 60 }
    ensures value { IfOk result (λ r. cut_of r ≡ spec.lexeme all.now) }
    ensures some { IfOk result (λ r. 0 < r.1) }
    ensures within { IfOk result (λ r. r.1 ≤ length all.now) }
{
    let c = all[0];
    if is_in(Class::Blank, c) {
        Ok(blanks(all))
    } else if c == '\n' {
        Ok((Lexeme::Feed, 1))
    } else if c == '#' {
        Ok(remark(all))
    } else if c == '\\' {
        Ok(after_backslash(all))
    } else {
        token(alloc, all)
    }
}
