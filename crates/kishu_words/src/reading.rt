// From words to a command.
ghost use Rattle.std.specs.Prelude.{◌≡◌, ◌||◌, IfOk, false, Ok, None};
ghost use Rattle.std.specs.List.{list_all};
ghost use Rattle.std.specs.Str.{bytes_eq};
ghost use Rattle.kishu_words.specs.Words.{Line, texts, is_flag, is_plain, is_word, alone_form, one_form, two_form, gen_form, form_at, form_behind, form_of, form_with};
ghost use Rattle.kishu_words.specs.Commands.{form_found, words_in};
ghost use Rattle.kishu_words.specs.Parses.{Tells};

use crate::Command;
use crate::line::parse;
use crate::number::number_within;
use clap::ArgMatches;
use std::alloc::{AllocError, Global};
use std::rc::RcStr;

fn is(word: &str, name: &str) -> bool
    ensures { result ≡ bytes_eq word.now name.now }
{
    word == name
}

fn is_plain(word: &str) -> bool
    ensures { result ≡ is_plain word.now }
{
    match word.as_bytes() {
        [] => false,
        [first, ..] => *first != b'-',
    }
}

fn is_word(word: &str) -> bool
    ensures { result ≡ is_word word.now }
{
    is(word, "--together") || is_plain(word)
}

fn are_words(words: &[String]) -> bool
    ensures { result ≡ list_all is_word (texts words.now) }
{
    words.iter().all(|word| is_word(word.as_str()))
}

/// The command of this name, with no word behind it.
fn alone(command: &str, together: bool) -> Option<Command>
    ensures { form_found result ≡ alone_form together command.now }
{
    if is(command, "run") {
        return Some(Command::Run { together });
    }
    if together {
        return None;
    }
    if is(command, "session") {
        return Some(Command::Session);
    }
    if is(command, "cell") {
        return Some(Command::Cell);
    }
    if is(command, "log") {
        return Some(Command::Log);
    }
    if is(command, "status") {
        return Some(Command::Status);
    }
    if is(command, "inspect") {
        return Some(Command::Inspect);
    }
    None
}

/// The command of this name, with one word behind it.
fn with_one(alloc: Global, command: &str, first: &str) -> Result<Option<Command>, AllocError>
    ensures { IfOk result (λ found. form_found found ≡ one_form command.now first.now) }
{
    if is(command, "checkout") {
        let to = RcStr::from_str(alloc, first)?;
        return Ok(Some(Command::Checkout { to }));
    }
    if is(command, "branch") {
        let name = RcStr::from_str(alloc, first)?;
        return Ok(Some(Command::Branch { name, at: None }));
    }
    Ok(None)
}

/// The largest number from which requests are made.
const LARGEST_START: u32 = 2_147_483_647;

/// The most requests that are made at once.
const MOST_REQUESTS: u32 = 100_000;

/// To make requests, where both words are numbers.
fn generated(first: &str, second: &str) -> Option<Command>
    ensures { form_found result ≡ gen_form first.now second.now }
{
    let start = number_within(first, LARGEST_START)?;
    let n = number_within(second, MOST_REQUESTS)?;
    Some(Command::Gen { start, n })
}

/// The command of this name, with two words behind it.
fn with_two(
    alloc: Global,
    command: &str,
    first: &str,
    second: &str,
) -> Result<Option<Command>, AllocError>
    ensures { IfOk result (λ found. form_found found ≡ two_form command.now first.now second.now) }
{
    if is(command, "branch") {
        let name = RcStr::from_str(alloc, first)?;
        let at = Some(RcStr::from_str(alloc, second)?);
        return Ok(Some(Command::Branch { name, at }));
    }
    if is(command, "gen") {
        return Ok(generated(first, second));
    }
    Ok(None)
}

/// The command of this name, with these words behind it.
fn behind(alloc: Global, command: &str, args: &[&str]) -> Result<Option<Command>, AllocError>
    ensures { IfOk result (λ found. form_found found ≡ form_behind command.now (words_in args.now)) }
{
    match args {
        [] => Ok(alone(command, false)),
        [first] => with_one(alloc, command, first),
        [first, second] => with_two(alloc, command, first, second),
        _ => Ok(None),
    }
}

/// The command of this name, with these words behind it, and with `--together` or without.
fn named(
    alloc: Global,
    command: &str,
    args: &[&str],
    together: bool,
) -> Result<Option<Command>, AllocError>
    ensures { IfOk result (λ found. form_found found ≡ form_with together command.now (words_in args.now)) }
{
    if args.is_empty() {
        return Ok(alone(command, together));
    }
    if together {
        return Ok(None);
    }
    behind(alloc, command, args)
}

/// The command of a line that was parsed.
fn command_of(alloc: Global, matches: &ArgMatches) -> Result<Option<Command>, AllocError>
    ensures { (line : Line) → Tells matches.now line → IfOk result (λ found. form_found found ≡ form_at line) }
{
    let Some(command) = matches.get_str("command") else {
        return Ok(None);
    };
    let together = matches.get_flag("together");
    match matches.get_strs("arg") {
        Some(args) => named(alloc, command, args, together),
        None => Ok(alone(command, together)),
    }
}

/// The command that the words of a command line are, without the program's name.
///
/// - `STORE session`, `STORE cell`, `STORE run`, `STORE log`, `STORE status` and `STORE inspect`.
/// - `STORE checkout REF`, `STORE branch NAME` and `STORE branch NAME REF`.
/// - `STORE gen START N`, two numbers in decimal digits without leading zeros: START is at most
///   2,147,483,647, and N at most 100,000.
/// - `--together` stands once at any place of the words of `run`, and nowhere else.
///
/// None says that the words are no command. An empty word, or one that begins with `-` and isn't
/// `--together`, stands in no command, and takes no memory. The error is want of memory.
pub fn read_words(alloc: Global, words: &[String]) -> Result<Option<Command>, AllocError>
    ensures form { IfOk result (λ found. form_found found ≡ form_of (texts words.now)) }
    ensures refused { list_all is_word (texts words.now) ≡ false → result ≡ Ok None }
{
    if !are_words(words) {
        return Ok(None);
    }
    match parse(alloc, words)? {
        Some(matches) => command_of(alloc, &matches),
        None => Ok(None),
    }
}
