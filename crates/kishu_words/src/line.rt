// A command line as `clap` reads it.
ghost use Rattle.std.specs.Prelude.{◌≡◌, true, None, Some, IfOk, MatchOption};
ghost use Rattle.std.specs.List.{list_all};
ghost use Rattle.kishu_words.specs.Words.{Line, texts, is_word, line_of};
ghost use Rattle.clap.specs.Words.{app_of};
ghost use Rattle.kishu_words.specs.Parses.{Tells, line_app};

use clap::error::ErrorKind;
use clap::{Arg, ArgAction, ArgMatches, Command, Error};
use std::alloc::{AllocError, Global};

/// `STORE COMMAND ARG.. --together`, where the flag stands at any place.
fn command_line<'a>(alloc: Global) -> Result<Command<'a>, AllocError>
    ensures { IfOk result (λ c. app_of c ≡ line_app) }
{
    let store = Arg::new(alloc, "store").required(true);
    let command = Arg::new(alloc, "command").required(true);
    let args = Arg::new(alloc, "arg").action(ArgAction::Append);
    let together = Arg::new(alloc, "together")
        .long("together")
        .action(ArgAction::SetTrue);
    Command::new(alloc, "kishu")
        .no_binary_name(true)
        .disable_help_flag(true)
        .arg(store)?
        .arg(command)?
        .arg(args)?
        .arg(together)
}

/// What stands on the command line, or None where it isn't one.
pub(crate) fn parse(alloc: Global, words: &[String]) -> Result<Option<ArgMatches<'_>>, AllocError>
    requires { list_all is_word (texts words.now) ≡ true }
    ensures { IfOk result (λ found. MatchOption found (line_of (texts words.now) ≡ None)
        (λ m. (line : Line) × (line_of (texts words.now) ≡ Some line) × Tells m line)) }
{
    let command = command_line(alloc)?;
    match command.try_get_matches_from(words) {
        Ok(matches) => Ok(Some(matches)),
        Err(error) if error.kind() == ErrorKind::OutOfMemory => Err(AllocError),
        Err(_) => Ok(None),
    }
}
