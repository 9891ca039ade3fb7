//! The command line as the parser knows it.
ghost use Rattle.std.specs.Prelude.{◌≡◌, IfOk};
ghost use Rattle.clap.specs.Words.{app_of};
ghost use Rattle.program_words.specs.Line.{line};

use crate::texts::VERSION;
use clap::{Arg, ArgAction, Command};
use std::alloc::{AllocError, Global};

/// A line of values, with the flags for help and for the version.
pub(crate) fn command_line<'a>(alloc: Global) -> Result<Command<'a>, AllocError>
    ensures { IfOk result (λ c. app_of c ≡ line) }
{
    let words = Arg::new(alloc, "words").action(ArgAction::Append);
    Command::new(alloc, "hg_cli").version(VERSION).arg(words)
}
