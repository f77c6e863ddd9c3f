//! The command line as `clap` gets it, and what it finds in words.
ghost use Rattle.std.specs.Prelude.{◌≡◌, false, None, Err, IfOk};
ghost use Rattle.clap.specs.Words.{app_of, rule_of};
ghost use Rattle.ops_jobs.specs.Words.{word_bytes};
ghost use Rattle.ops_words.specs.Command.{app, files_rule, flag_rule, option_rule};
ghost use Rattle.ops_words.specs.Found.{Finds, FindsNothing, fault_of};

use crate::faults::WordsFault;
use clap::error::ErrorKind;
use clap::{Arg, ArgAction, ArgMatches, Command};
use std::alloc::{AllocError, Global};

/// An option that takes a value and stands at most once.
fn option_named<'a>(alloc: Global, name: &'a str) -> Arg<'a>
    ensures rule { rule_of result ≡ option_rule name.entry.now }
    ensures local { result.global ≡ false }
{
    Arg::new(alloc, name).long(name)
}

/// A flag that takes no value and stands at most once.
fn flag_named<'a>(alloc: Global, name: &'a str) -> Arg<'a>
    ensures rule { rule_of result ≡ flag_rule name.entry.now }
    ensures local { result.global ≡ false }
{
    Arg::new(alloc, name).action(ArgAction::SetTrue).long(name)
}

/// The names, of which there is at least one.
fn files<'a>(alloc: Global) -> Arg<'a>
    ensures rule { rule_of result ≡ files_rule }
    ensures local { result.global ≡ false }
{
    Arg::new(alloc, "file")
        .action(ArgAction::Append)
        .required(true)
}

fn command_line<'a>(alloc: Global) -> Result<Command<'a>, AllocError>
    ensures { IfOk result (λ c. app_of c ≡ app) }
{
    let bare = Command::new(alloc, "ops")
        .no_binary_name(true)
        .disable_help_flag(true);
    bare.arg(option_named(alloc, "match"))?
        .arg(option_named(alloc, "workers"))?
        .arg(option_named(alloc, "lines"))?
        .arg(option_named(alloc, "limit"))?
        .arg(flag_named(alloc, "gen"))?
        .arg(flag_named(alloc, "net"))?
        .arg(flag_named(alloc, "why"))?
        .arg(flag_named(alloc, "overlap"))?
        .arg(files(alloc))
}

fn fault_of(kind: ErrorKind) -> WordsFault
    ensures { result ≡ fault_of kind }
{
    match kind {
        ErrorKind::OutOfMemory => WordsFault::OutOfMemory,
        _ => WordsFault::Usage,
    }
}

/// What `clap` finds in the words. Of its error the kind alone is kept.
pub fn find_words<'a>(alloc: Global, words: &'a [String]) -> Result<ArgMatches<'a>, WordsFault>
    ensures found { IfOk result (Finds (word_bytes words.entry.now)) }
    ensures usage { result ≡ Err WordsFault.Usage → FindsNothing (word_bytes words.entry.now) }
{
    let command = command_line(alloc)?;
    match command.try_get_matches_from(words) {
        Ok(matches) => Ok(matches),
        Err(error) => Err(fault_of(error.kind())),
    }
}
