//! The words behind the program's name, among which there may be what is done behind a serving.

ghost use Rattle.std.specs.Prelude.{◌≡◌, Bool, map, string_bytes, option_map, IfOk};
ghost use Rattle.clap.specs.Matches.{found_of};
ghost use Rattle.clap.specs.Simple.{app_of};
ghost use Rattle.clap.specs.Walk.{rows_of};
ghost use Rattle.program_top.specs.WordsRead.{AreTaken, given_read};
ghost use Rattle.saving_top.specs.Asked.{asked_by, asked_of, closed_by, closing_command, is_flagged, maybe_closed, with_flag};
ghost use Rattle.saving_top.specs.AskedRead.{AreAsked, asked_read, closing_read};

use clap::{Arg, ArgAction, ArgMatches, Command};
use program_top::words::{Given, Options, command, given_by, matched, with_option};
use std::alloc::{AllocError, Global};

/// What is done behind a serving that ended with status 0.
#[derive(Clone, Copy)]
pub struct Closing<'a> {
    /// Whether the slabs are told in the notes.
    pub audit: bool,
    /// The name of the file that the world is saved in.
    pub save: Option<&'a str>,
}

/// What the words ask for.
#[derive(Clone, Copy)]
pub enum Asked<'a> {
    /// What there is where nothing is done behind a serving.
    Plain(Given<'a>),
    /// A run with these options, and what is done behind it.
    Closed(Options<'a>, Closing<'a>),
}

const SAVE: &str = "save";

const AUDIT: &str = "audit";

// The command with one flag more: `--name`.
fn with_flag<'a>(
    command: Command<'a>,
    alloc: Global,
    name: &'a str,
) -> Result<Command<'a>, AllocError>
    ensures { IfOk result (λ more. app_of more ≡ with_flag (app_of command.entry) name.entry.now) }
{
    let flag = Arg::new(alloc, name).long(name).action(ArgAction::SetTrue);
    command.arg(flag)
}

// The command that reads the words.
fn closing_command<'a>(alloc: Global) -> Result<Command<'a>, AllocError>
    ensures { IfOk result (λ all. app_of all ≡ closing_command) }
{
    let plain = command(alloc)?;
    let saving = with_option(plain, alloc, SAVE)?;
    with_flag(saving, alloc, AUDIT)
}

// A run that is closed so. Nothing else may be.
fn closed_by<'a>(closing: Closing<'a>, given: Given<'a>) -> Asked<'a>
    requires { AreTaken given }
    ensures asked { asked_read result ≡ closed_by (closing_read closing.entry) (given_read given.entry) }
    ensures taken { AreAsked result }
{
    match given {
        Given::Run(options) => Asked::Closed(options, closing),
        Given::Wrong | Given::Generate(..) => Asked::Plain(Given::Wrong),
    }
}

// What is given, and what is done behind it, if anything is.
fn maybe_closed<'a>(audit: bool, save: Option<&'a str>, given: Given<'a>) -> Asked<'a>
    requires { AreTaken given }
    ensures asked { asked_read result ≡ maybe_closed audit (option_map (λ s. s.now) save.entry) (given_read given.entry) }
    ensures taken { AreAsked result }
{
    match save {
        None => {
            if audit {
                closed_by(Closing { audit, save }, given)
            } else {
                Asked::Plain(given)
            }
        }
        Some(_) => closed_by(Closing { audit, save }, given),
    }
}

// Whether the flag is among the words that were matched.
fn is_flagged(matches: &ArgMatches<'_>) -> bool
    ensures { result ≡ is_flagged (rows_of (found_of matches.now)) }
{
    match matches.get_str(AUDIT) {
        None => false,
        Some(text) => text == "true",
    }
}

// What the words that were matched ask for.
fn asked_by<'a>(matches: &ArgMatches<'a>) -> Asked<'a>
    ensures asked { asked_read result ≡ asked_of (rows_of (found_of matches.now)) }
    ensures taken { AreAsked result }
{
    maybe_closed(
        is_flagged(matches),
        matches.get_str(SAVE),
        given_by(matches),
    )
}

/// Reads the words behind the program's name: those of a run behind which nothing is done, `--save FILE` or `--save=FILE`, and the
/// flag `--audit`, each once at most. Beside generated commands both are wrong. `Err` is want of memory.
pub fn read_asked<'a>(alloc: Global, words: &'a [String]) -> Result<Asked<'a>, AllocError>
    ensures asked { IfOk result (λ asked. asked_by (map string_bytes words.entry.now) ≡ asked_read asked) }
    ensures taken { IfOk result AreAsked }
{
    let command = closing_command(alloc)?;
    match matched(command, words) {
        Ok(Some(matches)) => Ok(asked_by(&matches)),
        Ok(None) => Ok(Asked::Plain(Given::Wrong)),
        Err(error) => Err(error),
    }
}
