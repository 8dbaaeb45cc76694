//! The words behind the program's name.

ghost use Rattle.std.specs.Prelude.{◌≡◌, ◌≤◌, ◌<◌, ◌^◌, ◌∷◌, [], fold, Some, None, true, false, drop, map, string_bytes, IfOk, IfSome, IfNone};
ghost use Rattle.std.specs.List.{list_all};
ghost use Rattle.std.specs.Str.Parse.{digits_value};
ghost use Rattle.clap.specs.Matches.{found_of};
ghost use Rattle.clap.specs.Simple.{app_of};
ghost use Rattle.clap.specs.Walk.{rows_of};
ghost use Rattle.object_codec.specs.Limits.{AreInRange};
ghost use Rattle.program_top.specs.Given.{command, given_by, given_of, is_number, is_right, limits_of, numbers, options_of, sizes, value_of, with_option, asked_for, generate};
ghost use Rattle.program_top.specs.WordsRead.{AreTaken, AreUsable, IsPlainCommand, Matches, Refuses, given_read, number_read, options_read};

use clap::error::ErrorKind;
use clap::{Arg, ArgMatches, Command};
use int_text::read_u64;
use object_codec::Limits;
use std::alloc::{AllocError, Global};

/// What a run is asked for.
#[derive(Clone, Copy)]
pub struct Options<'a> {
    /// The name of the file that is loaded.
    pub file: Option<&'a str>,
    /// The seed of hashes and random picks.
    pub seed: u64,
    /// The effort of background work, from 0 to 100: how many steps of each kind are planned after each request.
    pub effort: u32,
    /// What values are made with.
    pub limits: Limits,
    /// So many bytes are taken at most from the input, and from a file.
    pub max_input: u64,
}

/// What the words ask for.
#[derive(Clone, Copy)]
pub enum Given<'a> {
    /// Nothing that there is.
    Wrong,
    /// A run with these options.
    Run(Options<'a>),
    /// So many generated commands with these options.
    Generate(u64, Options<'a>),
}

/// The words behind the program's name, which is the first of all.
pub fn behind(all: &[String]) -> &[String]
    ensures { map string_bytes result.now ≡ drop 1 (map string_bytes all.now) }
{
    match all {
        [] => all,
        [_, words @ ..] => words,
    }
}

// An option that takes a number: the least and the most that it may be, and what it is where the words don't say.
#[derive(Clone, Copy)]
struct Number {
    name: &'static str,
    least: u64,
    most: u64,
    usual: u64,
}

const LOAD: &str = "load";

const SEED: Number = Number {
    name: "seed",
    least: 0,
    most: u64::MAX,
    usual: 0,
};

const EFFORT: Number = Number {
    name: "effort",
    least: 0,
    most: 100,
    usual: 1,
};

const MAX_INPUT: Number = Number {
    name: "max-input",
    least: 1,
    most: 4_611_686_018_427_387_904,
    usual: 1_099_511_627_776,
};

// 0 where the words don't say.
const GENERATE: Number = Number {
    name: "generate",
    least: 1,
    most: 1_000_000,
    usual: 0,
};

const HASH_ENTRIES: Number = Number {
    name: "hash-max-entries",
    least: 0,
    most: 4096,
    usual: 512,
};

const SET_ENTRIES: Number = Number {
    name: "set-max-entries",
    least: 0,
    most: 4096,
    usual: 128,
};

const ZSET_ENTRIES: Number = Number {
    name: "zset-max-entries",
    least: 0,
    most: 4096,
    usual: 128,
};

const HASH_VALUE: Number = Number {
    name: "hash-max-value",
    least: 0,
    most: 4096,
    usual: 64,
};

const SET_VALUE: Number = Number {
    name: "set-max-value",
    least: 0,
    most: 4096,
    usual: 64,
};

const ZSET_VALUE: Number = Number {
    name: "zset-max-value",
    least: 0,
    most: 4096,
    usual: 64,
};

const SET_INTSET: Number = Number {
    name: "set-max-intset",
    least: 0,
    most: 65_536,
    usual: 512,
};

/// The command with one option more: `--name VALUE` or `--name=VALUE`.
pub fn with_option<'a>(
    command: Command<'a>,
    alloc: Global,
    name: &'a str,
) -> Result<Command<'a>, AllocError>
    ensures { IfOk result (λ more. app_of more ≡ with_option (app_of command.entry) name.entry.now) }
{
    let option = Arg::new(alloc, name).long(name);
    command.arg(option)
}

// The command with four options more.
fn with_four<'a>(
    command: Command<'a>,
    alloc: Global,
    first: &'a str,
    second: &'a str,
    third: &'a str,
    fourth: &'a str,
) -> Result<Command<'a>, AllocError>
    ensures { IfOk result
        (λ more. app_of more ≡ fold with_option (app_of command.entry) (first.entry.now ∷ second.entry.now ∷ third.entry.now ∷ fourth.entry.now ∷ [])) }
{
    let command = with_option(command, alloc, first)?;
    let command = with_option(command, alloc, second)?;
    let command = with_option(command, alloc, third)?;
    with_option(command, alloc, fourth)
}

/// The command that reads the words.
pub fn command<'a>(alloc: Global) -> Result<Command<'a>, AllocError>
    ensures { IfOk result (λ all. app_of all ≡ command) }
{
    let bare = Command::new(alloc, "redis-core").no_binary_name(true);
    let command = with_four(bare, alloc, LOAD, GENERATE.name, SEED.name, EFFORT.name)?;
    let command = with_four(
        command,
        alloc,
        MAX_INPUT.name,
        HASH_ENTRIES.name,
        SET_ENTRIES.name,
        ZSET_ENTRIES.name,
    )?;
    with_four(
        command,
        alloc,
        HASH_VALUE.name,
        SET_VALUE.name,
        ZSET_VALUE.name,
        SET_INTSET.name,
    )
}

// The number that a text is. None is a text that is no number in the option's range.
fn number_of(text: &str, option: Number) -> Option<u64>
    ensures some { IfSome result (λ n. (is_number (number_read option) text.now ≡ true) × (n ≡ digits_value 10 text.now) × (n ≤ option.most)) }
    ensures none { IfNone result (is_number (number_read option) text.now ≡ false) }
{
    match read_u64(text.as_bytes()) {
        None => None,
        Some(number) => {
            if number < option.least || option.most < number {
                None
            } else {
                Some(number)
            }
        }
    }
}

// The number of an option, or the usual one. None is a text that is no number in the option's range.
fn read_number(matches: &ArgMatches<'_>, option: Number) -> Option<u64>
    requires { option.usual ≤ option.most }
    ensures some { IfSome result
        (λ n. (is_right (rows_of (found_of matches.now)) (number_read option) ≡ true) × (n ≡ value_of (rows_of (found_of matches.now)) (number_read option)) × (n ≤ option.most)) }
    ensures none { IfNone result (is_right (rows_of (found_of matches.now)) (number_read option) ≡ false) }
{
    match matches.get_str(option.name) {
        None => Some(option.usual),
        Some(text) => number_of(text, option),
    }
}

// The same of a small number.
fn read_limit(matches: &ArgMatches<'_>, option: Number) -> Option<u32>
    requires usual { option.usual ≤ option.most }
    requires small { option.most < 2 ^ 32 }
    ensures some { IfSome result
        (λ n. (is_right (rows_of (found_of matches.now)) (number_read option) ≡ true) × (n ≡ value_of (rows_of (found_of matches.now)) (number_read option)) × (n ≤ option.most)) }
    ensures none { IfNone result (is_right (rows_of (found_of matches.now)) (number_read option) ≡ false) }
{
    match read_number(matches, option) {
        Some(number) => Some(number as u32),
        None => None,
    }
}

// The limits of packed forms. None is one of them that is wrong.
fn read_limits(matches: &ArgMatches<'_>) -> Option<Limits>
    ensures some { IfSome result (λ all. (list_all (is_right (rows_of (found_of matches.now))) sizes ≡ true) × (all ≡ limits_of (rows_of (found_of matches.now))) × AreInRange all) }
    ensures none { IfNone result (list_all (is_right (rows_of (found_of matches.now))) sizes ≡ false) }
{
    Some(Limits {
        hash_entries: read_limit(matches, HASH_ENTRIES)?,
        set_entries: read_limit(matches, SET_ENTRIES)?,
        zset_entries: read_limit(matches, ZSET_ENTRIES)?,
        hash_value: read_limit(matches, HASH_VALUE)?,
        set_value: read_limit(matches, SET_VALUE)?,
        zset_value: read_limit(matches, ZSET_VALUE)?,
        set_intset: read_limit(matches, SET_INTSET)?,
    })
}

// How many commands are generated, and the options that were matched. None is a number that is wrong.
fn read_options<'a>(matches: &ArgMatches<'a>) -> Option<(u64, Options<'a>)>
    ensures some { IfSome result
        (λ all. (list_all (is_right (rows_of (found_of matches.now))) numbers ≡ true) × (all.0 ≡ value_of (rows_of (found_of matches.now)) generate)
        × (options_read all.1 ≡ options_of (rows_of (found_of matches.now))) × AreUsable all.1) }
    ensures none { IfNone result (list_all (is_right (rows_of (found_of matches.now))) numbers ≡ false) }
{
    let count = read_number(matches, GENERATE)?;
    let seed = read_number(matches, SEED)?;
    let effort = read_limit(matches, EFFORT)?;
    let max_input = read_number(matches, MAX_INPUT)?;
    let limits = read_limits(matches)?;
    let options = Options {
        file: matches.get_str(LOAD),
        seed,
        effort,
        limits,
        max_input,
    };
    Some((count, options))
}

// A run with these options, or so many generated commands where there are some, which take no file.
fn asked_for<'a>(count: u64, options: Options<'a>) -> Given<'a>
    requires { AreUsable options }
    ensures given { given_read result ≡ asked_for count (options_read options.entry) }
    ensures taken { AreTaken result }
{
    if count == 0 {
        return Given::Run(options);
    }
    match options.file {
        None => Given::Generate(count, options),
        Some(_) => Given::Wrong,
    }
}

/// What the words that were matched ask for.
pub fn given_by<'a>(matches: &ArgMatches<'a>) -> Given<'a>
    ensures given { given_read result ≡ given_of (rows_of (found_of matches.now)) }
    ensures taken { AreTaken result }
{
    match read_options(matches) {
        Some((count, options)) => asked_for(count, options),
        None => Given::Wrong,
    }
}

/// What the words give the options of a command. None says that it doesn't take them, and `Err` is want of memory.
pub fn matched<'a>(
    command: Command<'a>,
    words: &'a [String],
) -> Result<Option<ArgMatches<'a>>, AllocError>
    requires { IsPlainCommand (app_of command) }
    ensures some { IfOk result (λ found. IfSome found (λ matches. Matches (app_of command.entry) (map string_bytes words.entry.now) (rows_of (found_of matches)))) }
    ensures none { IfOk result (λ found. IfNone found (Refuses (app_of command.entry) (map string_bytes words.entry.now))) }
{
    match command.try_get_matches_from(words) {
        Ok(matches) => Ok(Some(matches)),
        Err(error) => match error.kind() {
            ErrorKind::OutOfMemory => Err(AllocError),
            _ => Ok(None),
        },
    }
}

/// Reads the words behind the program's name, as a command line of `clap`: `--load FILE`, and the options whose values are
/// numbers, each once at most and each as `--name VALUE` or `--name=VALUE`. A number is one or more decimal digits in the
/// option's range. Every other word is wrong, `--help` and `--version` too, and so is a file beside generated commands.
/// `Err` is want of memory.
pub fn read_words<'a>(alloc: Global, words: &'a [String]) -> Result<Given<'a>, AllocError>
    ensures options { IfOk result (λ given. given_by (map string_bytes words.entry.now) ≡ given_read given) }
    ensures taken { IfOk result AreTaken }
{
    let command = command(alloc)?;
    match matched(command, words) {
        Ok(Some(matches)) => Ok(given_by(&matches)),
        Ok(None) => Ok(Given::Wrong),
        Err(error) => Err(error),
    }
}
