//! The words of a command line.
ghost use Rattle.std.specs.Prelude.{◌≡◌, ◌≤◌, ℕ, true, List, Option, IfOk, IfSome, map, string_bytes};
ghost use Rattle.std.specs.List.{list_all};
ghost use Rattle.std.specs.Option.{option_copied};
ghost use Rattle.clap.specs.Words.{app_of};
ghost use Rattle.solv_words.specs.CommandLine.{command_of, output_of, source_of};
ghost use Rattle.solv_words.specs.Inner.ByKinds.{Argument, budget, command_by, file, is_given, is_in_range, lines, number_by, proofs, seed, value_of, written};
ghost use Rattle.solv_words.specs.Inner.Accepted.{is_accepted};
ghost use Rattle.solv_words.specs.Inner.Clap.{HasRows, form};

use clap::error::ErrorKind;
use clap::{Arg, ArgAction, ArgMatches, value_parser};
use solv_list::Text;
use std::alloc::{AllocError, Global};

/// What is printed.
#[derive(Clone, Copy, PartialEq, Eq, Debug)]
pub enum Output {
    /// Result lines.
    Lines,
    /// Proofs of the problems, in place of all lines.
    Proofs,
    /// The script itself, as one text.
    Script,
}

/// What is solved: the script in a file, or the one that a seed gives.
#[derive(Drop)]
pub enum Source {
    File(Text),
    Seed(u32),
}

/// What a command line says: whether the result lines are printed also where a script says which it expects, how many rules
/// may be learnt, what is printed, and what is solved. Of the script of a seed result lines alone are printed.
#[derive(Drop)]
pub struct Command {
    pub shows: bool,
    pub budget: u32,
    pub output: Output,
    pub source: Source,
}

/// How many rules may be learnt where no word says it.
const BUDGET: u32 = 100_000;

/// The form of a command line. A request for help is no argument of it.
fn form<'a>(alloc: Global) -> Result<clap::Command<'a>, AllocError>
    ensures { IfOk result (λ command. app_of command ≡ form) }
{
    let lines = Arg::new(alloc, "lines")
        .short('r')
        .action(ArgAction::SetTrue);
    let budget = Arg::new(alloc, "budget")
        .long("budget")
        .value_parser(value_parser!(u32).range(0..=1_000_000));
    let proofs = Arg::new(alloc, "proof")
        .long("proof")
        .action(ArgAction::SetTrue);
    let written = Arg::new(alloc, "write")
        .long("write")
        .action(ArgAction::SetTrue);
    let seed = Arg::new(alloc, "grow")
        .long("grow")
        .value_parser(value_parser!(u32));
    let file = Arg::new(alloc, "FILE");
    let command = clap::Command::new(alloc, "testsolv").disable_help_flag(true);
    command
        .arg(lines)?
        .arg(budget)?
        .arg(proofs)?
        .arg(written)?
        .arg(seed)?
        .arg(file)
}

/// Whether `-r` is given.
fn shows_in(matches: &ArgMatches) -> bool
    ensures { (arguments : List Argument) → HasRows arguments matches.now → result ≡ is_given lines arguments }
{
    matches.get_flag("lines")
}

/// The number of `--budget`.
fn budget_in(matches: &ArgMatches) -> Option<u32>
    ensures { (arguments : List Argument) → HasRows arguments matches.now → list_all is_in_range arguments ≡ true → result ≡ number_by budget arguments }
{
    matches.get_one::<u32>("budget")
}

/// Whether `--proof` is given.
fn proves_in(matches: &ArgMatches) -> bool
    ensures { (arguments : List Argument) → HasRows arguments matches.now → result ≡ is_given proofs arguments }
{
    matches.get_flag("proof")
}

/// Whether `--write` is given.
fn writes_in(matches: &ArgMatches) -> bool
    ensures { (arguments : List Argument) → HasRows arguments matches.now → result ≡ is_given written arguments }
{
    matches.get_flag("write")
}

/// The number of `--grow`.
fn seed_in(matches: &ArgMatches) -> Option<u32>
    ensures { (arguments : List Argument) → HasRows arguments matches.now → list_all is_in_range arguments ≡ true → result ≡ number_by seed arguments }
{
    matches.get_one::<u32>("grow")
}

/// The name of the file.
fn file_in<'a>(matches: &ArgMatches<'a>) -> Option<&'a str>
    ensures { (arguments : List Argument) → HasRows arguments matches.now → option_copied result ≡ value_of file arguments }
{
    matches.get_str("FILE")
}

/// What is printed: result lines, or proofs, or the script; none where both proofs and the script are asked for.
fn output_of(proves: bool, writes: bool) -> Option<Output>
    ensures { result ≡ output_of proves writes }
{
    match (proves, writes) {
        (false, false) => Some(Output::Lines),
        (true, false) => Some(Output::Proofs),
        (false, true) => Some(Output::Script),
        (true, true) => None,
    }
}

/// What is solved: a file, or a seed of which result lines are printed, and not both.
fn source_of(
    alloc: Global,
    output: Output,
    file: Option<&str>,
    seed: Option<u32>,
) -> Result<Option<Source>, AllocError>
    ensures { IfOk result (λ source. source ≡ source_of output (option_copied file.entry) seed) }
{
    match (file, seed) {
        (Some(name), None) => {
            let name = String::from_str(alloc, name)?;
            Ok(Some(Source::File(Text::wrap(name))))
        }
        (None, Some(seed)) if output == Output::Lines => Ok(Some(Source::Seed(seed))),
        _ => Ok(None),
    }
}

/// What a command line says, by its matches.
fn command_in(alloc: Global, matches: &ArgMatches) -> Result<Option<Command>, AllocError>
    ensures { (arguments : List Argument) → HasRows arguments matches.now → is_accepted arguments ≡ true → IfOk result (λ command. command ≡ command_by arguments) }
{
    let Some(output) = output_of(proves_in(matches), writes_in(matches)) else {
        return Ok(None);
    };
    match source_of(alloc, output, file_in(matches), seed_in(matches))? {
        None => Ok(None),
        Some(source) => Ok(Some(Command {
            shows: shows_in(matches),
            budget: budget_in(matches).unwrap_or(BUDGET),
            output,
            source,
        })),
    }
}

/// What the words of a command line say, the first of which is the program's name; none where they are not of the form.
///
/// Running out of memory is the one refusal.
pub fn command_of(alloc: Global, words: &[String]) -> Result<Option<Command>, AllocError>
    ensures said { IfOk result (λ command. command ≡ command_of (map string_bytes words.now)) }
    ensures within { IfOk result (λ command. IfSome command (λ said. said.budget ≤ 1000000)) }
{
    match form(alloc)?.try_get_matches_from(words) {
        Ok(matches) => command_in(alloc, &matches),
        Err(error) if error.kind() == ErrorKind::OutOfMemory => Err(AllocError),
        Err(_) => Ok(None),
    }
}
