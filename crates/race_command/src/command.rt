//! The command line: what it asks for.
ghost use Rattle.std.specs.Prelude.{◌≤◌, IsTrue, IfOk, IfSome};
ghost use Rattle.race_tool.specs.{Outcome.are_in_limits, Options.are_run_limits, Explore.are_explore_limits};
ghost use Rattle.race_command.specs.Request.{is_in_limits};

use crate::drawing::{draw, drawn_variable};
use crate::exploring::explore;
use crate::help;
use crate::number::{number_in, picks_in};
use crate::predicting::predict;
use crate::reading::explained;
use crate::showing::{shown_variable, witness};
use clap::error::ErrorKind;
use clap::{Arg, ArgAction, ArgMatches, Command, Error};
use race_records::MAX_EVENTS;
use race_tool::{
    CheckOptions, ExploreOptions, MAX_BLOCK, MAX_PREDICTED, MAX_RUNS, MAX_SHARDS, MAX_WORKERS,
    Orders, PredictOptions, RunOptions,
};
use std::alloc::{AllocError, Global};
use std::convert::AsStr;

/// What the words ask for.
#[derive(Drop)]
pub(crate) enum Request {
    /// Judge the trace on standard input.
    Check(CheckOptions),
    /// Judge the trace on standard input, and explain the report.
    Explain,
    /// List the synchronization edges of the trace on standard input.
    Edges,
    /// Run the program on standard input.
    Run(RunOptions),
    /// Run the program on standard input, and judge the run.
    Race(RunOptions, CheckOptions),
    /// Look at all runs of the program on standard input.
    Explore(ExploreOptions),
    /// Show the race on the variable of this name of the trace on standard input.
    Witness(String),
    /// Draw the race on the variable of this name, or each race, of the trace on standard input; as an SVG document or not.
    Draw(Option<String>, bool),
    /// Predict races of other runs of the goroutines of the trace on standard input.
    Predict(PredictOptions),
    /// Show a predicted race on the variable of this name of the trace on standard input; in turned orders or not.
    Certify(String, bool),
}

/// A command that has numbers for options.
#[derive(Clone, Copy)]
enum Numbered {
    Check,
    Run,
    Race,
    Explore,
    Predict,
}

impl Numbered {
    fn command<'a>(self, alloc: Global) -> Result<Command<'a>, AllocError> {
        match self {
            Numbered::Check => check(alloc),
            Numbered::Run => run(alloc),
            Numbered::Race => race(alloc),
            Numbered::Explore => explore(alloc),
            Numbered::Predict => predict(alloc),
        }
    }

    // What is wrong with a value.
    fn refuse(self, alloc: Global, text: &str) -> Result<Error, AllocError> {
        let mut command = self.command(alloc)?;
        command.error(ErrorKind::ValueValidation, text)
    }
}

/// What the words of a command line ask for; the first is the program's name.
///
/// Otherwise a text for the user: help or the version, or what is wrong with the words. Its kind is
/// `OutOfMemory` where memory was refused.
pub(crate) fn parse<'a, S: AsStr>(alloc: Global, words: &'a [S]) -> Result<Request, Error>
    ensures limits { IfOk result (λ request. IsTrue (is_in_limits request)) }
{
    match matches_of(alloc, words) {
        Ok(matches) => request_in(alloc, &matches),
        Err(error) => Err(explained(alloc, words, error)?),
    }
}

fn matches_of<'a, S: AsStr>(alloc: Global, words: &'a [S]) -> Result<ArgMatches<'a>, Error> {
    gorace(alloc)?.try_get_matches_from(words)
}

// What is asked for.
fn request_in(alloc: Global, matches: &ArgMatches<'_>) -> Result<Request, Error>
    ensures { IfOk result (λ request. IsTrue (is_in_limits request)) }
{
    if let Some(given) = matches.subcommand_matches("check") {
        return Ok(Request::Check(check_options(alloc, Numbered::Check, given)?));
    }
    if let Some(given) = matches.subcommand_matches("run") {
        return Ok(Request::Run(run_options(alloc, Numbered::Run, given)?));
    }
    if let Some(given) = matches.subcommand_matches("race") {
        let check = check_options(alloc, Numbered::Race, given)?;
        return Ok(Request::Race(run_options(alloc, Numbered::Race, given)?, check));
    }
    if let Some(given) = matches.subcommand_matches("explore") {
        return Ok(Request::Explore(explore_options(alloc, given)?));
    }
    if let Some(given) = matches.subcommand_matches("witness") {
        return Ok(Request::Witness(shown_variable(alloc, given)?));
    }
    if let Some(given) = matches.subcommand_matches("draw") {
        let name = drawn_variable(alloc, given)?;
        return Ok(Request::Draw(name, given.get_flag("svg")));
    }
    if let Some(given) = matches.subcommand_matches("predict") {
        return predict_request(alloc, given);
    }
    if matches.subcommand_matches("explain").is_some() {
        return Ok(Request::Explain);
    }
    match matches.subcommand_matches("edges") {
        Some(_) => Ok(Request::Edges),
        None => Err(no_command(alloc)?),
    }
}

fn no_command(alloc: Global) -> Result<Error, AllocError> {
    gorace(alloc)?.error(ErrorKind::MissingSubcommand, "there is no such command")
}

fn gorace<'a>(alloc: Global) -> Result<Command<'a>, AllocError> {
    let command = Command::new(alloc, "gorace")
        .version(help::VERSION)
        .about(help::ABOUT)
        .after_help(help::AFTER_HELP)
        .subcommand_required(true);
    let command = with_subcommand(command, check(alloc))?;
    let command = with_subcommand(command, Ok(explain(alloc)))?;
    let command = with_subcommand(command, Ok(edges(alloc)))?;
    let command = with_subcommand(command, run(alloc))?;
    let command = with_subcommand(command, race(alloc))?;
    let command = with_subcommand(command, explore(alloc))?;
    let command = with_subcommand(command, witness(alloc))?;
    let command = with_subcommand(command, draw(alloc))?;
    with_subcommand(command, predict(alloc))
}

/// The command of this name, if it reads standard input and takes no name.
pub(crate) fn reader<'a>(alloc: Global, name: &str) -> Result<Option<Command<'a>>, AllocError> {
    Ok(match name {
        "check" => Some(check(alloc)?),
        "explain" => Some(explain(alloc)),
        "edges" => Some(edges(alloc)),
        "run" => Some(run(alloc)?),
        "race" => Some(race(alloc)?),
        "explore" => Some(explore(alloc)?),
        _ => None,
    })
}

// The command, with this one below it.
fn with_subcommand<'a>(
    command: Command<'a>,
    subcommand: Result<Command<'a>, AllocError>,
) -> Result<Command<'a>, AllocError> {
    command.subcommand(subcommand?)
}

fn check<'a>(alloc: Global) -> Result<Command<'a>, AllocError> {
    let command = Command::new(alloc, "check")
        .about(help::CHECK_ABOUT)
        .override_usage(help::CHECK_USAGE)
        .after_help(help::CHECK_HELP);
    with_check_options(alloc, command)
}

fn explain<'a>(alloc: Global) -> Command<'a> {
    Command::new(alloc, "explain")
        .about(help::EXPLAIN_ABOUT)
        .override_usage(help::EXPLAIN_USAGE)
        .after_help(help::EXPLAIN_HELP)
}

fn edges<'a>(alloc: Global) -> Command<'a> {
    Command::new(alloc, "edges")
        .about(help::EDGES_ABOUT)
        .override_usage(help::EDGES_USAGE)
        .after_help(help::EDGES_HELP)
}

fn run<'a>(alloc: Global) -> Result<Command<'a>, AllocError> {
    let command = Command::new(alloc, "run")
        .about(help::RUN_ABOUT)
        .override_usage(help::RUN_USAGE)
        .after_help(help::RUN_HELP);
    with_run_options(alloc, command)
}

fn race<'a>(alloc: Global) -> Result<Command<'a>, AllocError> {
    let command = Command::new(alloc, "race")
        .about(help::RACE_ABOUT)
        .override_usage(help::RACE_USAGE)
        .after_help(help::RACE_HELP);
    with_check_options(alloc, with_run_options(alloc, command)?)
}

// The command, with the options that say how a trace is judged.
fn with_check_options<'a>(alloc: Global, command: Command<'a>) -> Result<Command<'a>, AllocError> {
    let plain = Arg::new(alloc, "plain")
        .long("plain")
        .action(ArgAction::SetTrue)
        .help("Judge with the plain judge, which takes at most 2,000 events");
    command
        .arg(option(
            alloc,
            "shards",
            "N",
            "How many threads share the work, 1 to 64 [default: 1]",
        ))?
        .arg(option(
            alloc,
            "block",
            "N",
            "How many events several threads judge at a time, 1 to 65536 [default: 65536]",
        ))?
        .arg(plain)
}

// The command, with the options that say how a program is run.
fn with_run_options<'a>(alloc: Global, command: Command<'a>) -> Result<Command<'a>, AllocError> {
    let picks = option(
        alloc,
        "picks",
        "LIST",
        "Numbers with commas between them, which say what happens next, on one thread",
    );
    command
        .arg(option(
            alloc,
            "workers",
            "N",
            "How many workers run the goroutines, each past the first a thread of its own, 1 to 16 [default: 1]",
        ))?
        .arg(option(
            alloc,
            "seed",
            "N",
            "What the workers' picks start from, which say what happens next [default: 0]",
        ))?
        .arg(option(
            alloc,
            "limit",
            "N",
            "How many events the run may have, 1 to 16777216 [default: 16777216]",
        ))?
        .arg(picks.conflicts_with("workers")?.conflicts_with("seed")?)
}

// The option of this name, and what its value is called.
fn option<'a>(alloc: Global, name: &'a str, value: &'a str, help: &'a str) -> Arg<'a> {
    Arg::new(alloc, name)
        .long(name)
        .value_name(value)
        .help(help)
}

// How a trace is judged, as the command's words say.
fn check_options(
    alloc: Global,
    command: Numbered,
    given: &ArgMatches<'_>,
) -> Result<CheckOptions, Error>
    ensures { IfOk result (λ options. IsTrue (are_in_limits options)) }
{
    let usual = CheckOptions::default();
    Ok(CheckOptions {
        shards: limited(alloc, command, given, "shards", MAX_SHARDS)?.unwrap_or(usual.shards),
        block: limited(alloc, command, given, "block", MAX_BLOCK)?.unwrap_or(usual.block),
        plain: given.get_flag("plain"),
    })
}

// Which races of other runs are asked for: of each variable, or with a name the one on it.
fn predict_request(alloc: Global, given: &ArgMatches<'_>) -> Result<Request, Error>
    ensures { IfOk result (λ request. IsTrue (is_in_limits request)) }
{
    let turned = given.get_flag("turned");
    match given.get_str("VAR") {
        Some(name) => Ok(Request::Certify(String::from_str(alloc, name)?, turned)),
        None => {
            let usual = PredictOptions::default();
            let most = limited(alloc, Numbered::Predict, given, "most", MAX_PREDICTED)?;
            let most = most.unwrap_or(usual.most as usize) as u32;
            Ok(Request::Predict(PredictOptions { most, turned }))
        }
    }
}

// How the runs of a program are looked at, as the command's words say.
fn explore_options(alloc: Global, given: &ArgMatches<'_>) -> Result<ExploreOptions, Error>
    ensures { IfOk result (λ options. IsTrue (are_explore_limits options)) }
{
    let usual = ExploreOptions::default();
    let limit = limited(alloc, Numbered::Explore, given, "limit", MAX_EVENTS)?;
    let runs = limited(alloc, Numbered::Explore, given, "runs", MAX_RUNS as usize)?;
    Ok(ExploreOptions {
        runs: runs.unwrap_or(usual.runs as usize) as u64,
        limit: limit.unwrap_or(usual.limit as usize) as u32,
        orders: orders(given.get_flag("reduce")),
    })
}

// All orders, or where fewer are wanted one.
fn orders(reduce: bool) -> Orders {
    if reduce { Orders::One } else { Orders::All }
}

// How a program is run, as the command's words say.
fn run_options(
    alloc: Global,
    command: Numbered,
    given: &ArgMatches<'_>,
) -> Result<RunOptions, Error>
    ensures { IfOk result (λ options. IsTrue (are_run_limits options)) }
{
    let usual: RunOptions = RunOptions::default();
    let limit = limited(alloc, command, given, "limit", MAX_EVENTS)?;
    Ok(RunOptions {
        workers: limited(alloc, command, given, "workers", MAX_WORKERS)?.unwrap_or(usual.workers),
        seed: seed(alloc, command, given)?.unwrap_or(usual.seed),
        limit: limit.unwrap_or(usual.limit as usize) as u32,
        picks: picks(alloc, command, given)?,
    })
}

// The list that is given for the picks.
fn picks(
    alloc: Global,
    command: Numbered,
    given: &ArgMatches<'_>,
) -> Result<Option<Vec<u64>>, Error> {
    let Some(word) = given.get_str("picks") else {
        return Ok(None);
    };
    match picks_in(alloc, word)? {
        Some(picks) => Ok(Some(picks)),
        None => {
            let text = format!(in alloc;
                "--picks takes numbers with commas between them, not '{word}'"
            )?;
            Err(command.refuse(alloc, text.as_str())?)
        }
    }
}

// The number that is given for the seed.
fn seed(alloc: Global, command: Numbered, given: &ArgMatches<'_>) -> Result<Option<u64>, Error> {
    let Some(word) = given.get_str("seed") else {
        return Ok(None);
    };
    match number_in(word, 0, u64::MAX) {
        Some(seed) => Ok(Some(seed)),
        None => {
            let text = format!(in alloc; "--seed takes a number, not '{word}'")?;
            Err(command.refuse(alloc, text.as_str())?)
        }
    }
}

// The number that is given for an option of the command, 1 to `most`.
fn limited(
    alloc: Global,
    command: Numbered,
    given: &ArgMatches<'_>,
    option: &str,
    most: usize,
) -> Result<Option<usize>, Error>
    ensures { IfOk result (λ given. IfSome given (λ number. (1 ≤ number) × (number ≤ most))) }
{
    let Some(word) = given.get_str(option) else {
        return Ok(None);
    };
    match number_in(word, 1, most as u64) {
        Some(number) => Ok(Some(number as usize)),
        None => {
            let text = format!(in alloc;
                "--{option} takes a number from 1 to {most}, not '{word}'"
            )?;
            Err(command.refuse(alloc, text.as_str())?)
        }
    }
}
