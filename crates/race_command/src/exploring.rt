//! The words of `gorace explore`.

use crate::help;
use clap::{Arg, ArgAction, Command};
use std::alloc::{AllocError, Global};

/// The command.
pub(crate) fn explore<'a>(alloc: Global) -> Result<Command<'a>, AllocError> {
    let runs = Arg::new(alloc, "runs").long("runs").value_name("N").help(
        "How many runs are made, at most, 1 to 1000000000000 [default: 1000000]",
    );
    let limit = Arg::new(alloc, "limit").long("limit").value_name("N").help(
        "How many events a run may have, 1 to 16777216 [default: 16777216]",
    );
    let reduce = Arg::new(alloc, "reduce")
        .long("reduce")
        .action(ArgAction::SetTrue)
        .help(
            "Judge fewer runs: of those that differ only in the order of independent steps one at least",
        );
    Command::new(alloc, "explore")
        .about(help::EXPLORE_ABOUT)
        .override_usage(help::EXPLORE_USAGE)
        .after_help(help::EXPLORE_HELP)
        .arg(runs)?
        .arg(limit)?
        .arg(reduce)
}
