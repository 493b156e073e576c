//! The words of `gorace predict`.

use crate::help;
use clap::{Arg, ArgAction, Command};
use std::alloc::{AllocError, Global};

/// The command.
pub(crate) fn predict<'a>(alloc: Global) -> Result<Command<'a>, AllocError> {
    let most = Arg::new(alloc, "most").long("most").value_name("N").help(
        "How many predicted races are reported at most, 1 to 65535 [default: 64]",
    );
    Command::new(alloc, "predict")
        .about(help::PREDICT_ABOUT)
        .override_usage(help::PREDICT_USAGE)
        .after_help(help::PREDICT_HELP)
        .arg(Arg::new(alloc, "VAR").help(
            "The name of a variable: write a run that ends with a race on it",
        ))?
        .arg(
            Arg::new(alloc, "turned")
                .long("turned")
                .action(ArgAction::SetTrue)
                .help("Look for orders of locks and messages other than the recorded one, too"),
        )?
        .arg(most.conflicts_with("VAR")?)
}
